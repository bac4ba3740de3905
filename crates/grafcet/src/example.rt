//! The two-step chart of docs/chart.md, and texts that go wrong.
use std::io;

pub const TEXT: &str = "step 0 initial
step 1
trans 0 from 0 to 1 when /I0
trans 1 from 1 to 0 when I1
hold 1 Q0
enter 1 set Q1
";

/// The frames of docs/chart.md for this chart.
pub const FRAMES: [u64; 4] = [0, 1, 2, 3];

/// A chart whose two steps take turns for ever.
pub const TURNS: &str = "step 0 initial
step 1
trans 0 from 0 to 1 when 1
trans 1 from 1 to 0 when 1
";

/// Texts with a fault each.
pub const WRONG: [&str; 7] = [
    "",
    "step 64",
    "step 0 initial\nstop 1",
    "step 0 initial\ntrans 0 from 0 to 0 when ((((((((1))))))))",
    "step 0 initial\ntrans 0 from 0 when I1",
    "step 0 initial\nstep 0",
    "step 0 initial\nhold 1 Q0",
];

/// A text, indented.
pub fn print_text(rt: &HostRuntime, text: &str) -> io::Result<()> {
    for line in text.lines() {
        println!(rt; "    {line}")?;
    }
    Ok(())
}
