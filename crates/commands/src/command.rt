//! The commands.
ghost use Rattle.std.specs.Prelude.{map, string_bytes};
ghost use Rattle.commands.specs.Commands.{Asks};

/// What the arguments ask for.
#[derive(Clone, Copy, PartialEq, Eq, Debug)]
pub enum Command<'a> {
    Demo,
    /// The chart in a file, and the file that its code goes to.
    Compile {
        chart: &'a str,
        out: &'a str,
    },
    Load(&'a str),
    /// The frames that a code file is scanned with.
    Scan {
        code: &'a str,
        frames: &'a [String],
    },
    /// The calls in a file, with the chart in another, over an image.
    Campaign {
        chart: &'a str,
        image: &'a str,
        calls: &'a str,
    },
}

/// The command that the arguments name, if they name one. The first argument is the program's own name.
#[tactic(auto, using(crate::proofs::Texts::texts))]
pub fn command_of(args: &[String]) -> Option<Command<'_>>
    ensures { Asks (map string_bytes args.now) result }
{
    match args {
        [] | [_] => Some(Command::Demo),
        [_, word, chart, out] if word.as_str() == "compile" => Some(Command::Compile {
            chart: chart.as_str(),
            out: out.as_str(),
        }),
        [_, word, path] if word.as_str() == "load" => Some(Command::Load(path.as_str())),
        [_, word, code, frames @ ..] if word.as_str() == "scan" => Some(Command::Scan {
            code: code.as_str(),
            frames,
        }),
        [_, word, chart, image, calls] if word.as_str() == "campaign" => Some(Command::Campaign {
            chart: chart.as_str(),
            image: image.as_str(),
            calls: calls.as_str(),
        }),
        _ => None,
    }
}
