//! Each refusal of a chart text at its place, and one past each limit.
use crate::texts::*;
use compile::compiler::Compiler;
use faults::{ChartFault, CodeFault, TextFault};
use std::test::Fail;

const TWO_STEPS: &str =
    "step 0 initial\nstep 1\ntrans 0 from 0 to 1 when /I0\ntrans 1 from 1 to 0 when I1\nhold 1 Q0\nenter 1 set Q1";

#[test]
fn tokens_with_and_without_blanks(rt: HostRuntime) -> Result<(), Fail> {
    let cases = [
        fine("step 0 initial"),
        fine("step0initial"),
        fine("  step   0   initial  \n\n   \n"),
        fine("step 0000 initial"),
        fine("step0initial\ntrans0from0to0when1.I0+!(X0)\nenter0setQ1\nhold0Q3"),
        fine("hold 0 Q0\nstep 0 initial"),
        in_text("stepinitial", TextFault::NoToken(0)),
        in_text("step 0 initial\r\n", TextFault::NoToken(14)),
        in_text("step\t0", TextFault::NoToken(4)),
        in_text("step 0 stop", TextFault::NoToken(7)),
        in_text("hold 0 Q", TextFault::NoToken(7)),
        in_text("hold 0 Q 1", TextFault::NoToken(7)),
        in_text("hold 0 Y1", TextFault::NoToken(7)),
        in_text("step 00000", TextFault::TooManyDigits(5)),
        in_text("hold 0 Q00001", TextFault::TooManyDigits(7)),
        in_text("step 9999", TextFault::NumberTooLarge(5)),
    ];
    judge_texts(&rt, rt.alloc(), &cases)
}

#[test]
fn lines_that_do_not_go_on(rt: HostRuntime) -> Result<(), Fail> {
    let cases = [
        in_text("step", TextFault::Unexpected(4)),
        in_text("step \nstep 0", TextFault::Unexpected(5)),
        in_text("step 0 initial initial", TextFault::Unexpected(15)),
        in_text("initial", TextFault::Unexpected(0)),
        in_text("step I0", TextFault::Unexpected(5)),
        in_text("hold 0 I0", TextFault::Unexpected(7)),
        in_text("enter 0 Q0", TextFault::Unexpected(8)),
        in_text("trans 0 from 0, to 1 when 1", TextFault::Unexpected(16)),
        in_text("trans 0 from 0 to 1", TextFault::Unexpected(19)),
        in_text("trans 0 from 0 to 1 when", TextFault::Unexpected(24)),
        in_text("trans 0 from 0 to 1 when 2", TextFault::Unexpected(25)),
        in_text("trans 0 from 0 to 1 when 64", TextFault::Unexpected(25)),
        in_text("trans 0 from 0 to 1 when !!I0", TextFault::Unexpected(26)),
        in_text("trans 0 from 0 to 1 when /Q0", TextFault::Unexpected(26)),
        in_text("trans 0 from 0 to 1 when I0 I1", TextFault::Unexpected(28)),
        in_text("trans 0 from 0 to 1 when (1", TextFault::Unexpected(27)),
        in_text("trans 0 from 0 to 1 when 1)", TextFault::Unexpected(26)),
        in_text("trans 0 from 0 to 1 when 1+", TextFault::Unexpected(27)),
    ];
    judge_texts(&rt, rt.alloc(), &cases)
}

#[test]
fn numbers_and_brackets_at_the_limit(rt: HostRuntime) -> Result<(), Fail> {
    let cases = [
        fine("step 63 initial"),
        in_text("step 64", TextFault::NumberTooLarge(5)),
        in_text("trans 64 from 0 to 0 when 1", TextFault::NumberTooLarge(6)),
        in_text(
            "trans 0 from 0,64 to 0 when 1",
            TextFault::NumberTooLarge(15),
        ),
        in_text("trans 0 from 0 to 64 when 1", TextFault::NumberTooLarge(18)),
        in_text(
            "trans 0 from 0 to 0 when /I64",
            TextFault::NumberTooLarge(26),
        ),
        in_text("hold 0 Q64", TextFault::NumberTooLarge(7)),
        in_text("enter 0 set Q64", TextFault::NumberTooLarge(12)),
        fine("step 0 initial\ntrans 0 from 0 to 0 when (((((((1)))))))"),
        fine("step 0 initial\ntrans 0 from 0 to 0 when (((((((1))))))).(((((((1)))))))"),
        in_text(
            "trans 0 from 0 to 0 when ((((((((1))))))))",
            TextFault::EighthBracket(32),
        ),
        in_text(
            "trans 0 from 0 to 0 when (((((((1(",
            TextFault::Unexpected(33),
        ),
        // the deepest nesting of brackets in the words: 17
        fine(
            "step 0 initial\ntrans 0 from 0 to 0 when 1+1.(1+1.(1+1.(1+1.(1+1.(1+1.(1+1.(1+1.1)))))))",
        ),
    ];
    judge_texts(&rt, rt.alloc(), &cases)
}

#[test]
fn declarations_missing_or_repeated(rt: HostRuntime) -> Result<(), Fail> {
    let cases = [
        in_chart("", ChartFault::NoInitialStep(0)),
        in_chart("step 63", ChartFault::NoInitialStep(7)),
        in_chart("step 0 initial\nstep 00", ChartFault::DeclaredTwice(20)),
        in_chart(
            "step 0 initial\nstep 1\ntrans 1 from 0 to 1 when 1\ntrans 1 from 1 to 0 when 1",
            ChartFault::DeclaredTwice(55),
        ),
        fine("step 0 initial\ntrans 0 from 0 to 0 when 1"),
        in_chart(
            "step 0 initial\ntrans 0 from 0 to 1 when 1",
            ChartFault::UndeclaredStep(33),
        ),
        in_chart(
            "step 0 initial\ntrans 0 from 0 to 0 when I0.X7",
            ChartFault::UndeclaredStep(43),
        ),
        in_chart("step 0 initial\nhold 1 Q0", ChartFault::UndeclaredStep(20)),
        in_chart(
            "step 0 initial\nenter 1 set Q0",
            ChartFault::UndeclaredStep(21),
        ),
    ];
    judge_texts(&rt, rt.alloc(), &cases)
}

#[test]
fn entries_listed_or_held_twice(rt: HostRuntime) -> Result<(), Fail> {
    let cases = [
        in_chart(
            "step 0 initial\nstep 1\ntrans 0 from 0, 1, 0 to 1 when 1",
            ChartFault::ListedTwice(41),
        ),
        in_chart(
            "step 0 initial\nstep 1\ntrans 0 from 0 to 1,0,01 when 1",
            ChartFault::ListedTwice(44),
        ),
        in_chart(
            "step 0 initial\nhold 0 Q3\nhold 0 Q03",
            ChartFault::HeldTwice(32),
        ),
        fine("step 0 initial\nstep 1\nhold 0 Q3\nhold 1 Q3\nhold 0 Q4"),
        fine("step 0 initial\nenter 0 set Q1\nenter 0 set Q1\nenter 0 reset Q1"),
    ];
    judge_texts(&rt, rt.alloc(), &cases)
}

#[test]
fn of_two_faults_the_earlier(rt: HostRuntime) -> Result<(), Fail> {
    let cases = [
        in_text("step 64 stop", TextFault::NumberTooLarge(5)),
        in_text("step 0 stop 64", TextFault::NoToken(7)),
        in_text("step step ?", TextFault::Unexpected(5)),
        in_text("step ? step", TextFault::NoToken(5)),
        // five digits where no number may stand, and no token behind a line that is not at its end
        in_text("hold 0 00000", TextFault::TooManyDigits(7)),
        in_text("trans 0 from 0 to 0 when ((1 ?", TextFault::NoToken(29)),
        // a fault of the text behind one of the chart
        in_text(
            "step 0 initial\nstep 0\nstep 64",
            TextFault::NumberTooLarge(27),
        ),
        in_chart(
            "step 0 initial\nhold 1 Q0\nstep 0",
            ChartFault::UndeclaredStep(20),
        ),
        in_chart(
            "step 0 initial\nstep 0\nhold 1 Q0",
            ChartFault::DeclaredTwice(20),
        ),
        // 8 and 9 at one entry: the first entry has 8 already
        in_chart(
            "step 0 initial\ntrans 0 from 7,7 to 0 when 1",
            ChartFault::UndeclaredStep(28),
        ),
        in_chart("step 0\nhold 0 Q0\nhold 0 Q0", ChartFault::HeldTwice(24)),
    ];
    judge_texts(&rt, rt.alloc(), &cases)
}

#[test]
fn texts_at_the_limit(rt: HostRuntime) -> Result<(), Fail> {
    let mut compiler = Compiler::new(rt.alloc())?;
    let longest = repeated(rt.alloc(), "step 0 initial", 32754, " ")?;
    assert_eq!(rt; longest.len(), 32768);
    assert_eq!(rt; fault_of(&mut compiler, &longest), None);
    let longer = repeated(rt.alloc(), "step 0 initial", 32755, " ")?;
    let fault = CodeFault::Chart(ChartFault::Text(TextFault::TooLong));
    assert_eq!(rt; fault_of(&mut compiler, &longer), Some(fault));
    let lines = repeated(rt.alloc(), "step 0 initial", 32754, "\n")?;
    assert_eq!(rt; fault_of(&mut compiler, &lines), None);
    Ok(())
}

#[test]
fn words_of_a_text_at_the_limit(rt: HostRuntime) -> Result<(), Fail> {
    let mut compiler = Compiler::new(rt.alloc())?;
    let most = "step 0 initial\ntrans 0 from 0 to 0 when !(1)";
    let text = repeated(rt.alloc(), most, 1362, "+1")?;
    assert_eq!(rt; fault_of(&mut compiler, &text), None);
    let more = "step 0 initial\nhold 0 Q0\ntrans 0 from 0 to 0 when 1";
    let text = repeated(rt.alloc(), more, 1362, "+1")?;
    let length = text.len();
    assert_eq!(rt;
        fault_of(&mut compiler, &text),
        Some(CodeFault::TooManyWords(length))
    );
    let most_in_all = repeated(rt.alloc(), more, 16000, "+1")?;
    let length = most_in_all.len();
    assert_eq!(rt;
        fault_of(&mut compiler, &most_in_all),
        Some(CodeFault::TooManyWords(length))
    );
    Ok(())
}

#[test]
fn buffers(rt: HostRuntime) -> Result<(), Fail> {
    let mut compiler = Compiler::new(rt.alloc())?;
    let mut short = [7u8; 135];
    let short_by_one = Err(CodeFault::BufferTooShort(136));
    assert_eq!(rt;
        compiler.compile(TWO_STEPS.as_bytes(), &mut short),
        short_by_one
    );
    assert!(rt; short == [7u8; 135]);
    let mut exact = [7u8; 136];
    assert_eq!(rt; compiler.compile(TWO_STEPS.as_bytes(), &mut exact), Ok(136));
    assert_eq!(rt; exact[0], b'S');
    assert_eq!(rt; exact[135], 0x0c);
    let mut longer = [7u8; 140];
    assert_eq!(rt;
        compiler.compile(TWO_STEPS.as_bytes(), &mut longer),
        Ok(136)
    );
    assert_eq!(rt; longer[135], 0x0c);
    assert_eq!(rt; longer[136], 7);
    assert_eq!(rt; longer[139], 7);
    Ok(())
}

#[test]
fn of_the_last_tests_the_first(rt: HostRuntime) -> Result<(), Fail> {
    let mut compiler = Compiler::new(rt.alloc())?;
    let mut none = [0u8; 0];
    // too many words, no room for them, and in the first text no initial step
    let idle = "step 0\nhold 0 Q0\ntrans 0 from 0 to 0 when 1";
    let text = repeated(rt.alloc(), idle, 1362, "+1")?;
    let fault = CodeFault::Chart(ChartFault::NoInitialStep(text.len()));
    assert_eq!(rt; compiler.compile(&text, &mut none), Err(fault));
    let long = "step 0 initial\nhold 0 Q0\ntrans 0 from 0 to 0 when 1";
    let text = repeated(rt.alloc(), long, 1362, "+1")?;
    let fault = CodeFault::TooManyWords(text.len());
    assert_eq!(rt; compiler.compile(&text, &mut none), Err(fault));
    // the shortest file has 44 bytes
    let fault = CodeFault::BufferTooShort(44);
    assert_eq!(rt; compiler.compile(b"step 0 initial", &mut none), Err(fault));
    let mut exact = [7u8; 44];
    assert_eq!(rt; compiler.compile(b"step 0 initial", &mut exact), Ok(44));
    // a text that is too long is not looked into
    let text = repeated(rt.alloc(), "step 64", 32762, "?")?;
    let fault = CodeFault::Chart(ChartFault::Text(TextFault::TooLong));
    assert_eq!(rt; compiler.compile(&text, &mut none), Err(fault));
    Ok(())
}
