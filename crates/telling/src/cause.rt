//! What is wrong, in plain words; `{}` of a fault writes its layer, number and place.
use faults::{ChartFault, CodeFault, ControllerFault, Fault, FileFault, Section, TextFault};

fn text_cause(fault: TextFault) -> &'static str {
    match fault {
        TextFault::TooLong => "the text has more than 32768 bytes",
        TextFault::NoToken(_) => "no token begins here",
        TextFault::TooManyDigits(_) => "the number has more than four digits",
        TextFault::Unexpected(_) => "the line cannot go on like this",
        TextFault::EighthBracket(_) => "more than seven brackets are open",
        TextFault::NumberTooLarge(_) => "the number is above 63",
    }
}

fn chart_cause(fault: ChartFault) -> &'static str {
    match fault {
        ChartFault::Text(e) => text_cause(e),
        ChartFault::DeclaredTwice(_) => "an earlier line declares this number",
        ChartFault::UndeclaredStep(_) => "no line declares this step",
        ChartFault::ListedTwice(_) => "the step stands in this list already",
        ChartFault::HeldTwice(_) => "the step holds this output already",
        ChartFault::NoInitialStep(_) => "no step is initial",
    }
}

fn code_cause(fault: CodeFault) -> &'static str {
    match fault {
        CodeFault::Chart(e) => chart_cause(e),
        CodeFault::TooManyWords(_) => "the chart needs more than 4096 words",
        CodeFault::BufferTooShort(_) => "the code file needs a buffer of this length",
    }
}

// What is wrong with the section's pair.
fn pair_cause(section: Section) -> &'static str {
    match section {
        Section::Initial => "the pair of the initial steps breaks a rule",
        Section::Clear => "the pair of the clear part breaks a rule",
        Section::Enter => "the pair of the enter part breaks a rule",
        Section::Hold => "the pair of the hold part breaks a rule",
    }
}

fn file_cause(fault: FileFault) -> &'static str {
    match fault {
        FileFault::TooShort => "the file has fewer than 36 bytes",
        FileFault::NoMark => "the file does not begin with the mark SRI1",
        FileFault::BadPair(section) => pair_cause(section),
        FileFault::TooManyWords => "the three parts have more than 4096 words",
        FileFault::UnlawfulWord(_) => "the word is not lawful in this part",
        FileFault::Unbalanced(_) => "the brackets do not balance, or more than 17 are open",
    }
}

fn controller_cause(fault: ControllerFault) -> &'static str {
    match fault {
        ControllerFault::ScanOpen => "a scan is open",
        ControllerFault::Halted => "the controller is halted",
        ControllerFault::WrongPhase => "the controller is in another phase",
    }
}

pub fn cause_of(fault: Fault) -> &'static str {
    match fault {
        Fault::Code(e) => code_cause(e),
        Fault::File(e) => file_cause(e),
        Fault::Trace(_) => "the trace is longer than 65536 bytes or has a part of a frame",
        Fault::Controller(e) => controller_cause(e),
        Fault::Image(_) => "the image is not live",
    }
}
