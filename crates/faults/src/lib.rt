//! Faults: the reasons for which an input or a call is refused.
//!
//! Each layer has an enum of its own causes. A layer's fault holds the fault of the layer below, and `?` carries it up
//! by `From`. `Fault` is what a caller meets at the top: its layer, number and place are those of the cause.
#![tactic(auto)]

ghost use Rattle.std.specs.Prelude.{◌≡◌};
ghost use Rattle.faults.specs.declared.ChartFault.TheVariants.{Text as OfText};
ghost use Rattle.faults.specs.declared.CodeFault.TheVariants.{Chart as OfChart};
ghost use Rattle.faults.specs.declared.Fault.TheVariants.{Code as OfCode, File as OfFile, Trace as OfTrace};
ghost use Rattle.faults.specs.declared.Fault.TheVariants.{Controller as OfController, Image as OfImage};

mod numbers;
pub mod show;

/// The stage that finds a fault.
#[derive(Clone, Copy, PartialEq, Eq, Debug)]
pub enum Layer {
    Text,
    Chart,
    Code,
    File,
    Trace,
    Controller,
    Image,
}

/// A chart text is refused. Places count its bytes from 0.
#[derive(Clone, Copy, PartialEq, Eq, Debug)]
pub enum TextFault {
    /// 1: the text is longer than 32,768 bytes.
    TooLong,
    /// 2: these bytes are the start of no token.
    NoToken(usize),
    /// 3: five digits or more in a row.
    TooManyDigits(usize),
    /// 4: the grammar has no line with this token, or this end, here.
    Unexpected(usize),
    /// 5: an opening bracket inside seven others.
    EighthBracket(usize),
    /// 6: a number that exceeds 63.
    NumberTooLarge(usize),
}

/// The text is read, but it describes no chart.
#[derive(Clone, Copy, PartialEq, Eq, Debug)]
pub enum ChartFault {
    Text(TextFault),
    /// 7: a second declaration of a step or of a transition.
    DeclaredTwice(usize),
    /// 8: a reference to a step that is declared nowhere.
    UndeclaredStep(usize),
    /// 9: a repetition in a list of steps.
    ListedTwice(usize),
    /// 10: a second hold of one output by one step.
    HeldTwice(usize),
    /// 11: none of the steps is initial; placed at the length of the text.
    NoInitialStep(usize),
}

/// The chart is sound, but its code file cannot be written.
#[derive(Clone, Copy, PartialEq, Eq, Debug)]
pub enum CodeFault {
    Chart(ChartFault),
    /// 12: the code exceeds 4,096 words; placed at the length of the text.
    TooManyWords(usize),
    /// 13: the output buffer is too small; placed at the length of the file.
    BufferTooShort(usize),
}

/// The sections of a code file, in the order of its directory.
#[derive(Clone, Copy, PartialEq, Eq, Debug)]
pub enum Section {
    Initial,
    Clear,
    Enter,
    Hold,
}

/// A code file is refused. Places count its bytes from 0.
#[derive(Clone, Copy, PartialEq, Eq, Debug)]
pub enum FileFault {
    /// 14: the file is smaller than a head of 36 bytes.
    TooShort,
    /// 15: the file does not begin with the mark.
    NoMark,
    /// 16: the directory has a wrong entry for this section.
    BadPair(Section),
    /// 17: the three parts exceed 4,096 words in all.
    TooManyWords,
    /// 18: a word that its part does not admit.
    UnlawfulWord(usize),
    /// 19: a closing bracket without its opening one, an eighteenth inside 17, or one that its part never closes.
    Unbalanced(usize),
}

/// 20: the trace exceeds 65,536 bytes, or its last frame is incomplete.
#[derive(Clone, Copy, PartialEq, Eq, Debug)]
pub enum TraceFault {
    BadLength,
}

/// The controller's phase does not allow the call.
#[derive(Clone, Copy, PartialEq, Eq, Debug)]
pub enum ControllerFault {
    /// 21: the call has to wait for the end of a scan.
    ScanOpen,
    /// 22: after a halt nothing is sampled.
    Halted,
    /// 23: a work in a phase other than sampled; a deliver or an abandon in one other than worked.
    WrongPhase,
}

/// 24: a sample or a delivery while the image is not live.
#[derive(Clone, Copy, PartialEq, Eq, Debug)]
pub enum ImageFault {
    NotLive,
}

/// Any fault, as it reaches a caller of the whole product.
#[derive(Clone, Copy, PartialEq, Eq, Debug)]
pub enum Fault {
    Code(CodeFault),
    File(FileFault),
    Trace(TraceFault),
    Controller(ControllerFault),
    Image(ImageFault),
}

// The `From` impls are written out: clauses name what each of them gives, and a derive states none of it.
impl From<TextFault> for ChartFault {
    ghost from_gives = { λ e r. r ≡ OfText e };

    fn from(e: TextFault) -> ChartFault {
        ChartFault::Text(e)
    }
}

impl From<ChartFault> for CodeFault {
    ghost from_gives = { λ e r. r ≡ OfChart e };

    fn from(e: ChartFault) -> CodeFault {
        CodeFault::Chart(e)
    }
}

impl From<CodeFault> for Fault {
    ghost from_gives = { λ e r. r ≡ OfCode e };

    fn from(e: CodeFault) -> Fault {
        Fault::Code(e)
    }
}

impl From<FileFault> for Fault {
    ghost from_gives = { λ e r. r ≡ OfFile e };

    fn from(e: FileFault) -> Fault {
        Fault::File(e)
    }
}

impl From<TraceFault> for Fault {
    ghost from_gives = { λ e r. r ≡ OfTrace e };

    fn from(e: TraceFault) -> Fault {
        Fault::Trace(e)
    }
}

impl From<ControllerFault> for Fault {
    ghost from_gives = { λ e r. r ≡ OfController e };

    fn from(e: ControllerFault) -> Fault {
        Fault::Controller(e)
    }
}

impl From<ImageFault> for Fault {
    ghost from_gives = { λ e r. r ≡ OfImage e };

    fn from(e: ImageFault) -> Fault {
        Fault::Image(e)
    }
}
