//! The layer, the number and the place of a fault.
ghost use Rattle.std.specs.Prelude.{◌≡◌};
ghost use Rattle.faults.specs.Numbers.{layer_of, number_of, place_of, chart_layer, chart_number, chart_place};
ghost use Rattle.faults.specs.Numbers.{code_layer, code_number, code_place, text_number, text_place, file_number};
ghost use Rattle.faults.specs.Numbers.{file_place, pair_place, controller_number};

use crate::{ChartFault, CodeFault, ControllerFault, Fault, FileFault, Layer, Section, TextFault};

impl TextFault {
    /// The fault's number, 1 to 6.
    pub fn number(self) -> u8
        ensures { result ≡ text_number self }
    {
        match self {
            TextFault::TooLong => 1,
            TextFault::NoToken(_) => 2,
            TextFault::TooManyDigits(_) => 3,
            TextFault::Unexpected(_) => 4,
            TextFault::EighthBracket(_) => 5,
            TextFault::NumberTooLarge(_) => 6,
        }
    }

    /// The byte at which it stands.
    pub fn place(self) -> usize
        ensures { result ≡ text_place self }
    {
        match self {
            TextFault::TooLong => 32768,
            TextFault::NoToken(place)
            | TextFault::TooManyDigits(place)
            | TextFault::Unexpected(place)
            | TextFault::EighthBracket(place)
            | TextFault::NumberTooLarge(place) => place,
        }
    }
}

impl ChartFault {
    fn layer(self) -> Layer
        ensures { result ≡ chart_layer self }
    {
        match self {
            ChartFault::Text(_) => Layer::Text,
            _ => Layer::Chart,
        }
    }

    /// The fault's number, 1 to 11.
    pub fn number(self) -> u8
        ensures { result ≡ chart_number self }
    {
        match self {
            ChartFault::Text(e) => e.number(),
            ChartFault::DeclaredTwice(_) => 7,
            ChartFault::UndeclaredStep(_) => 8,
            ChartFault::ListedTwice(_) => 9,
            ChartFault::HeldTwice(_) => 10,
            ChartFault::NoInitialStep(_) => 11,
        }
    }

    /// The byte at which it stands.
    pub fn place(self) -> usize
        ensures { result ≡ chart_place self }
    {
        match self {
            ChartFault::Text(e) => e.place(),
            ChartFault::DeclaredTwice(place)
            | ChartFault::UndeclaredStep(place)
            | ChartFault::ListedTwice(place)
            | ChartFault::HeldTwice(place)
            | ChartFault::NoInitialStep(place) => place,
        }
    }
}

impl CodeFault {
    fn layer(self) -> Layer
        ensures { result ≡ code_layer self }
    {
        match self {
            CodeFault::Chart(e) => e.layer(),
            _ => Layer::Code,
        }
    }

    fn number(self) -> u8
        ensures { result ≡ code_number self }
    {
        match self {
            CodeFault::Chart(e) => e.number(),
            CodeFault::TooManyWords(_) => 12,
            CodeFault::BufferTooShort(_) => 13,
        }
    }

    fn place(self) -> usize
        ensures { result ≡ code_place self }
    {
        match self {
            CodeFault::Chart(e) => e.place(),
            CodeFault::TooManyWords(place) | CodeFault::BufferTooShort(place) => place,
        }
    }
}

impl Section {
    // The byte at which the section's pair stands in the directory.
    fn pair_place(self) -> usize
        ensures { result ≡ pair_place self }
    {
        match self {
            Section::Initial => 4,
            Section::Clear => 12,
            Section::Enter => 20,
            Section::Hold => 28,
        }
    }
}

impl FileFault {
    fn number(self) -> u8
        ensures { result ≡ file_number self }
    {
        match self {
            FileFault::TooShort => 14,
            FileFault::NoMark => 15,
            FileFault::BadPair(_) => 16,
            FileFault::TooManyWords => 17,
            FileFault::UnlawfulWord(_) => 18,
            FileFault::Unbalanced(_) => 19,
        }
    }

    fn place(self) -> usize
        ensures { result ≡ file_place self }
    {
        match self {
            FileFault::TooShort | FileFault::NoMark | FileFault::TooManyWords => 0,
            FileFault::BadPair(section) => section.pair_place(),
            FileFault::UnlawfulWord(place) | FileFault::Unbalanced(place) => place,
        }
    }
}

impl ControllerFault {
    fn number(self) -> u8
        ensures { result ≡ controller_number self }
    {
        match self {
            ControllerFault::ScanOpen => 21,
            ControllerFault::Halted => 22,
            ControllerFault::WrongPhase => 23,
        }
    }
}

impl Fault {
    /// The layer in which the fault arose.
    pub fn layer(self) -> Layer
        ensures { result ≡ layer_of self }
    {
        match self {
            Fault::Code(e) => e.layer(),
            Fault::File(_) => Layer::File,
            Fault::Trace(_) => Layer::Trace,
            Fault::Controller(_) => Layer::Controller,
            Fault::Image(_) => Layer::Image,
        }
    }

    /// The fault's number, 1 to 24.
    pub fn number(self) -> u8
        ensures { result ≡ number_of self }
    {
        match self {
            Fault::Code(e) => e.number(),
            Fault::File(e) => e.number(),
            Fault::Trace(_) => 20,
            Fault::Controller(e) => e.number(),
            Fault::Image(_) => 24,
        }
    }

    /// The byte at which it stands, or 0 where it has no place.
    pub fn place(self) -> usize
        ensures { result ≡ place_of self }
    {
        match self {
            Fault::Code(e) => e.place(),
            Fault::File(e) => e.place(),
            Fault::Trace(_) | Fault::Controller(_) | Fault::Image(_) => 0,
        }
    }
}
