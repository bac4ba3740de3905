//! Faults as text, see docs/program.md.
ghost use Rattle.std.specs.Prelude.{◌≡◌, Some};
ghost use Rattle.faults.specs.Shown.{layer_name, fault_text};

use crate::{Fault, Layer};
use std::fmt;

impl Layer {
    /// The layer's name.
    pub fn name(self) -> &'static str
        ensures { result.now ≡ layer_name self }
    {
        match self {
            Layer::Text => "text",
            Layer::Chart => "chart",
            Layer::Code => "code",
            Layer::File => "file",
            Layer::Trace => "trace",
            Layer::Controller => "controller",
            Layer::Image => "image",
        }
    }
}

impl fmt::Display for Layer {
    ghost output = { λ x. Some (layer_name x) };

    fn fmt<W: fmt::Write>(&self, f: &mut fmt::Formatter<W>) -> fmt::Result {
        f.pad(self.name())
    }
}

/// The layer, the number and the place.
impl fmt::Display for Fault {
    ghost output = { λ x. Some (fault_text x) };

    fn fmt<W: fmt::Write>(&self, f: &mut fmt::Formatter<W>) -> fmt::Result {
        let layer = self.layer();
        let number = self.number();
        let place = self.place();
        write!(f, "{layer} {number} {place}")
    }
}
