//! An operator panel: an image whose inputs are set by hand.
ghost use Rattle.std.specs.Prelude.{◌≡◌};
ghost use Rattle.image.specs.Meaning.{Meaning, Touch, sampling, delivering, advancing, sampled, delivered, showing};
ghost use Rattle.callers.specs.Panels.{Board, dark, set_to, shown, lit};

use faults::ImageFault;
use image::Image;
use std::marker::Model;

/// A panel with a switch for each input and a lamp for each output.
#[derive(Drop)]
pub struct Panel {
    switches: u64,
    lamps: u64,
}

impl Model for Panel {
    ghost Value = { Board };

    ghost view = { λ p. record { switches = p.switches; lamps = p.lamps } };
}

impl Panel {
    /// With every switch and every lamp off.
    pub fn new() -> Panel
        ensures { result ≡ dark }
    {
        Panel {
            switches: 0,
            lamps: 0,
        }
    }

    /// Sets each switch as the frame says.
    pub fn set_switches(&mut self, frame: u64)
        ensures { self.new ≡ set_to frame self.old }
    {
        self.switches = frame;
    }

    /// The lamps that are on.
    pub fn lamps(&self) -> u64
        ensures { result ≡ self.now.lamps }
    {
        self.lamps
    }
}

impl Image for Panel {
    ghost meaning = { shown };

    ghost becomes = { λ p touch q. q ≡ lit touch p };

    fn sample(&mut self) -> Result<u64, ImageFault> {
        Ok(self.switches)
    }

    fn deliver(&mut self, frame: u64) -> Result<(), ImageFault> {
        self.lamps = frame;
        Ok(())
    }

    fn advance(&mut self) {}
}
