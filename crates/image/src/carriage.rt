//! A simulated carriage on a track: Q0 moves it up, Q1 down, and I0 and I1 tell the ends.
ghost use Rattle.std.specs.Prelude.{◌≡◌, ◌≤◌, ℕ, ◌-◌};
ghost use Rattle.image.specs.Meaning.{Meaning, Touch, sampling, delivering, advancing, sampled, delivered, showing};
ghost use Rattle.image.specs.Track.{Track, sensors, shown, driven, at_start, under};

use crate::Image;
use faults::ImageFault;
use frames::bits::is_on;
use std::marker::Model;

/// A carriage, at one of the positions 0 to 100.
#[derive(Drop)]
pub struct Carriage {
    position: u8,
    outputs: u64,
}

impl Model for Carriage {
    ghost Value = { Track };

    ghost view = { λ c. record { position = c.position; outputs = c.outputs } };

    ghost invariant = { λ c. c.position ≤ 100 };
}

impl Carriage {
    /// At position 0, with every output off. Q0 takes it to the other end in a hundred advances, and Q1 back.
    #[tactic(auto, using(crate::proofs::Moving::up, crate::proofs::Moving::down))]
    pub fn new() -> Carriage
        ensures answer { result ≡ at_start }
        ensures up { (n : ℕ) → n ≤ 100 → (under 1 n result).position ≡ n }
        ensures down { (n : ℕ) → n ≤ 100 → (under 2 n (under 1 100 result)).position ≡ 100 - n }
    {
        Carriage {
            position: 0,
            outputs: 0,
        }
    }

    /// Where it is.
    pub fn position(&self) -> u8
        ensures value { result ≡ self.now.position }
        ensures within { result ≤ 100 }
    {
        self.position
    }

    /// The outputs that were delivered to it last.
    pub fn outputs(&self) -> u64
        ensures { result ≡ self.now.outputs }
    {
        self.outputs
    }
}

impl Image for Carriage {
    ghost meaning = { shown };

    ghost becomes = { λ s touch t. t ≡ driven touch s };

    fn sample(&mut self) -> Result<u64, ImageFault> {
        match self.position {
            0 => Ok(1),
            100 => Ok(2),
            _ => Ok(0),
        }
    }

    fn deliver(&mut self, frame: u64) -> Result<(), ImageFault> {
        self.outputs = frame;
        Ok(())
    }

    fn advance(&mut self) {
        match (is_on(self.outputs, 0), is_on(self.outputs, 1)) {
            (true, false) if self.position < 100 => self.position += 1,
            (false, true) if self.position > 0 => self.position -= 1,
            _ => {}
        }
    }
}
