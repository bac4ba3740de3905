//! Process images: what a controller reads its inputs from and writes its outputs to. See docs/images.md.
#![tactic(auto)]

ghost use Rattle.std.specs.Prelude.{◌≡◌};
ghost use Rattle.image.specs.Meaning.{Meaning, Touch, sampling, delivering, advancing, sampled, delivered, showing};

pub mod carriage;
pub mod frame_list;

use faults::ImageFault;

/// What a controller works with. Its meaning at a moment: whether it is live, its inputs and its outputs.
pub trait Image {
    ghost meaning: { Self → Meaning };

    // An image's own rule: what may become of it by a touch. One that states none is open here.
    ghost becomes: { Self → Touch → Self → Type 0 } = { λ _ _ _. Unit {0} };

    /// The inputs, or the refusal of an image that is not live.
    fn sample(&mut self) -> Result<u64, ImageFault>
        ensures answer { result ≡ sampled (meaning self.old) }
        ensures kept { meaning self.new ≡ meaning self.old }
        ensures rule { becomes self.old sampling self.new };

    /// The frame is the outputs from now on, if the image is live.
    fn deliver(&mut self, frame: u64) -> Result<(), ImageFault>
        ensures answer { result ≡ delivered (meaning self.old) }
        ensures shown { meaning self.new ≡ showing frame (meaning self.old) }
        ensures rule { becomes self.old (delivering frame) self.new };

    /// Lets time pass. It may bring any inputs, and may end or begin that the image is live.
    fn advance(&mut self)
        ensures kept { (meaning self.new).outputs ≡ (meaning self.old).outputs }
        ensures rule { becomes self.old advancing self.new };
}
