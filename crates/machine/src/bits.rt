//! Single bits of a frame, by their numbers below 64: a lawful word has no other.
ghost use Rattle.std.specs.Prelude.{◌≡◌, ◌<◌};
ghost use Rattle.frames.specs.Bits.{bit, on, off};

// Whether the bit is on.
#[tactic(auto, unfolding(frames::specs::Bits::bit))]
pub(crate) fn has(frame: u64, number: u8) -> bool
    requires { number < 64 }
    ensures { result ≡ bit number frame }
{
    (frame >> number) % 2 == 1
}

// The frame with the bit on.
#[tactic(auto, using(frames::proofs::BitLaws::shifted, frames::proofs::BitLaws::or_mask))]
pub(crate) fn with(frame: u64, number: u8) -> u64
    requires { number < 64 }
    ensures { result ≡ on frame number }
{
    frame | (1 << number)
}

// The frame with the bit off.
#[tactic(auto, using(frames::proofs::BitLaws::shifted, frames::proofs::BitLaws::and_mask))]
pub(crate) fn without(frame: u64, number: u8) -> u64
    requires { number < 64 }
    ensures { result ≡ off frame number }
{
    frame & !(1 << number)
}
