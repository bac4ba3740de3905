//! Single bits of a frame, by their numbers. A number above 63 has no bit.
ghost use Rattle.std.specs.Prelude.{◌≡◌, ◌%◌, ◌==◌};
ghost use Rattle.frames.specs.Bits.{bit, on};
ghost use Rattle.frames.specs.Bits.{mask as masked};

// The frame with this bit alone.
fn mask(number: u8) -> u64
    ensures { result ≡ masked number }
{
    if number < 64 { 1 << number } else { 0 }
}

fn is_odd(frame: u64) -> bool
    ensures { result ≡ (frame % 2 == 1) }
{
    frame % 2 == 1
}

/// Whether the bit is on.
#[tactic(auto, using(crate::proofs::BitLaws::frame_bit_above))]
pub fn is_on(frame: u64, number: u8) -> bool
    ensures { result ≡ bit number frame }
{
    if number < 64 {
        is_odd(frame >> number)
    } else {
        false
    }
}

/// The frame with the bit on.
#[tactic(auto, using(crate::proofs::BitLaws::or_mask))]
pub fn with_on(frame: u64, number: u8) -> u64
    ensures { result ≡ on frame number }
{
    frame | mask(number)
}
