//! An image that plays back a trace.
ghost use Rattle.std.specs.Prelude.{◌≡◌, ◌≤◌, ℕ, map, length, IfOk};
ghost use Rattle.image.specs.Meaning.{Meaning, Touch, sampling, delivering, advancing, sampled, delivered, showing};
ghost use Rattle.image.specs.Playback.{Playback, frame_of, shown, played, advanced, is_trace_length, list_of, shown_from};

use crate::Image;
use faults::{ImageFault, TraceFault};
use std::marker::Model;

/// The frames of a trace, one at a time: each advance goes to the next.
#[derive(Drop)]
pub struct FrameList<'a> {
    frames: &'a [[u8; 8]],
    position: usize,
    outputs: u64,
}

impl<'a> Model for FrameList<'a> {
    ghost Value = { Playback };

    ghost view = { λ l. record { frames = map frame_of l.frames.now; position = l.position; outputs = l.outputs } };

    ghost invariant = { λ l. l.position ≤ length l.frames.now };
}

// Whole frames, and 8,192 of them at most.
fn is_playable(size: usize) -> bool
    ensures { result ≡ is_trace_length size }
{
    size <= 65536 && size % 8 == 0
}

// The frame that eight bytes are, the least significant first.
#[tactic(auto, using(crate::proofs::Playing::frame_sum))]
fn frame_from(bytes: &[u8; 8]) -> u64
    ensures { result ≡ frame_of bytes.now }
{
    u64::from_le_bytes(*bytes)
}

impl<'a> FrameList<'a> {
    /// The list of a trace's frames, each of eight bytes, at the first of them.
    #[tactic(auto, using(crate::proofs::Playing::list_of_chunks, crate::proofs::Playing::chunks_play))]
    pub fn new(trace: &'a [u8]) -> Result<FrameList<'a>, TraceFault>
        ensures answer { result ≡ list_of trace.now }
        ensures plays { IfOk result (λ list. (n : ℕ) → shown (advanced n list) ≡ shown_from n trace.now) }
    {
        if !is_playable(trace.len()) {
            return Err(TraceFault::BadLength);
        }
        let (frames, _) = trace.as_chunks();
        Ok(FrameList {
            frames,
            position: 0,
            outputs: 0,
        })
    }
}

impl<'a> Image for FrameList<'a> {
    ghost meaning = { shown };

    ghost becomes = { λ s touch t. t ≡ played touch s };

    #[tactic(auto, using(crate::proofs::Playing::frame_read))]
    fn sample(&mut self) -> Result<u64, ImageFault> {
        let frame = self.frames.get(self.position).ok_or(ImageFault::NotLive)?;
        Ok(frame_from(frame))
    }

    fn deliver(&mut self, frame: u64) -> Result<(), ImageFault> {
        if self.position == self.frames.len() {
            return Err(ImageFault::NotLive);
        }
        self.outputs = frame;
        Ok(())
    }

    fn advance(&mut self) {
        if self.position < self.frames.len() {
            self.position += 1;
        }
    }
}
