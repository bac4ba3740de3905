//! Texts with a call on each line.
ghost use Rattle.std.specs.Prelude.{◌≡◌, map, IfOk, IfErr};
ghost use Rattle.std.specs.List.{before_first, after_first};
ghost use Rattle.running.specs.declared.call_list.ListError.TheVariants.{OutOfMemory as NoMemory};
ghost use Rattle.plain.specs.Shown.{call_word};
ghost use Rattle.running.specs.CallLists.{is_line_end, lines_of};
ghost use Rattle.running.specs.ListErrors.{TellsWhy};

use plain::calls::Call;
use std::alloc::{AllocFailed, Global};

/// Why a text is no list of calls.
#[derive(Clone, Copy, PartialEq, Eq, Debug)]
pub enum ListError {
    /// The line with this number, from 1 on, is no call's word.
    NoCall(usize),
    OutOfMemory,
}

impl<T: Drop> From<AllocFailed<T>> for ListError {
    ghost from_gives = { λ _ e. e ≡ NoMemory };

    fn from(_e: AllocFailed<T>) -> ListError {
        ListError::OutOfMemory
    }
}

// The first line, without its line end, and what stands behind it.
fn cut_line(text: &[u8]) -> (&[u8], &[u8])
    ensures line { result.0.now ≡ before_first is_line_end text.now }
    ensures behind { result.1.now ≡ after_first is_line_end text.now }
{
    match text.iter().position(|byte| *byte == b'\n') {
        Some(end) => (&text[..end], &text[end + 1..]),
        None => (text, &[]),
    }
}

/// The calls of a text, one on each line. The last line may lack its line end.
#[tactic(auto, using(crate::proofs::Cutting::one_more, crate::proofs::Cutting::no_call_at))]
pub fn read_calls(heap: Global, text: &[u8]) -> Result<Vec<Call>, ListError>
    ensures calls { IfOk result (λ calls. map call_word calls.items ≡ lines_of text.now) }
    ensures error { IfErr result (TellsWhy (lines_of text.now)) }
{
    let mut calls = Vec::new(heap);
    let mut rest = text;
    while !rest.is_empty() {
        let (line, behind) = cut_line(rest);
        let Some(call) = Call::named(line) else {
            return Err(ListError::NoCall(calls.len() + 1));
        };
        calls.push(call)?;
        rest = behind;
    }
    Ok(calls)
}
