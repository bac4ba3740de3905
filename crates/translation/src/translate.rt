//! A draft of the lines of a text.
ghost use Rattle.std.specs.Prelude.{◌≡◌, List, IfOk, Ok};
ghost use Rattle.lines.specs.Grammar.{Tree, step as stepLine};
ghost use Rattle.lines.specs.Parts.{Shows, numbers_in};
ghost use Rattle.lines.specs.Next.{lines_left};
ghost use Rattle.translation.specs.Soundness.{SoundParts};
ghost use Rattle.translation.specs.Drafts.{sketch_of, blank, started, with_switches, noted, closed, Reads};
ghost use Rattle.translation.specs.Drafts.{Translated};

use crate::draft::Draft;
use crate::emit::{emit_all, emit_switches, entering, holding};
use conditions::rest::Rest;
use faults::TextFault;
use frames::bits::with_on;
use lines::line::next_line;
use lines::shape::{Action, Line, Number};
use std::alloc::{AllocError, Global};
use text::token::Token;
use words::list::WordList;

// The frame of the initial steps, with this step if it is initial.
fn starting(frame: u64, step: Number, initial: bool) -> u64
    ensures { result ≡ started frame (stepLine step initial) }
{
    if initial {
        with_on(frame, step.value)
    } else {
        frame
    }
}

impl Draft {
    /// A draft of no lines, with room for those of any text.
    pub fn new(heap: Global) -> Result<Draft, AllocError>
        ensures { IfOk result (λ d. sketch_of d ≡ blank) }
    {
        let clear = WordList::new(heap)?;
        let resets = WordList::new(heap)?;
        let sets = WordList::new(heap)?;
        let enter = WordList::new(heap)?;
        let hold = WordList::new(heap)?;
        let initial = 0;
        Ok(Draft {
            initial,
            clear,
            resets,
            sets,
            enter,
            hold,
        })
    }

    // Empties the draft.
    fn erase(&mut self)
        ensures { sketch_of self.new ≡ blank }
    {
        self.initial = 0;
        self.clear.clear();
        self.resets.clear();
        self.sets.clear();
        self.enter.clear();
        self.hold.clear();
    }

    // Takes what a cleared transition does to its steps.
    fn note_switches(&mut self, transition: u8, from: &[Token], to: &[Token])
        ensures { sketch_of self.new
            ≡ with_switches (sketch_of self.old) transition (numbers_in from.now) (numbers_in to.now) }
    {
        emit_switches(Action::Reset, transition, from, &mut self.resets);
        emit_switches(Action::Set, transition, to, &mut self.sets);
    }

    // Takes a line, but for the words that test its transition.
    fn note(&mut self, line: Line<'_>)
        ensures { (tree : Tree) → Shows line.entry tree → sketch_of self.new ≡ noted (sketch_of self.old) tree }
    {
        match line {
            Line::Empty => {}
            Line::Step { step, initial } => {
                self.initial = starting(self.initial, step, initial);
            }
            Line::Trans(t) => {
                self.note_switches(t.number.value, t.from, t.to);
            }
            Line::Hold { step, output } => {
                emit_all(&holding(step.value, output.value), &mut self.hold);
            }
            Line::Enter {
                step,
                action,
                output,
            } => {
                emit_all(&entering(step.value, action, output.value), &mut self.enter);
            }
        }
    }

    // Takes the lines of a text, with the words that test their transitions.
    fn read(&mut self, text: Rest<'_>) -> Result<(), TextFault>
        ensures { Reads (lines_left text.entry) (sketch_of self.old) (sketch_of self.new) result }
    {
        let mut rest = text;
        while let Some((line, behind)) = next_line(rest, &mut self.clear)? {
            self.note(line);
            rest = behind;
        }
        Ok(())
    }

    // Puts the resets and then the sets behind the tests.
    fn close(&mut self)
        ensures { sketch_of self.new ≡ closed (sketch_of self.old) }
    {
        self.clear.append(&self.resets);
        self.clear.append(&self.sets);
    }

    /// Drafts the parts of a text, or names its first fault; then what the draft holds is open.
    pub fn translate(&mut self, text: Rest<'_>) -> Result<(), TextFault>
        ensures drafted { Translated (lines_left text.entry) self.new result }
        ensures sound { (lines : List Tree) → lines_left text.entry ≡ Ok lines → SoundParts lines }
    {
        self.erase();
        self.read(text)?;
        self.close();
        Ok(())
    }
}
