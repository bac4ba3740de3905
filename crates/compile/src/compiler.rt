//! The compiler: its parts, and the reading of a text.
ghost use Rattle.std.specs.Prelude.{◌≡◌, IfOk};
ghost use Rattle.text.specs.Lex.{tokens_of, list_in};
ghost use Rattle.translation.specs.Drafts.{Translated};
ghost use Rattle.compile.specs.Compiled.{lines_of, chart_of_text};
ghost use Rattle.compile.specs.Steps.{Charted, Fresh};

use chart::checker::Checker;
use conditions::rest::Rest;
use faults::{ChartFault, TextFault};
use std::alloc::{AllocError, Global};
use text::tokens::Tokens;
use translation::draft::Draft;
use words::list::WordList;

/// Compiles chart texts. All its room is reserved when it is made; what one text leaves in it does not matter to the
/// next.
#[derive(Drop)]
pub struct Compiler {
    tokens: Tokens,
    pub(crate) draft: Draft,
    checker: Checker,
    scratch: WordList,
}

impl Compiler {
    /// A compiler with room for any text.
    pub fn new(heap: Global) -> Result<Compiler, AllocError>
        ensures { IfOk result (λ c. Fresh c) }
    {
        let tokens = Tokens::new(heap)?;
        let draft = Draft::new(heap)?;
        let checker = Checker::new(heap)?;
        let scratch = WordList::new(heap)?;
        Ok(Compiler {
            tokens,
            draft,
            checker,
            scratch,
        })
    }

    // Reads the lines of a text into the draft, or names the first fault of the text.
    fn read(&mut self, text: &[u8]) -> Result<(), TextFault>
        ensures tokens { list_in self.new.tokens ≡ (tokens_of text.now).tokens }
        ensures lines { Translated (lines_of text.now) self.new.draft result }
    {
        let cut = self.tokens.cut(text);
        let tokens = self.tokens.list();
        let Err(stop) = cut else {
            let end = text.len();
            return self.draft.translate(Rest { tokens, end });
        };
        let end = stop.place();
        match self.draft.translate(Rest { tokens, end }) {
            Err(fault) if fault.place() < end => Err(fault),
            _ => Err(stop),
        }
    }

    // Reads a text and checks its chart, or names the first fault.
    pub(crate) fn check(&mut self, text: &[u8]) -> Result<(), ChartFault>
        ensures { Charted (chart_of_text text.now) self.new.draft result }
    {
        self.read(text)?;
        let rest = Rest {
            tokens: self.tokens.list(),
            end: text.len(),
        };
        self.checker.check(rest, &mut self.scratch)
    }
}
