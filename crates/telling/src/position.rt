//! Lines and columns of a text.
ghost use Rattle.std.specs.Prelude.{◌≡◌, ◌+◌, ◌^◌, ◌<◌, ◌==◌, if◌then◌else◌};
ghost use Rattle.telling.specs.Positions.{position_at};

/// A line and a column, both from 1 on; columns are bytes.
#[derive(Clone, Copy, PartialEq, Eq, Debug)]
pub struct Position {
    pub line: usize,
    pub column: usize,
}

impl Position {
    // The position behind a byte.
    fn after(self, byte: u8) -> Position
        requires line { self.line + 1 < 2 ^ 64 }
        requires column { self.column + 1 < 2 ^ 64 }
        ensures line { result.line ≡ (if byte == 10 then self.line + 1 else self.line) }
        ensures column { result.column ≡ (if byte == 10 then 1 else self.column + 1) }
    {
        if byte == b'\n' {
            Position {
                line: self.line + 1,
                column: 1,
            }
        } else {
            Position {
                line: self.line,
                column: self.column + 1,
            }
        }
    }
}

/// The position of the byte at a place, or of the text's end.
pub fn position_at(text: &[u8], place: usize) -> Position
    ensures { result ≡ position_at text.now place }
{
    let start = Position { line: 1, column: 1 };
    text.iter()
        .take(place)
        .fold(start, |position, byte| position.after(*byte))
}
