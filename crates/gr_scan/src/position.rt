//! Lines and columns of a text.
ghost use Rattle.std.specs.Prelude.{◌≡◌, ◌≤◌, length};
ghost use Rattle.gr_scan.specs.Positions.{since_newline, position_of};
ghost use Rattle.gr_scan.specs.Scan as spec;

/// A place in a text. Both numbers count from 1; a column is a number of bytes.
#[derive(Clone, Copy, Debug, PartialEq, Eq)]
pub struct Position {
    pub line: usize,
    pub column: usize,
}

/// How many newlines a text has.
pub fn newlines(bytes: &[u8]) -> usize
    ensures count { result ≡ spec.newlines bytes.now }
    ensures few { result ≤ length bytes.now }
{
    bytes.iter().filter(|byte| **byte == b'\n').count()
}

/// How many bytes stand after the last newline.
fn since_newline(bytes: &[u8]) -> usize
    ensures count { result ≡ since_newline bytes.now }
    ensures few { result ≤ length bytes.now }
{
    bytes
        .iter()
        .rev()
        .take_while(|byte| **byte != b'\n')
        .count()
}

impl Position {
    /// The position of the byte that has `before` bytes before it; past the end, where the text ends.
    pub fn of(text: &[u8], before: usize) -> Position
        ensures { result ≡ position_of text.now before }
    {
        let (front, _) = text.split_at(before.min(text.len()));
        Position {
            line: 1 + newlines(front),
            column: 1 + since_newline(front),
        }
    }
}
