//! The line that a `println` prints.
ghost use Rattle.std.specs.Prelude.{◌≡◌, ◌≢◌, IfOk, IsOk, length};
ghost use Rattle.gr_code.specs.CodeViews.{pieces_of};
ghost use Rattle.gr_rules.specs.Outcomes.{gives, wrong};
ghost use Rattle.gr_rules.specs.Deeds.{texts};
ghost use Rattle.gr_eval.specs.Lines.{line_of};

use gr_base::{NoMemory, Value, print_value};
use gr_code::code::Piece;
use std::alloc::Global;

/// The texts of the pieces, each value in its place, with one space between them. Errors: out of memory, where there are pieces.
pub fn printed_line(alloc: Global, pieces: &[Piece], values: &[Value]) -> Result<Vec<u8>, NoMemory>
    requires { texts (pieces_of pieces.now) values.now ≢ wrong }
    ensures line { IfOk result (λ line. line_of (pieces_of pieces.now) values.now ≡ gives line.items) }
    ensures none { length pieces.now ≡ 0 → IsOk result }
{
    let mut text = Vec::new(alloc);
    let mut between: &[u8] = b"";
    let mut number = 0;
    for piece in pieces {
        text.extend_from_slice(between)?;
        match piece {
            Piece::Text(bytes) => text.extend_from_slice(bytes)?,
            Piece::Value => {
                print_value(&mut text, &values[number])?;
                number += 1;
            }
        }
        between = b" ";
    }
    Ok(text)
}
