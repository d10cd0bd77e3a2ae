//! Pieces of replies. Each is appended to a text. Where there is no room for it, the text may end in a beginning of it.

ghost use Rattle.std.specs.Prelude.{◌≡◌, ◌++◌, ◌≤◌, decimal, vec_capacity};
ghost use Rattle.gr_command.specs.Room.{Puts};
ghost use Rattle.gr_command.specs.Texts.{rows, each_spaced};

use gr_base::NoMemory;
use itoa::Buffer;

/// What has a text in replies.
pub(crate) trait Written {
    ghost use Rattle.std.specs.Prelude.{List, ℕ};

    ghost text_of: { Self → List ℕ };

    /// Appends the text.
    fn put_into(&self, text: &mut Vec<u8>) -> Result<(), NoMemory>
        ensures { Puts result text.old text.new (text_of self.now) };
}

/// Appends the bytes.
pub(crate) fn put(text: &mut Vec<u8>, piece: &[u8]) -> Result<(), NoMemory>
    ensures { Puts result text.old text.new piece.now }
{
    Ok(text.extend_from_slice(piece)?)
}

/// Makes room for this many bytes, where it can be had.
pub(crate) fn make_room(text: &mut Vec<u8>, bytes: usize)
    ensures items { text.new.items ≡ text.old.items }
    ensures capacity { vec_capacity text.old ≤ vec_capacity text.new }
{
    let _ = text.reserve(bytes);
}

/// Appends the number in decimal.
fn put_number(text: &mut Vec<u8>, n: u64) -> Result<(), NoMemory>
    ensures { Puts result text.old text.new (decimal n) }
{
    let mut buffer = Buffer::new();
    put(text, buffer.format(n).as_bytes())
}

/// Appends two pieces.
pub(crate) fn put_two<A: Written, B: Written>(
    text: &mut Vec<u8>,
    first: &A,
    second: &B,
) -> Result<(), NoMemory>
    ensures { Puts result text.old text.new (A.text_of first.now ++ B.text_of second.now) }
{
    first.put_into(text)?;
    second.put_into(text)
}

/// Appends three pieces.
pub(crate) fn put_three<A: Written, B: Written, C: Written>(
    text: &mut Vec<u8>,
    first: &A,
    second: &B,
    third: &C,
) -> Result<(), NoMemory>
    ensures { Puts result text.old text.new (A.text_of first.now ++ (B.text_of second.now ++ C.text_of third.now)) }
{
    first.put_into(text)?;
    put_two(text, second, third)
}

/// Appends each of these after a space.
fn put_spaced<W: Written>(text: &mut Vec<u8>, items: &[W]) -> Result<(), NoMemory>
    ensures { Puts result text.old text.new (each_spaced W.text_of items.now) }
{
    for item in items {
        put_two(text, b" ", item)?;
    }
    Ok(())
}

/// Appends each of these as a row.
fn put_rows<W: Written>(text: &mut Vec<u8>, items: &[W]) -> Result<(), NoMemory>
    ensures { Puts result text.old text.new (rows W.text_of items.now) }
{
    for item in items {
        put_three(text, b"| ", item, b"\n")?;
    }
    Ok(())
}

impl<const N: usize> Written for [u8; N] {
    ghost text_of = { λ bytes. bytes };

    fn put_into(&self, text: &mut Vec<u8>) -> Result<(), NoMemory> {
        put(text, self)
    }
}

impl Written for &[u8] {
    ghost text_of = { λ bytes. bytes.now };

    fn put_into(&self, text: &mut Vec<u8>) -> Result<(), NoMemory> {
        put(text, self)
    }
}

impl Written for Vec<u8> {
    ghost text_of = { λ bytes. bytes.items };

    fn put_into(&self, text: &mut Vec<u8>) -> Result<(), NoMemory> {
        put(text, self.as_slice())
    }
}

impl Written for u32 {
    ghost text_of = { decimal };

    fn put_into(&self, text: &mut Vec<u8>) -> Result<(), NoMemory> {
        put_number(text, u64::from(*self))
    }
}

impl Written for u64 {
    ghost text_of = { decimal };

    fn put_into(&self, text: &mut Vec<u8>) -> Result<(), NoMemory> {
        put_number(text, *self)
    }
}

/// Items, each after a space.
#[derive(Drop)]
pub(crate) struct EachSpaced<'a, W>(pub(crate) &'a [W]);

impl<W: Written> Written for EachSpaced<'_, W> {
    ghost text_of = { λ each. each_spaced W.text_of each.0.now };

    fn put_into(&self, text: &mut Vec<u8>) -> Result<(), NoMemory> {
        put_spaced(text, self.0)
    }
}

/// A line as a row.
#[derive(Drop)]
pub(crate) struct RowOf<'a, W>(pub(crate) &'a W);

impl<W: Written> Written for RowOf<'_, W> {
    ghost use Rattle.gr_command.specs.Texts.{row};

    ghost text_of = { λ line. row (W.text_of line.0.now) };

    fn put_into(&self, text: &mut Vec<u8>) -> Result<(), NoMemory> {
        put_three(text, b"| ", self.0, b"\n")
    }
}

/// Lines, each as a row.
#[derive(Drop)]
pub(crate) struct RowsOf<'a, W>(pub(crate) &'a [W]);

impl<W: Written> Written for RowsOf<'_, W> {
    ghost text_of = { λ lines. rows W.text_of lines.0.now };

    fn put_into(&self, text: &mut Vec<u8>) -> Result<(), NoMemory> {
        put_rows(text, self.0)
    }
}
