//! Texts as words.

ghost use Rattle.std.specs.Prelude.{◌≡◌, ◌++◌, ◌∷◌, [], MatchOption};
ghost use Rattle.std.specs.Str.{bytes_eq};
ghost use Rattle.gr_command.specs.Words.{is_gap as gap, words_of, NoGap, BeginsWord, BeginsGap};

fn is_gap(byte: u8) -> bool
    ensures { result ≡ gap byte }
{
    byte == b' ' || byte == b'\t'
}

/// The text from its first word on.
fn from_word(text: &[u8]) -> &[u8]
    ensures words { words_of result.now ≡ words_of text.now }
    ensures first { BeginsWord result.now }
{
    let mut rest = text;
    while let Some((first, others)) = rest.split_first() {
        if !is_gap(*first) {
            return rest;
        }
        rest = others;
    }
    rest
}

/// A word, and what follows it.
fn split_word(text: &[u8]) -> (&[u8], &[u8])
    ensures cut { text.now ≡ result.0.now ++ result.1.now }
    ensures word { NoGap result.0.now }
    ensures after { BeginsGap result.1.now }
{
    for (i, byte) in text.iter().enumerate() {
        if is_gap(*byte) {
            return text.split_at(i);
        }
    }
    (text, b"")
}

/// Whether a word is this one. Where it is written as a text, its bytes are compared with those of the text one by one.
#[inline(always)]
pub(crate) fn spells(word: &[u8], known: &[u8]) -> bool
    ensures { result ≡ bytes_eq word.now known.now }
{
    let mut left = word;
    let mut expected = known;
    while let Some((first, others)) = expected.split_first() {
        match left.split_first() {
            Some((byte, rest)) if *byte == *first => left = rest,
            _ => return false,
        }
        expected = others;
    }
    left.is_empty()
}

/// The first word of a text and what follows it, if there is a word.
pub(crate) fn next_word(text: &[u8]) -> Option<(&[u8], &[u8])>
    ensures { MatchOption result (words_of text.now ≡ []) (λ r. words_of text.now ≡ r.0.now ∷ words_of r.1.now) }
{
    let rest = from_word(text);
    if rest.is_empty() {
        return None;
    }
    Some(split_word(rest))
}
