//! The spellings of keywords, operators and punctuation.
ghost use Rattle.std.specs.Prelude.{◌≡◌, map};
ghost use Rattle.gr_scan.specs.Marks.{mark_in, keywords, operators, is_keyword as is_listed};
ghost use Rattle.gr_scan.specs.Scanning.{first_prefix};

use crate::token::Mark;

const KEYWORDS: [(&[u8], Mark); 25] = [
    (b"break", Mark::Break),
    (b"case", Mark::Case),
    (b"chan", Mark::Chan),
    (b"const", Mark::Const),
    (b"continue", Mark::Continue),
    (b"default", Mark::Default),
    (b"defer", Mark::Defer),
    (b"else", Mark::Else),
    (b"fallthrough", Mark::Fallthrough),
    (b"for", Mark::For),
    (b"func", Mark::Func),
    (b"go", Mark::Go),
    (b"goto", Mark::Goto),
    (b"if", Mark::If),
    (b"import", Mark::Import),
    (b"interface", Mark::Interface),
    (b"map", Mark::Map),
    (b"package", Mark::Package),
    (b"range", Mark::Range),
    (b"return", Mark::Return),
    (b"select", Mark::Select),
    (b"struct", Mark::Struct),
    (b"switch", Mark::Switch),
    (b"type", Mark::Type),
    (b"var", Mark::Var),
];

fn look_up(mut table: &[(&[u8], Mark)], spelling: &[u8]) -> Option<Mark>
    ensures { result ≡ mark_in (map (λ entry. (entry.0.now, entry.1)) table.entry.now) spelling.now }
{
    while let [entry, rest @ ..] = table {
        if entry.0 == spelling {
            return Some(entry.1);
        }
        table = rest;
    }
    None
}

/// The keyword of this spelling.
#[tactic(auto, unfolding(crate::specs::Marks::keywords))]
pub(crate) fn keyword(word: &[u8]) -> Option<Mark>
    ensures { result ≡ mark_in keywords word.now }
{
    look_up(&KEYWORDS, word)
}

/// Whether a word is a keyword of the language.
pub fn is_keyword(word: &[u8]) -> bool
    ensures { result ≡ is_listed word.now }
{
    keyword(word).is_some()
}

/// The longest operator or punctuation mark at the front of a text, and its length in bytes.
#[tactic(auto, unfolding(crate::specs::Marks::operators))]
pub(crate) fn operator(text: &[u8]) -> Option<(Mark, usize)>
    ensures { result ≡ first_prefix operators text.now }
{
    match text {
        [b'<', b'<', b'=', ..] => Some((Mark::ShiftLeftAssign, 3)),
        [b'>', b'>', b'=', ..] => Some((Mark::ShiftRightAssign, 3)),
        [b'&', b'^', b'=', ..] => Some((Mark::AndNotAssign, 3)),
        [b'.', b'.', b'.', ..] => Some((Mark::Ellipsis, 3)),
        [b'<', b'<', ..] => Some((Mark::ShiftLeft, 2)),
        [b'>', b'>', ..] => Some((Mark::ShiftRight, 2)),
        [b'&', b'^', ..] => Some((Mark::AndNot, 2)),
        [b'+', b'=', ..] => Some((Mark::PlusAssign, 2)),
        [b'-', b'=', ..] => Some((Mark::MinusAssign, 2)),
        [b'*', b'=', ..] => Some((Mark::StarAssign, 2)),
        [b'/', b'=', ..] => Some((Mark::SlashAssign, 2)),
        [b'%', b'=', ..] => Some((Mark::PercentAssign, 2)),
        [b'&', b'=', ..] => Some((Mark::AndAssign, 2)),
        [b'|', b'=', ..] => Some((Mark::OrAssign, 2)),
        [b'^', b'=', ..] => Some((Mark::CaretAssign, 2)),
        [b'&', b'&', ..] => Some((Mark::AndAnd, 2)),
        [b'|', b'|', ..] => Some((Mark::OrOr, 2)),
        [b'<', b'-', ..] => Some((Mark::Arrow, 2)),
        [b'+', b'+', ..] => Some((Mark::PlusPlus, 2)),
        [b'-', b'-', ..] => Some((Mark::MinusMinus, 2)),
        [b'=', b'=', ..] => Some((Mark::Equal, 2)),
        [b'!', b'=', ..] => Some((Mark::NotEqual, 2)),
        [b'<', b'=', ..] => Some((Mark::LessEqual, 2)),
        [b'>', b'=', ..] => Some((Mark::GreaterEqual, 2)),
        [b':', b'=', ..] => Some((Mark::Define, 2)),
        [b'+', ..] => Some((Mark::Plus, 1)),
        [b'-', ..] => Some((Mark::Minus, 1)),
        [b'*', ..] => Some((Mark::Star, 1)),
        [b'/', ..] => Some((Mark::Slash, 1)),
        [b'%', ..] => Some((Mark::Percent, 1)),
        [b'&', ..] => Some((Mark::And, 1)),
        [b'|', ..] => Some((Mark::Or, 1)),
        [b'^', ..] => Some((Mark::Caret, 1)),
        [b'<', ..] => Some((Mark::Less, 1)),
        [b'>', ..] => Some((Mark::Greater, 1)),
        [b'=', ..] => Some((Mark::Assign, 1)),
        [b'!', ..] => Some((Mark::Not, 1)),
        [b'(', ..] => Some((Mark::LeftParen, 1)),
        [b'[', ..] => Some((Mark::LeftBracket, 1)),
        [b'{', ..] => Some((Mark::LeftBrace, 1)),
        [b',', ..] => Some((Mark::Comma, 1)),
        [b'.', ..] => Some((Mark::Dot, 1)),
        [b')', ..] => Some((Mark::RightParen, 1)),
        [b']', ..] => Some((Mark::RightBracket, 1)),
        [b'}', ..] => Some((Mark::RightBrace, 1)),
        [b';', ..] => Some((Mark::Semicolon, 1)),
        [b':', ..] => Some((Mark::Colon, 1)),
        _ => None,
    }
}
