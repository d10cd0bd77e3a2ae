//! Texts, their tokens, and the first fault of each.

use gr_scan::position::Position;
use gr_scan::scan::{ScanError, scan};
use gr_scan::token::{Kind, Mark};
use std::alloc::Global;
use std::process::Abort;

/// What a token is to be, from where to where, and on which line.
#[derive(Clone, Copy)]
struct Shown<'a> {
    from: usize,
    to: usize,
    line: usize,
    what: What<'a>,
}

#[derive(Clone, Copy)]
enum What<'a> {
    Name(&'a [u8]),
    Number(u64),
    Text(&'a [u8]),
    Mark(Mark),
}

fn is_shown(kind: &Kind, what: What) -> bool {
    match (kind, what) {
        (Kind::Name(name), What::Name(shown)) => *name == shown,
        (Kind::Number(number), What::Number(shown)) => *number == shown,
        (Kind::Text(bytes), What::Text(shown)) => bytes.as_slice() == shown,
        (Kind::Mark(mark), What::Mark(shown)) => *mark == shown,
        _ => false,
    }
}

/// Whether these are the tokens of the text.
fn show_tokens(rt: &impl Abort, alloc: Global, text: &[u8], tokens: &[Shown]) {
    let found = scan(alloc, text).expect(rt, "tokens");
    assert!(rt; found.len() == tokens.len());
    for (number, shown) in tokens.iter().enumerate() {
        let token = found.get(number).expect(rt, "a token");
        let place = token.place();
        assert!(rt; place.start == shown.from && place.end == shown.to && place.line == shown.line);
        assert!(rt; is_shown(&token.kind, shown.what));
    }
}

const CUT: [Shown<'static>; 7] = [
    Shown {
        from: 3,
        to: 5,
        line: 1,
        what: What::Mark(Mark::Go),
    },
    Shown {
        from: 6,
        to: 7,
        line: 1,
        what: What::Name(b"x"),
    },
    Shown {
        from: 7,
        to: 10,
        line: 1,
        what: What::Mark(Mark::ShiftLeftAssign),
    },
    Shown {
        from: 10,
        to: 11,
        line: 1,
        what: What::Number(7),
    },
    Shown {
        from: 16,
        to: 16,
        line: 1,
        what: What::Mark(Mark::Semicolon),
    },
    Shown {
        from: 17,
        to: 18,
        line: 2,
        what: What::Mark(Mark::RightBrace),
    },
    Shown {
        from: 18,
        to: 18,
        line: 2,
        what: What::Mark(Mark::Semicolon),
    },
];

#[test]
fn cuts_a_text(rt: HostRuntime) {
    show_tokens(&rt, rt.alloc(), b"\xef\xbb\xbfgo x<<=7 // y\n}", &CUT);
}

const LITERALS: [Shown<'static>; 8] = [
    Shown {
        from: 0,
        to: 5,
        line: 1,
        what: What::Number(255),
    },
    Shown {
        from: 6,
        to: 11,
        line: 1,
        what: What::Number(3),
    },
    Shown {
        from: 12,
        to: 16,
        line: 1,
        what: What::Number(15),
    },
    Shown {
        from: 17,
        to: 21,
        line: 1,
        what: What::Number(15),
    },
    Shown {
        from: 22,
        to: 25,
        line: 1,
        what: What::Number(10),
    },
    Shown {
        from: 26,
        to: 26,
        line: 1,
        what: What::Mark(Mark::Semicolon),
    },
    Shown {
        from: 34,
        to: 44,
        line: 3,
        what: What::Text(b"a\t\"\\\xff"),
    },
    Shown {
        from: 44,
        to: 44,
        line: 3,
        what: What::Mark(Mark::Semicolon),
    },
];

#[test]
fn reads_literals(rt: HostRuntime) {
    let text = b"0x_fF 0B1_1 0o17 0_17 1_0 /*/\n\n*/ \"a\\t\\\"\\\\\xff\"";
    show_tokens(&rt, rt.alloc(), text, &LITERALS);
}

/// Texts, and the fault of each.
const FAULTS: [(&[u8], ScanError); 17] = [
    (b"x\n @ #", ScanError::Strange(3)),
    (b"x 9223372036854775809", ScanError::TooGreat(2)),
    (b"9223372036854775809x", ScanError::Malformed(0)),
    (b"x 08", ScanError::Malformed(2)),
    (b"1__0", ScanError::Malformed(0)),
    (b"0x1p1", ScanError::LeftOut(0)),
    (b"1E3", ScanError::LeftOut(0)),
    (b"12i", ScanError::LeftOut(0)),
    (b"08.", ScanError::LeftOut(0)),
    (b"x.5", ScanError::LeftOut(1)),
    (b"x /*/", ScanError::Unclosed(2)),
    (b"x \"y\n\"", ScanError::MalformedText(2)),
    (b"\"\\\"", ScanError::MalformedText(0)),
    (b"\"\\q\\n\"", ScanError::MalformedText(0)),
    (b"\"\\n\\q\"", ScanError::LeftOut(0)),
    (b"\"\x7f\n", ScanError::LeftOut(0)),
    (b"// '\n'", ScanError::LeftOut(5)),
];

#[test]
fn names_the_first_fault(rt: HostRuntime) {
    for (text, fault) in FAULTS {
        assert_eq!(rt; scan(rt.alloc(), text).err(), Some(fault));
    }
}

/// A text whose second line begins with a letter of two bytes, which is strange.
const STRANGE: &[u8] = b"x\n\xc3\xa9 @";

/// Numbers of bytes in it, and where they stand. The last is past its end.
const POSITIONS: [(usize, Position); 4] = [
    (2, Position { line: 2, column: 1 }),
    (5, Position { line: 2, column: 4 }),
    (1, Position { line: 1, column: 2 }),
    (99, Position { line: 2, column: 5 }),
];

#[test]
fn tells_where_a_fault_stands(rt: HostRuntime) {
    let fault = scan(rt.alloc(), STRANGE).err();
    assert!(rt; fault == Some(ScanError::Strange(2)));
    for (place, position) in &POSITIONS {
        assert!(rt; Position::of(STRANGE, *place) == *position);
    }
    assert!(rt; ScanError::Strange(2).place() == Some(2));
    assert!(rt; ScanError::TooLong.place().is_none());
}
