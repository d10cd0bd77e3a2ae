//! The parser on small files.

use gr_scan::scan::scan;
use gr_syntax::parse::{ParseError, parse};
use gr_tree::{Action, BinaryOp, Direction, Expr, File, Simple, Stmt, TypeTree};
use std::alloc::Global;
use std::process::Abort;

fn read(rt: &impl Abort, alloc: Global, text: &[u8]) -> Result<File, ParseError> {
    let tokens = scan(alloc, text).expect(rt, "tokens");
    parse(alloc, tokens.as_slice())
}

/// Whether the file is refused with this error.
fn show_refused(rt: &impl Abort, alloc: Global, text: &[u8], error: ParseError) {
    let said = read(rt, alloc, text).err();
    assert_eq!(rt; said, Some(error));
}

/// The pieces, each so often.
fn joined(rt: &impl Abort, alloc: Global, pieces: &[(&[u8], usize)]) -> Vec<u8> {
    let mut text = Vec::new(alloc);
    for (piece, count) in pieces {
        for _ in 0..*count {
            text.extend_from_slice(piece)
                .expect(rt, "memory for a text");
        }
    }
    text
}

/// Whether a file of one function with this body is refused with this error.
fn show_body_refused(rt: &impl Abort, alloc: Global, body: &[u8], error: ParseError) {
    let text = joined(
        rt,
        alloc,
        &[(b"package m; func f() {", 1), (body, 1), (b"}", 1)],
    );
    show_refused(rt, alloc, text.as_slice(), error);
}

const FILE: &[u8] = b"package main

func worker(a, b int, c chan<- chan int, d (<-chan struct{}),) chan int {
    var x, y int = 1, -2*(a+b)
    var unit = struct{}{}
    x, y = y, x; x <<= 2; y++
    return make(chan int, x,)
}

func main() {
outer:
    for i := 0; i < 3 && !done(i); i += 1 {
        if c <- i; x == 1 { break outer } else if y { continue } else { {}; go f(c, 1,) }
    }
    for range c {}
    for x = range <-c {}
    for x {}
    select { case c <- 1: case v, ok := (<-c): v--; default: idle: }
}
";

/// Whether this is `chan<- chan int`.
fn takes_channels_of_ints(tree: &TypeTree) -> bool {
    match tree {
        TypeTree::Chan(Direction::Send, sent) => is_channel_of_ints(sent),
        _ => false,
    }
}

/// Whether this is `chan int`.
fn is_channel_of_ints(tree: &TypeTree) -> bool {
    match tree {
        TypeTree::Chan(Direction::Both, item) => is_named(item, b"int"),
        _ => false,
    }
}

/// Whether this is the type of a name.
fn is_named(tree: &TypeTree, name: &[u8]) -> bool {
    match tree {
        TypeTree::Name(it) => it.as_slice() == name,
        _ => false,
    }
}

/// Whether this is `<<= 2` of a variable.
fn is_shift_by_two(simple: &Simple, name: &[u8]) -> bool {
    match simple {
        Simple::Update(it, BinaryOp::ShiftLeft, Expr::Number(2)) => it.as_slice() == name,
        _ => false,
    }
}

/// Whether this is `x <<= 2`.
fn shifts_x_by_two(stmt: &Stmt) -> bool {
    match stmt {
        Stmt::Act(_, Action::Simple(simple)) => is_shift_by_two(simple, b"x"),
        _ => false,
    }
}

#[test]
fn reads_a_file(rt: HostRuntime) {
    let alloc = rt.alloc();
    let file = read(&rt, alloc, FILE).expect(&rt, "a tree");
    assert!(rt; file.funcs.len() == 2);
    let worker = &file.funcs[0];
    assert!(rt; worker.place.line == 3 && worker.end.line == 8);
    assert!(rt; worker.parameters.len() == 3);
    assert!(rt; takes_channels_of_ints(&worker.parameters[1].type_tree));
    assert!(rt; worker.body.len() == 6);
    assert!(rt; shifts_x_by_two(&worker.body[3]));
    assert!(rt; file.funcs[1].body.len() == 5);
}

/// What is said of a file of one statement, `x := ((..1..))`, with this many pairs of parentheses.
fn parenthesized(rt: &impl Abort, alloc: Global, pairs: usize) -> Option<ParseError> {
    let pieces: [(&[u8], usize); 5] = [
        (b"package m; func f() { x := ", 1),
        (b"(", pairs),
        (b"1", 1),
        (b")", pairs),
        (b"}", 1),
    ];
    let text = joined(rt, alloc, &pieces);
    read(rt, alloc, text.as_slice()).err()
}

/// Numbers of pairs, and what is said of each.
const HEIGHTS: [(usize, Option<ParseError>); 3] = [
    (198, None),
    (199, Some(ParseError::TooHigh { token: 10 })),
    (100_000, Some(ParseError::TooHigh { token: 210 })),
];

#[test]
fn refuses_a_tree_of_more_than_200_levels(rt: HostRuntime) {
    for (pairs, error) in HEIGHTS {
        assert_eq!(rt; parenthesized(&rt, rt.alloc(), pairs), error);
    }
}

/// Files, and what is said of each.
const FILES: [(&[u8], ParseError); 10] = [
    (b"", ParseError::NoFile { token: 0 }),
    (b"package m; import x", ParseError::LeftOut { token: 3 }),
    (b"package m; func f(){};;", ParseError::NoFile { token: 10 }),
    (b"package m; func f(a,){}", ParseError::NoFile { token: 8 }),
    (
        b"package m; func f(a int,,){}",
        ParseError::NoFile { token: 9 },
    ),
    (
        b"package m; func f() *a {}",
        ParseError::LeftOut { token: 7 },
    ),
    (
        b"package m; func f() int, int {}",
        ParseError::NoFile { token: 8 },
    ),
    (
        b"package m; func f(c chan <- <- int) {}",
        ParseError::NoFile { token: 10 },
    ),
    (b"package m; func f() {", ParseError::NoFile { token: 8 }),
    (
        b"package m; func f() {} func g() {}",
        ParseError::LeftOut { token: 9 },
    ),
];

/// Bodies in which no token begins what is left out, and the token at which each is refused.
const WRONG: [(&[u8], usize); 34] = [
    (b"x y", 9),
    (b"x, y", 11),
    (b"x, 1 := 2", 10),
    (b"x += 1, 2", 11),
    (b"p(1,,)", 12),
    (b"make(chan int, 1, 2)", 15),
    (b"x = (1", 12),
    (b"x = struct{}", 13),
    (b"c <- 1 <- 2", 11),
    (b"go make(c)", 9),
    (b"go f() + 1", 12),
    (b"return 1, 2", 10),
    (b"break x y", 10),
    (b"var x", 10),
    (b"var x int y", 11),
    (b"x: }}", 11),
    (b"if {}", 9),
    (b"if x := 1 {}", 12),
    (b"if x {} else y", 13),
    (b"if x {} ; else {}", 13),
    (b"for x := range c {", 16),
    (b"for x, y := range c {}", 13),
    (b"for x; y {}", 12),
    (b"for ;; x := 1 {}", 12),
    (b"select { case x: }", 12),
    (b"select { case x, y, z := <-c: }", 14),
    (b"select { case x = 1: }", 13),
    (b"select { case <-c + 1: }", 15),
    (b"select { case (c): }", 14),
    (b"select { x }", 10),
    (b"select { default: x case c <- 1: }", 13),
    (b"case x:", 8),
    (b"else {}", 8),
    (b"x = 1 2", 11),
];

/// Bodies with something that is left out, and the token that begins it.
const LEFT_OUT: [(&[u8], usize); 6] = [
    (b"x.y = 1", 9),
    (b"x[1] = 2", 9),
    (b"&x", 8),
    (b"*x = 1", 8),
    (b"defer f()", 8),
    (b"x := func() {}", 10),
];

#[test]
fn refuses_at_the_first_wrong_token(rt: HostRuntime) {
    for (text, error) in FILES {
        show_refused(&rt, rt.alloc(), text, error);
    }
    for (body, token) in WRONG {
        show_body_refused(&rt, rt.alloc(), body, ParseError::NoFile { token });
    }
    for (body, token) in LEFT_OUT {
        show_body_refused(&rt, rt.alloc(), body, ParseError::LeftOut { token });
    }
}

/// The pieces of bodies, and the token at which each is refused.
const LONG: [(&[(&[u8], usize)], usize); 2] = [
    (&[(b"x = 1;", 100), (b"x y", 1)], 409),
    (&[(b"x y;", 1), (b"x = 1;", 100)], 9),
];

/// However long the tokens are, they are no file before they are too high.
#[test]
fn refuses_long_texts_at_the_first_wrong_token(rt: HostRuntime) {
    for (pieces, token) in LONG {
        let body = joined(&rt, rt.alloc(), pieces);
        show_body_refused(
            &rt,
            rt.alloc(),
            body.as_slice(),
            ParseError::NoFile { token },
        );
    }
}

/// Bodies that hold what is left out, but are refused at a token that does not begin it.
const ELSEWHERE: [(&[u8], usize); 6] = [
    (b"x 1; defer f()", 9),
    (b"x y.z", 9),
    (b"x = 1 2; p = &x", 11),
    (b"x = a * b c", 13),
    (b"x = (a & b", 14),
    (b"var x int y", 11),
];

/// Only what the refused token itself begins is said to be left out.
#[test]
fn left_out_marks_elsewhere_do_not_count(rt: HostRuntime) {
    for (body, token) in ELSEWHERE {
        show_body_refused(&rt, rt.alloc(), body, ParseError::NoFile { token });
    }
}
