//! Statements.

use crate::expr::{BinaryOp, Expr, TypeTree};
use gr_scan::token::Place;

/// A simple statement (Go: Statements), without its place.
#[derive(Drop)]
pub enum Simple {
    /// An expression as a statement.
    Eval(Expr),
    /// `c <- e`: the channel, and the value.
    Send(Expr, Expr),
    /// `x, y = e, f`
    Assign(Vec<Vec<u8>>, Vec<Expr>),
    /// `x, y := e, f`
    Define(Vec<Vec<u8>>, Vec<Expr>),
    /// `x += e` and the like, for each operator of Go that has such a form.
    Update(Vec<u8>, BinaryOp, Expr),
    /// `x++`
    Increment(Vec<u8>),
    /// `x--`
    Decrement(Vec<u8>),
}

/// What a statement does that has no statements in it.
#[derive(Drop)]
pub enum Action {
    Simple(Simple),
    /// `var x, y T`
    Var(Vec<Vec<u8>>, TypeTree),
    /// `var x, y T = e, f`, or without the type.
    VarValues(Vec<Vec<u8>>, Option<TypeTree>, Vec<Expr>),
    /// `go f(e)`
    Go(Vec<u8>, Vec<Expr>),
    Return(Option<Expr>),
    /// A break, perhaps with a label.
    Break(Option<Vec<u8>>),
    /// A continue, perhaps with a label.
    Continue(Option<Vec<u8>>),
}

/// A simple statement in the heading of an if or a for, and where its first token stands. It lies on the heap, so that other
/// statements take no room for it.
#[derive(Drop)]
pub struct Header {
    pub place: Place,
    pub simple: Simple,
}

/// What stands between `if` and its block.
#[derive(Drop)]
pub struct IfHead {
    pub init: Option<Box<Header>>,
    pub condition: Expr,
}

/// What each value of a range is given to.
#[derive(Drop)]
pub enum RangeTarget {
    Nothing,
    /// `x = range`
    Assign(Vec<u8>),
    /// `x := range`
    Define(Vec<u8>),
}

/// What stands between `for` and its block.
#[derive(Drop)]
pub enum ForHead {
    /// The statement before the loop, the condition, and the statement after each turn.
    Loop(Option<Box<Header>>, Option<Expr>, Option<Box<Header>>),
    /// A loop over the values that a channel gives.
    Range(RangeTarget, Expr),
}

/// What a clause of a select waits for (Go: Select statements).
#[derive(Drop)]
pub enum Communication {
    /// `c <- e`: the channel, and the value.
    Send(Expr, Expr),
    /// `<-c`, perhaps in parentheses.
    Receive(Expr),
    /// `x, ok = <-c`, with one name or two.
    Assign(Vec<Vec<u8>>, Expr),
    /// `x, ok := <-c`, with one name or two.
    Define(Vec<Vec<u8>>, Expr),
}

/// A statement. Each place is that of the statement's first token.
#[cycle(statement)]
#[derive(Drop)]
pub enum Stmt {
    /// A statement with no statements in it.
    Act(Place, Action),
    Block(Place, Vec<Stmt>),
    /// An if without else.
    If(Place, IfHead, Vec<Stmt>),
    /// An if, its block, and the block of its else.
    IfElse(Place, IfHead, Vec<Stmt>, Vec<Stmt>),
    /// An if, its block, and the if after its else.
    IfElseIf(Place, IfHead, Vec<Stmt>, Box<Stmt>),
    For(Place, ForHead, Vec<Stmt>),
    Select(Place, Vec<Clause>),
    /// A label, and the statement after it.
    Label(Place, Vec<u8>, Box<Stmt>),
    /// A label before an empty statement.
    EmptyLabel(Place, Vec<u8>),
}

/// A clause of a select.
#[cycle(statement)]
#[derive(Drop)]
pub enum Clause {
    Default(Vec<Stmt>),
    Case(Communication, Vec<Stmt>),
}
