//! The checked program of a file: names are resolved to numbers, constants to their values; parentheses and labels are gone.

use crate::types::Type;
use gr_scan::token::Place;
use gr_tree::{BinaryOp, UnaryOp};

/// A value as it stands in a program.
#[derive(Clone, Copy, PartialEq, Eq)]
pub enum Literal {
    /// An `int`.
    Number(i64),
    Truth(bool),
    /// The value of `struct{}`.
    Empty,
    /// A channel that is `nil`.
    Nil,
}

/// An expression. The largest constant expressions are literals.
#[derive(Drop)]
pub enum Expr {
    Literal(Literal),
    /// A variable by its number.
    Variable(usize),
    Unary(UnaryOp, Box<Expr>),
    Binary(BinaryOp, Box<Expr>, Box<Expr>),
    /// A receive from a channel, and the zero value of its elements, which a closed channel gives.
    Receive(Box<Expr>, Literal),
    /// A call of the function with a number, and the arguments.
    Call(usize, Vec<Expr>),
    /// `len` of a channel.
    Len(Box<Expr>),
    /// `cap` of a channel.
    Cap(Box<Expr>),
    /// `make` of a channel without a size.
    Make,
    /// `make` of a channel with a size.
    MakeSized(Box<Expr>),
}

/// What `println` prints.
#[derive(Drop)]
pub enum Printed {
    /// A value.
    Value(Expr),
    /// The bytes of a string.
    Text(Vec<u8>),
}

/// What a statement does that has no statements in it. A target is a variable by its number; `None` is the blank identifier.
#[derive(Drop)]
pub enum Act {
    /// Assigns each value to the target at its place. A declaration is an assignment.
    Assign {
        targets: Vec<Option<usize>>,
        values: Vec<Expr>,
    },
    /// `value, ok = <-channel`, with the zero value of the channel's elements.
    AssignReceive {
        value: Option<usize>,
        ok: Option<usize>,
        channel: Expr,
        zero: Literal,
    },
    /// An assignment with an operator, as `x += e`.
    Update {
        variable: usize,
        op: BinaryOp,
        value: Expr,
    },
    /// A call or a receive as a statement.
    Eval(Expr),
    /// `close` of a channel.
    Close(Expr),
    /// `println` of these.
    Print(Vec<Printed>),
    Send {
        channel: Expr,
        value: Expr,
    },
    /// A call of the function with a number in a new goroutine.
    Go {
        function: usize,
        arguments: Vec<Expr>,
    },
    Return(Option<Expr>),
    /// Ends the for or select statement around it, counted outwards from the nearest, which is 0.
    Break(usize),
    /// Goes to the next turn of the for statement around it, counted as for `Break`.
    Continue(usize),
}

/// A statement in the heading of an if or a for. It lies on the heap, so that other statements take no room for it.
#[derive(Drop)]
pub struct Opening {
    /// Where its first token stands.
    pub place: Place,
    pub act: Act,
}

/// A statement. Each place is that of its first token, so that no two statements of a program have the same.
#[cycle(stmt)]
#[derive(Drop)]
pub enum Stmt {
    /// A statement with no statements in it.
    Act {
        place: Place,
        act: Act,
    },
    Block(Vec<Stmt>),
    If {
        place: Place,
        init: Option<Box<Opening>>,
        condition: Expr,
        body: Vec<Stmt>,
        otherwise: Vec<Stmt>,
    },
    For {
        place: Place,
        init: Option<Box<Opening>>,
        condition: Option<Expr>,
        post: Option<Box<Opening>>,
        body: Vec<Stmt>,
    },
    /// A loop over the values that a channel gives.
    Range {
        place: Place,
        target: Option<usize>,
        channel: Expr,
        body: Vec<Stmt>,
    },
    Select {
        place: Place,
        cases: Vec<Case>,
    },
}

/// A clause of a select.
#[cycle(stmt)]
#[derive(Drop)]
pub enum Case {
    Default(Vec<Stmt>),
    Send {
        channel: Expr,
        value: Expr,
        body: Vec<Stmt>,
    },
    /// A receive: what its value, and then whether there was one, are given to, as many as are asked for.
    Receive {
        targets: Vec<Option<usize>>,
        channel: Expr,
        zero: Literal,
        body: Vec<Stmt>,
    },
}

/// A parameter of a function.
#[derive(Drop)]
pub struct Parameter {
    /// Its variable; `None` for the blank identifier.
    pub variable: Option<usize>,
    pub value_type: Type,
}

/// A variable of a function.
#[derive(Drop)]
pub struct Variable {
    pub name: Vec<u8>,
    pub value_type: Type,
}

/// A function.
pub struct Function {
    pub name: Vec<u8>,
    pub parameters: Vec<Parameter>,
    pub result: Option<Type>,
    /// The variables by their numbers, in the order of their declarations.
    pub variables: Vec<Variable>,
    pub body: Vec<Stmt>,
    /// Where the closing brace stands.
    pub closing: Place,
}

// Written out, so that crates above call it and need not prove it again.
impl Drop for Function {
    fn drop(self) {
        let Function {
            name: _,
            parameters: _,
            result: _,
            variables: _,
            body: _,
            closing: _,
        } = self;
    }
}

/// The checked program of a file.
pub struct Program {
    /// The functions by their numbers, in source order.
    pub functions: Vec<Function>,
    /// The number of `main`.
    pub main: usize,
}

// Written out, so that crates above call it and need not prove it again.
impl Drop for Program {
    fn drop(self) {
        let Program {
            functions: _,
            main: _,
        } = self;
    }
}
