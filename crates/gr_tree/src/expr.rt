//! Types and expressions.

/// A unary operator (Go: Operators).
#[derive(Clone, Copy, PartialEq, Eq)]
pub enum UnaryOp {
    Plus,
    Negate,
    /// `!`
    Not,
    /// `^`
    Complement,
    /// `<-`
    Receive,
}

/// A binary operator (Go: Operators).
#[derive(Clone, Copy, PartialEq, Eq)]
pub enum BinaryOp {
    Multiply,
    Divide,
    Remainder,
    ShiftLeft,
    ShiftRight,
    BitAnd,
    /// `&^`
    AndNot,
    Add,
    Subtract,
    BitOr,
    BitXor,
    Equal,
    NotEqual,
    Less,
    LessEqual,
    Greater,
    GreaterEqual,
    /// `&&`
    LogicalAnd,
    /// `||`
    LogicalOr,
}

/// What may be done with a channel of a type (Go: Channel types).
#[derive(Clone, Copy, PartialEq, Eq)]
pub enum Direction {
    /// `chan T`
    Both,
    /// `chan<- T`
    Send,
    /// `<-chan T`
    Receive,
}

/// A type as it is written. Parentheses stay in the tree, since they count for its height.
#[derive(Drop)]
pub enum TypeTree {
    Name(Vec<u8>),
    /// `struct{}`
    Unit,
    Chan(Direction, Box<TypeTree>),
    Paren(Box<TypeTree>),
}

/// An expression. Parentheses stay in the tree, since they count for its height. The callee of a call, and the type of a make
/// with a size, lie on the heap. So other expressions take no room for them.
#[derive(Drop)]
pub enum Expr {
    /// A whole number, at most 2^63.
    Number(u64),
    /// A string, by the bytes that it stands for.
    Text(Vec<u8>),
    Name(Vec<u8>),
    /// `struct{}{}`
    Unit,
    Paren(Box<Expr>),
    /// `f(x, y)`
    Call(Box<Vec<u8>>, Vec<Expr>),
    /// `make(T)`
    Make(TypeTree),
    /// `make(T, n)`
    MakeSized(Box<TypeTree>, Box<Expr>),
    Unary(UnaryOp, Box<Expr>),
    Binary(BinaryOp, Box<Expr>, Box<Expr>),
}
