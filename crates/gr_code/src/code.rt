//! The code of a program: instructions, one for each step, with operands that have no parts, and with the numbers of the
//! instructions that may follow.

use gr_program::program::Literal;
use gr_tree::{BinaryOp, UnaryOp};

/// An expression without calls, receives, `make`, `len` and `cap`.
#[derive(Drop)]
pub enum Operand {
    Literal(Literal),
    /// A variable or temporary, by its place in the frame.
    Variable(u32),
    Unary(UnaryOp, Box<Operand>),
    Binary(BinaryOp, Box<Operand>, Box<Operand>),
    /// `&&` or `||` whose left operand is decided and stands in a temporary.
    Decided(BinaryOp, u32, Box<Operand>),
}

/// A part of a statement: what it asks for.
#[derive(Drop)]
pub enum Ask {
    /// A call of the function with a number.
    Call {
        function: u32,
        arguments: Vec<Operand>,
    },
    /// A receive, and the zero value that a closed channel gives.
    Receive {
        channel: Operand,
        zero: Literal,
    },
    /// `make` of a channel.
    Make {
        size: Operand,
    },
    /// `len` of a channel.
    Len {
        channel: Operand,
    },
    /// `cap` of a channel.
    Cap {
        channel: Operand,
    },
}

/// What `println` prints at a place: the bytes of a string, or the next value.
#[derive(Drop)]
pub enum Piece {
    Text(Vec<u8>),
    Value,
}

/// What a statement does with its operands once all its parts are done, and the instruction with which it goes on.
#[derive(Drop)]
pub enum Action {
    /// Assigns the values; a target that is `None` is the blank identifier.
    Assign {
        targets: Vec<Option<u32>>,
        on: u32,
    },
    /// A receive whose value, and whether it was sent, go to temporaries.
    AssignReceived {
        zero: Literal,
        value: u32,
        ok: u32,
        on: u32,
    },
    /// An assignment with an operator.
    Update {
        variable: u32,
        op: BinaryOp,
        on: u32,
    },
    /// `close` of a channel.
    Close {
        on: u32,
    },
    Print {
        pieces: Vec<Piece>,
        on: u32,
    },
    Send {
        on: u32,
    },
    /// A call of the function with a number, in a new goroutine.
    Start {
        function: u32,
        on: u32,
    },
    Return,
    GoOn {
        on: u32,
    },
    /// What no checked program comes to.
    Fail,
    Test {
        holds: u32,
        fails: u32,
    },
    /// The start of a loop over a channel, which a temporary keeps.
    Range {
        slot: u32,
        on: u32,
    },
    /// A turn of a loop over a channel: a value that was sent goes to a temporary, and on to the body.
    Turn {
        slot: u32,
        body: u32,
        after: u32,
    },
}

/// A clause of a select, and the instruction with which it goes on.
#[derive(Drop)]
pub enum Arm {
    Default {
        on: u32,
    },
    Send {
        channel: Operand,
        value: Operand,
        on: u32,
    },
    /// A receive; where it assigns, the temporaries for the value and for whether it was sent.
    Receive {
        channel: Operand,
        zero: Literal,
        into: Option<(u32, u32)>,
        on: u32,
    },
}

/// One step of a goroutine.
#[derive(Drop)]
pub enum Instruction {
    /// A part of a statement. Its value goes to a temporary, unless the part is the whole statement.
    Part {
        ask: Ask,
        slot: Option<u32>,
        on: u32,
    },
    /// The left operand of `&&` or `||`. It goes to a temporary. Where it settles, the right one is skipped.
    Decide {
        op: BinaryOp,
        left: Operand,
        slot: u32,
        settled: u32,
        right: u32,
    },
    Perform {
        action: Action,
        operands: Vec<Operand>,
    },
    Choose {
        arms: Vec<Arm>,
    },
}

/// The code of a function. The cells of its frames are the variables, by their numbers, and then the temporaries.
pub struct FunctionCode {
    /// The variables of the parameters; `None` for the blank identifier.
    pub parameters: Vec<Option<u32>>,
    /// How many variables there are.
    pub variables: usize,
    /// How many cells a frame has.
    pub cells: usize,
    /// The instructions by their numbers; a call begins with the first.
    pub instructions: Vec<Instruction>,
    /// The line on which the statement of each instruction begins.
    pub lines: Vec<u32>,
}

// Written out, so that crates above call it and need not prove it again.
impl Drop for FunctionCode {
    fn drop(self) {
        let FunctionCode {
            parameters: _,
            variables: _,
            cells: _,
            instructions: _,
            lines: _,
        } = self;
    }
}

/// The code of a program.
pub struct Code {
    /// The functions by their numbers.
    pub functions: Vec<FunctionCode>,
    /// The number of `main`.
    pub main: u32,
}

// Written out, so that crates above call it and need not prove it again.
impl Drop for Code {
    fn drop(self) {
        let Code {
            functions: _,
            main: _,
        } = self;
    }
}
