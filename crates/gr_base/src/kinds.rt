//! What a step did.

/// Why a program was stopped.
#[derive(Clone, Copy, PartialEq, Eq)]
pub enum Fault {
    DivideByZero,
    /// A shift by a negative count.
    NegativeShift,
    SendOnClosed,
    CloseOfClosed,
    CloseOfNil,
    /// A size given to `make` that is below 0 or above 1,000,000.
    BadSize,
    /// A goroutine would have more than 1,000 frames.
    CallDepth,
    /// A goroutine's name would have more than 32 counts.
    NameDepth,
    /// A goroutine would have more than 4,294,967,295 children or channels.
    NameCount,
}

/// What a step did.
#[derive(Clone, Copy, PartialEq, Eq)]
pub enum Kind {
    /// It did a statement, or an operand of one, that touches its own goroutine alone.
    Pure,
    /// It called a function.
    Call,
    /// It left a function, but not the outermost one of the goroutine of `main`.
    Return,
    /// It started a goroutine.
    Go,
    /// It made a channel.
    Make,
    /// It took `len` or `cap` of a channel.
    Length,
    /// It handed a value to a waiting receiver.
    Hand,
    /// It took the value of a waiting sender.
    Meet,
    /// It put a value into a buffer.
    Buffer,
    /// It took a value out of a buffer.
    Take,
    /// It received from a closed, empty channel.
    Closed,
    /// It waits to send.
    SendWait,
    /// It waits to receive.
    RecvWait,
    /// It did the communication of this clause of a select, counted from 1.
    Pick(u32),
    /// It took the default clause of a select.
    Default,
    /// It waits on the clauses of a select.
    SelectWait,
    /// It closed a channel.
    Close,
    /// It ended the program.
    Exit,
    /// It stopped the program.
    Fault(Fault),
}
