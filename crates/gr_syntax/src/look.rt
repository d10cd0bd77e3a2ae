//! Looking at the first of the tokens that are left.

ghost use Rattle.std.specs.Prelude.{◌≡◌, ◌<◌, ◌++◌, ◌∷◌, [], IfSome, IfOk, MatchResult, Ok, Err, length};
ghost use Rattle.gr_scan.specs.Tokens.{tokens_of};
ghost use Rattle.gr_tree.specs.Exprs.{names_of};
ghost use Rattle.gr_syntax.specs.Grammar.{after_mark, is_make};
ghost use Rattle.gr_syntax.specs.Reading.{binary_of, unary_of, operator_at, need, name_at, names_at};
ghost use Rattle.gr_syntax.specs.Views.{Gives, Finds, Shorter, Splits, Sees, SeesOperator};
ghost use Rattle.gr_syntax.specs.declared.look.ReadError.TheVariants as faults;

use gr_scan::token::{Kind, Mark, Place, Token};
use gr_tree::{BinaryOp, UnaryOp};
use std::alloc::{AllocError, AllocFailed, Global};

/// Tokens that are left; their names lie in the text.
pub(crate) type Tokens<'a, 't> = &'a [Token<'t>];

/// Why reading stopped, and how many tokens were left there.
#[derive(Drop)]
pub(crate) enum ReadError {
    /// No file goes on with the first of them.
    Wrong { left: usize },
    /// What begins there, or before, is too high.
    TooHigh { left: usize },
    Memory,
}

impl From<AllocError> for ReadError {
    ghost from_gives = { λ _ e. e ≡ faults.Memory };

    fn from(_: AllocError) -> Self {
        ReadError::Memory
    }
}

impl<T: Drop> From<AllocFailed<T>> for ReadError {
    ghost from_gives = { λ _ e. e ≡ faults.Memory };

    fn from(_: AllocFailed<T>) -> Self {
        ReadError::Memory
    }
}

/// What is read: a value, its height, and the tokens after it.
#[derive(Drop)]
pub(crate) struct Found<'a, 't, T> {
    pub(crate) value: T,
    pub(crate) height: u32,
    pub(crate) rest: Tokens<'a, 't>,
}

impl<'a, 't, T: Drop> Found<'a, 't, T> {
    /// What is made of the value; its height and the tokens after it stay.
    pub(crate) fn map<U: Drop, F: FnOnce(T) -> U>(self, make: F) -> Found<'a, 't, U>
        requires { F.pre make self.value }
        ensures value { F.post make self.entry.value result.value }
        ensures height { result.height ≡ self.entry.height }
        ensures rest { result.rest ≡ self.entry.rest }
    {
        let Found {
            value,
            height,
            rest,
        } = self;
        Found {
            value: make(value),
            height,
            rest,
        }
    }
}

// A proof sees a tree that is dropped by `beside` or `abandon` as one value. Where `?` drops a tree, the proof takes it apart.

/// What was read, beside what is held till then; that is dropped where nothing could be read.
pub(crate) fn beside<T: Drop, H: Drop, E>(read: Result<T, E>, held: H) -> Result<(T, H), E>
    ensures { MatchResult read (λ x. result ≡ Ok (x, held)) (λ e. result ≡ Err e) }
{
    match read {
        Ok(read) => Ok((read, held)),
        Err(error) => Err(error),
    }
}

/// This error; what was read before it is dropped.
pub(crate) fn abandon<V: Drop, T, E>(_read: V, error: E) -> Result<T, E>
    ensures { result ≡ Err error }
{
    Err(error)
}

/// This value on the heap.
pub(crate) fn boxed<T: Drop>(alloc: Global, value: T) -> Result<Box<T>, AllocError>
    ensures { IfOk result (λ b. b.value ≡ value) }
{
    Ok(Box::new(alloc, value)?)
}

/// Adds a value to these.
pub(crate) fn push<T: Drop>(values: &mut Vec<T>, value: T) -> Result<(), AllocError>
    ensures items { IfOk result (λ _. values.new.items ≡ values.old.items ++ (value ∷ [])) }
{
    values.push(value)?;
    Ok(())
}

/// These values, without spare room after them.
pub(crate) fn fitted<T: Drop>(mut values: Vec<T>) -> Vec<T>
    ensures { result.items ≡ values.items }
{
    values.shrink_to_fit();
    values
}

/// The first token, and the others.
pub(crate) fn next<'a, 't>(tokens: Tokens<'a, 't>) -> Option<(&'a Token<'t>, Tokens<'a, 't>)>
    ensures value { Splits result (tokens_of tokens.now) }
    ensures shorter { IfSome result (λ p. length p.1.now < length tokens.now) }
{
    tokens.split_first()
}

/// The tokens after this mark, if it comes first.
#[tactic(auto, unfolding(crate::specs::Grammar::after_mark))]
pub(crate) fn after<'a, 't>(mark: Mark, tokens: Tokens<'a, 't>) -> Option<Tokens<'a, 't>>
    ensures value { Sees result (after_mark mark (tokens_of tokens.now)) }
    ensures shorter { IfSome result (λ rest. length rest.now < length tokens.now) }
{
    let (token, rest) = next(tokens)?;
    match &token.kind {
        Kind::Mark(first) => { if *first == mark { Some(rest) } else { None } }
        Kind::Name(_) => None,
        Kind::Number(_) => None,
        Kind::Text(_) => None,
    }
}

#[tactic(auto, unfolding(crate::specs::Reading::binary_of))]
fn binary_op(mark: Mark) -> Option<BinaryOp>
    ensures { result ≡ binary_of mark }
{
    match mark {
        Mark::Star => Some(BinaryOp::Multiply),
        Mark::Slash => Some(BinaryOp::Divide),
        Mark::Percent => Some(BinaryOp::Remainder),
        Mark::ShiftLeft => Some(BinaryOp::ShiftLeft),
        Mark::ShiftRight => Some(BinaryOp::ShiftRight),
        Mark::And => Some(BinaryOp::BitAnd),
        Mark::AndNot => Some(BinaryOp::AndNot),
        Mark::Plus => Some(BinaryOp::Add),
        Mark::Minus => Some(BinaryOp::Subtract),
        Mark::Or => Some(BinaryOp::BitOr),
        Mark::Caret => Some(BinaryOp::BitXor),
        Mark::Equal => Some(BinaryOp::Equal),
        Mark::NotEqual => Some(BinaryOp::NotEqual),
        Mark::Less => Some(BinaryOp::Less),
        Mark::LessEqual => Some(BinaryOp::LessEqual),
        Mark::Greater => Some(BinaryOp::Greater),
        Mark::GreaterEqual => Some(BinaryOp::GreaterEqual),
        Mark::AndAnd => Some(BinaryOp::LogicalAnd),
        Mark::OrOr => Some(BinaryOp::LogicalOr),
        _ => None,
    }
}

#[tactic(auto, unfolding(crate::specs::Reading::unary_of))]
fn unary_op(mark: Mark) -> Option<UnaryOp>
    ensures { result ≡ unary_of mark }
{
    match mark {
        Mark::Plus => Some(UnaryOp::Plus),
        Mark::Minus => Some(UnaryOp::Negate),
        Mark::Not => Some(UnaryOp::Not),
        Mark::Caret => Some(UnaryOp::Complement),
        Mark::Arrow => Some(UnaryOp::Receive),
        _ => None,
    }
}

/// The binary operator that comes first, if one does.
pub(crate) fn binary<'a, 't>(tokens: Tokens<'a, 't>) -> Option<(BinaryOp, Tokens<'a, 't>)>
    ensures value { SeesOperator result (operator_at binary_of (tokens_of tokens.now)) }
    ensures shorter { IfSome result (λ p. length p.1.now < length tokens.now) }
{
    let (token, rest) = next(tokens)?;
    match &token.kind {
        Kind::Mark(mark) => {
            let op = binary_op(*mark)?;
            Some((op, rest))
        }
        Kind::Name(_) => None,
        Kind::Number(_) => None,
        Kind::Text(_) => None,
    }
}

/// The unary operator that comes first, if one does.
pub(crate) fn unary<'a, 't>(tokens: Tokens<'a, 't>) -> Option<(UnaryOp, Tokens<'a, 't>)>
    ensures value { SeesOperator result (operator_at unary_of (tokens_of tokens.now)) }
    ensures shorter { IfSome result (λ p. length p.1.now < length tokens.now) }
{
    let (token, rest) = next(tokens)?;
    match &token.kind {
        Kind::Mark(mark) => {
            let op = unary_op(*mark)?;
            Some((op, rest))
        }
        Kind::Name(_) => None,
        Kind::Number(_) => None,
        Kind::Text(_) => None,
    }
}

/// The place of this mark and the tokens after it; refused where another token comes first.
#[tactic(auto, unfolding(crate::specs::Reading::need))]
pub(crate) fn needed<'a, 't>(
    mark: Mark,
    tokens: Tokens<'a, 't>,
) -> Result<(Place, Tokens<'a, 't>), ReadError>
    ensures gives { Gives (λ p. (p.0, tokens_of p.1.now)) result (need mark (tokens_of tokens.now)) }
    ensures shorter { IfOk result (λ p. length p.1.now < length tokens.now) }
{
    let Some((token, _)) = next(tokens) else {
        return Err(ReadError::Wrong { left: 0 });
    };
    let Some(rest) = after(mark, tokens) else {
        return Err(ReadError::Wrong { left: tokens.len() });
    };
    Ok((token.place(), rest))
}

/// The name that comes first, and the tokens after it.
#[tactic(auto, unfolding(crate::specs::Reading::name_at))]
pub(crate) fn name<'a, 't>(tokens: Tokens<'a, 't>) -> Result<(&'t [u8], Tokens<'a, 't>), ReadError>
    ensures gives { Gives (λ p. (p.0.now, tokens_of p.1.now)) result (name_at (tokens_of tokens.now)) }
    ensures shorter { IfOk result (λ p. length p.1.now < length tokens.now) }
{
    let left = tokens.len();
    let Some((token, rest)) = next(tokens) else {
        return Err(ReadError::Wrong { left });
    };
    match &token.kind {
        Kind::Name(name) => Ok((*name, rest)),
        Kind::Number(_) => Err(ReadError::Wrong { left }),
        Kind::Text(_) => Err(ReadError::Wrong { left }),
        Kind::Mark(_) => Err(ReadError::Wrong { left }),
    }
}

/// A list of its own with these bytes.
pub(crate) fn copy(alloc: Global, bytes: &[u8]) -> Result<Vec<u8>, AllocError>
    ensures { IfOk result (λ v. v.items ≡ bytes.now) }
{
    bytes.to_vec(alloc)
}

/// A list of its own with these bytes, on the heap.
pub(crate) fn boxed_copy(alloc: Global, bytes: &[u8]) -> Result<Box<Vec<u8>>, AllocError>
    ensures { IfOk result (λ b. b.value.items ≡ bytes.now) }
{
    boxed(alloc, copy(alloc, bytes)?)
}

/// Whether this is the name `make`, which takes a type.
pub(crate) fn is_the_make(name: &[u8]) -> bool
    ensures { result ≡ is_make name.now }
{
    name == b"make".as_slice()
}

/// Names with commas between them; they count nothing for the height.
#[tactic(auto, unfolding(crate::specs::Reading::names_at))]
pub(crate) fn names<'a, 't>(
    alloc: Global,
    tokens: Tokens<'a, 't>,
) -> Result<Found<'a, 't, Vec<Vec<u8>>>, ReadError>
    ensures gives { Finds (λ v. names_of v.items) tokens.now result names_at }
    ensures shorter { Shorter tokens.now result }
{
    let mut found = Found {
        value: Vec::new(alloc),
        height: 0,
        rest: tokens,
    };
    loop {
        let (first, more) = name(found.rest)?;
        found.value.push(copy(alloc, first)?)?;
        found.rest = more;
        let Some(more) = after(Mark::Comma, found.rest) else {
            return Ok(found);
        };
        found.rest = more;
    }
}
