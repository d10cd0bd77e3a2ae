//! Looking at the token that says what a statement is, or how it goes on.

ghost use Rattle.std.specs.Prelude.{◌≡◌, ◌<◌, ◌≤◌, IfOk, IfSome, length};
ghost use Rattle.gr_scan.specs.Tokens.{tokens_of};
ghost use Rattle.gr_syntax.specs.Reading.{operator_at};
ghost use Rattle.gr_syntax.specs.SimpleReading.{keyword_of, joint_of, done_at, stops_at, first_name};
ghost use Rattle.gr_syntax.specs.StatementReading.{past_semicolon};
ghost use Rattle.gr_syntax.specs.StatementViews.{SeesName};
ghost use Rattle.gr_syntax.specs.Views.{Gives, SeesOperator};

use crate::look::{ReadError, Tokens, after, needed, next};
use gr_scan::token::{Kind, Mark};
use gr_tree::BinaryOp;

/// A mark that begins a statement and says which.
#[derive(Clone, Copy)]
pub(crate) enum Keyword {
    Var,
    Go,
    Return,
    Break,
    Continue,
    Block,
    If,
    For,
    Select,
}

/// What may stand in a simple statement after its first name.
#[derive(Clone, Copy)]
pub(crate) enum Joint {
    /// `,`
    Comma,
    /// `=` or `:=`
    Values,
    /// `+=` and the like, for each operator of Go that has such a form.
    Update(BinaryOp),
    /// `++`
    Increment,
    /// `--`
    Decrement,
}

#[tactic(auto, unfolding(crate::specs::SimpleReading::keyword_of))]
fn keyword_of(mark: Mark) -> Option<Keyword>
    ensures { result ≡ keyword_of mark }
{
    match mark {
        Mark::Var => Some(Keyword::Var),
        Mark::Go => Some(Keyword::Go),
        Mark::Return => Some(Keyword::Return),
        Mark::Break => Some(Keyword::Break),
        Mark::Continue => Some(Keyword::Continue),
        Mark::LeftBrace => Some(Keyword::Block),
        Mark::If => Some(Keyword::If),
        Mark::For => Some(Keyword::For),
        Mark::Select => Some(Keyword::Select),
        _ => None,
    }
}

/// The keyword or the brace that comes first, if one does.
pub(crate) fn first_keyword<'a, 't>(tokens: Tokens<'a, 't>) -> Option<(Keyword, Tokens<'a, 't>)>
    ensures value { SeesOperator result (operator_at keyword_of (tokens_of tokens.now)) }
    ensures shorter { IfSome result (λ p. length p.1.now < length tokens.now) }
{
    let (token, rest) = next(tokens)?;
    match &token.kind {
        Kind::Mark(mark) => {
            let keyword = keyword_of(*mark)?;
            Some((keyword, rest))
        }
        Kind::Name(_) | Kind::Number(_) | Kind::Text(_) => None,
    }
}

#[tactic(auto, unfolding(crate::specs::SimpleReading::joint_of))]
fn joint_of(mark: Mark) -> Option<Joint>
    ensures { result ≡ joint_of mark }
{
    match mark {
        Mark::Comma => Some(Joint::Comma),
        Mark::Assign | Mark::Define => Some(Joint::Values),
        Mark::StarAssign => Some(Joint::Update(BinaryOp::Multiply)),
        Mark::SlashAssign => Some(Joint::Update(BinaryOp::Divide)),
        Mark::PercentAssign => Some(Joint::Update(BinaryOp::Remainder)),
        Mark::ShiftLeftAssign => Some(Joint::Update(BinaryOp::ShiftLeft)),
        Mark::ShiftRightAssign => Some(Joint::Update(BinaryOp::ShiftRight)),
        Mark::AndAssign => Some(Joint::Update(BinaryOp::BitAnd)),
        Mark::AndNotAssign => Some(Joint::Update(BinaryOp::AndNot)),
        Mark::PlusAssign => Some(Joint::Update(BinaryOp::Add)),
        Mark::MinusAssign => Some(Joint::Update(BinaryOp::Subtract)),
        Mark::OrAssign => Some(Joint::Update(BinaryOp::BitOr)),
        Mark::CaretAssign => Some(Joint::Update(BinaryOp::BitXor)),
        Mark::PlusPlus => Some(Joint::Increment),
        Mark::MinusMinus => Some(Joint::Decrement),
        _ => None,
    }
}

/// The token that joins a name to the rest of a simple statement, if it comes first.
pub(crate) fn first_joint<'a, 't>(tokens: Tokens<'a, 't>) -> Option<(Joint, Tokens<'a, 't>)>
    ensures value { SeesOperator result (operator_at joint_of (tokens_of tokens.now)) }
    ensures shorter { IfSome result (λ p. length p.1.now < length tokens.now) }
{
    let (token, rest) = next(tokens)?;
    match &token.kind {
        Kind::Mark(mark) => {
            let joint = joint_of(*mark)?;
            Some((joint, rest))
        }
        Kind::Name(_) | Kind::Number(_) | Kind::Text(_) => None,
    }
}

/// Whether a `;` or a `}` comes first, so that nothing more belongs to a statement.
#[tactic(auto, unfolding(crate::specs::SimpleReading::done_at))]
pub(crate) fn ends(tokens: Tokens<'_, '_>) -> bool
    ensures { result ≡ done_at (tokens_of tokens.now) }
{
    let Some((token, _)) = next(tokens) else {
        return false;
    };
    match &token.kind {
        Kind::Mark(Mark::Semicolon) | Kind::Mark(Mark::RightBrace) => true,
        _ => false,
    }
}

/// Whether a list of statements ends here: at a `}` or before the next clause of a select.
#[tactic(auto, unfolding(crate::specs::SimpleReading::stops_at))]
pub(crate) fn stops(tokens: Tokens<'_, '_>) -> bool
    ensures { result ≡ stops_at (tokens_of tokens.now) }
{
    let Some((token, _)) = next(tokens) else {
        return false;
    };
    match &token.kind {
        Kind::Mark(Mark::RightBrace) | Kind::Mark(Mark::Case) | Kind::Mark(Mark::Default) => true,
        _ => false,
    }
}

/// The name that comes first and the tokens after it, if one does.
#[tactic(auto, unfolding(crate::specs::SimpleReading::first_name))]
pub(crate) fn first_name<'a, 't>(tokens: Tokens<'a, 't>) -> Option<(&'t [u8], Tokens<'a, 't>)>
    ensures value { SeesName result (first_name (tokens_of tokens.now)) }
    ensures shorter { IfSome result (λ p. length p.1.now < length tokens.now) }
{
    let (token, rest) = next(tokens)?;
    match &token.kind {
        Kind::Name(name) => Some((*name, rest)),
        Kind::Number(_) | Kind::Text(_) | Kind::Mark(_) => None,
    }
}

/// The tokens after the semicolon that ends a statement; none is needed before a `}`.
#[tactic(auto, unfolding(crate::specs::StatementReading::past_semicolon))]
pub(crate) fn past_semicolon<'a, 't>(tokens: Tokens<'a, 't>) -> Result<Tokens<'a, 't>, ReadError>
    ensures gives { Gives (λ rest. tokens_of rest.now) result (past_semicolon (tokens_of tokens.now)) }
    ensures rest { IfOk result (λ rest. length rest.now ≤ length tokens.now) }
{
    if after(Mark::RightBrace, tokens).is_some() {
        return Ok(tokens);
    }
    let (_, rest) = needed(Mark::Semicolon, tokens)?;
    Ok(rest)
}
