//! What is around a statement.
ghost use Rattle.std.specs.Prelude.{◌≡◌, Some};
ghost use Rattle.gr_tree.specs.Statements.{optional};
ghost use Rattle.gr_program.specs.TypeViews.{ty_of};
ghost use Rattle.gr_typing.specs.Contexts as spec;
ghost use Rattle.gr_typing.specs.Contexts.{has_label};
ghost use Rattle.gr_typing.specs.Scopes.{first_where, next_number};
ghost use Rattle.gr_exprs.specs.Checking.{Agrees};
ghost use Rattle.gr_types.specs.ContextViews.{around_of, nest_of, context_of};
ghost use Rattle.gr_exprs.specs.Codes.{Tells};
ghost use Rattle.gr_exprs.specs.declared.refusal.RefusalCode.TheVariants as codes;

use gr_exprs::functions::Functions;
use gr_exprs::refusal::{RefusalCode, RuleError};
use gr_program::Type;

/// A for or a select statement, with the label directly before it, if it has one.
#[derive(Clone, Copy)]
pub enum Around<'a> {
    Loop(Option<&'a [u8]>),
    Choice(Option<&'a [u8]>),
}

/// The for and select statements around a place, the innermost first.
#[derive(Clone, Copy)]
pub enum Nest<'a> {
    Outside,
    Inside(Around<'a>, &'a Nest<'a>),
}

/// What is around a statement: the functions of the program, the result of its own function, and the for and select
/// statements around it.
#[derive(Clone, Copy)]
pub struct Context<'a> {
    pub functions: &'a Functions,
    pub result: &'a Option<Type>,
    pub nest: &'a Nest<'a>,
}

/// Whether a statement has this label directly before it.
pub fn is_labeled(label: Option<&[u8]>, name: &[u8]) -> bool
    ensures { result ≡ has_label (optional (λ x. x.now) label.entry) name.now }
{
    match label {
        Some(own) => own == name,
        None => false,
    }
}

fn is_left(label: Option<&[u8]>, around: &Around) -> bool
    ensures { result ≡ spec.is_left (optional (λ x. x.now) label.entry) (around_of around.now) }
{
    match (label, around) {
        (None, _) => true,
        (Some(name), Around::Loop(own) | Around::Choice(own)) => is_labeled(*own, name),
    }
}

fn is_continued(label: Option<&[u8]>, around: &Around) -> bool
    ensures { result ≡ spec.is_continued (optional (λ x. x.now) label.entry) (around_of around.now) }
{
    match (label, around) {
        (_, Around::Choice(_)) => false,
        (None, Around::Loop(_)) => true,
        (Some(name), Around::Loop(own)) => is_labeled(*own, name),
    }
}

/// One further out. No text is long enough to nest as many statements as there are numbers.
fn next(number: usize) -> Result<usize, RuleError>
    ensures value { Agrees (λ k. k) result (next_number (Some number)) }
    ensures code { Tells result codes.WrongLabel }
{
    match number.checked_add(1) {
        Some(next) => Ok(next),
        None => Err(RuleError::Memory),
    }
}

/// Which of the statements around a place a break leaves, counted outwards from the nearest, which is 0.
pub fn break_depth(label: Option<&[u8]>, nest: &Nest) -> Result<usize, RuleError>
    ensures value { Agrees (λ k. k) result (first_where (spec.is_left (optional (λ x. x.now) label.entry)) (nest_of nest.now)) }
    ensures code { Tells result codes.WrongLabel }
{
    match nest {
        Nest::Outside => Err(RuleError::Broken(RefusalCode::WrongLabel)),
        Nest::Inside(around, _) if is_left(label, around) => Ok(0),
        Nest::Inside(_, outer) => next(break_depth(label, outer)?),
    }
}

/// Which of the statements around a place a continue begins anew, counted outwards from the nearest, which is 0.
pub fn continue_depth(label: Option<&[u8]>, nest: &Nest) -> Result<usize, RuleError>
    ensures value { Agrees (λ k. k) result
        (first_where (spec.is_continued (optional (λ x. x.now) label.entry)) (nest_of nest.now)) }
    ensures code { Tells result codes.WrongLabel }
{
    match nest {
        Nest::Outside => Err(RuleError::Broken(RefusalCode::WrongLabel)),
        Nest::Inside(around, _) if is_continued(label, around) => Ok(0),
        Nest::Inside(_, outer) => next(continue_depth(label, outer)?),
    }
}

impl<'a> Context<'a> {
    /// What is around a statement within the body of a for or a select.
    pub fn within(&'a self, nest: &'a Nest<'a>) -> Context<'a>
        ensures { context_of result ≡ spec.Within (spec.functions (context_of self.now)) (optional ty_of self.now.result.now)
            (nest_of nest.now) }
    {
        Context {
            functions: self.functions,
            result: self.result,
            nest,
        }
    }
}
