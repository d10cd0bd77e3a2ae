//! Expressions and statements that hold others, from their parts.
ghost use Rattle.std.specs.Prelude.{◌≡◌};
ghost use Rattle.gr_tree.specs.Statements.{optional};
ghost use Rattle.gr_program.specs.Programs as pure;
ghost use Rattle.gr_program.specs.TypeViews.{literal_of};
ghost use Rattle.gr_program.specs.Views.{
  expr_of,
  exprs_of,
  opening_of,
  stmt_of,
  stmts_of,
  case_on,
  cases_of,
};

use crate::program::{Case, Expr, Literal, Opening, Stmt};
use gr_scan::token::Place;

pub fn call(function: usize, arguments: Vec<Expr>) -> Expr
    ensures { expr_of result ≡ pure.Call function (exprs_of arguments.items) }
{
    Expr::Call(function, arguments)
}

pub fn block(body: Vec<Stmt>) -> Stmt
    ensures { stmt_of result ≡ pure.Block (stmts_of body.items) }
{
    Stmt::Block(body)
}

pub fn conditional(
    place: Place,
    init: Option<Box<Opening>>,
    condition: Expr,
    body: Vec<Stmt>,
    otherwise: Vec<Stmt>,
) -> Stmt
    ensures { stmt_of result ≡ pure.If place (optional opening_of init) (expr_of condition) (stmts_of body.items)
        (stmts_of otherwise.items) }
{
    Stmt::If {
        place,
        init,
        condition,
        body,
        otherwise,
    }
}

pub fn repeated(
    place: Place,
    init: Option<Box<Opening>>,
    condition: Option<Expr>,
    post: Option<Box<Opening>>,
    body: Vec<Stmt>,
) -> Stmt
    ensures { stmt_of result ≡ pure.For place (optional opening_of init) (optional expr_of condition) (optional opening_of post)
        (stmts_of body.items) }
{
    Stmt::For {
        place,
        init,
        condition,
        post,
        body,
    }
}

pub fn ranged(place: Place, target: Option<usize>, channel: Expr, body: Vec<Stmt>) -> Stmt
    ensures { stmt_of result ≡ pure.Range place target (expr_of channel) (stmts_of body.items) }
{
    Stmt::Range {
        place,
        target,
        channel,
        body,
    }
}

pub fn choice(place: Place, cases: Vec<Case>) -> Stmt
    ensures { stmt_of result ≡ pure.Select place (cases_of cases.items) }
{
    Stmt::Select { place, cases }
}

pub fn default_case(body: Vec<Stmt>) -> Case
    ensures { case_on result ≡ pure.default_case (stmts_of body.items) }
{
    Case::Default(body)
}

pub fn send_case(channel: Expr, value: Expr, body: Vec<Stmt>) -> Case
    ensures { case_on result ≡ pure.send_case (expr_of channel) (expr_of value) (stmts_of body.items) }
{
    Case::Send {
        channel,
        value,
        body,
    }
}

pub fn receive_case(
    targets: Vec<Option<usize>>,
    channel: Expr,
    zero: Literal,
    body: Vec<Stmt>,
) -> Case
    ensures { case_on result ≡ pure.receive_case targets.items (expr_of channel) (literal_of zero) (stmts_of body.items) }
{
    Case::Receive {
        targets,
        channel,
        zero,
        body,
    }
}
