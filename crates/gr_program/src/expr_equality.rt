//! Equality of expressions in programs.
ghost use Rattle.std.specs.Prelude.{◌≡◌};
ghost use Rattle.std.specs.Option.{option_eq};
ghost use Rattle.std.specs.Cmp.Lexicographic.{pointwise};
ghost use Rattle.gr_tree.specs.Statements.{optional};
ghost use Rattle.gr_program.specs.TypeViews.{literal_of};
ghost use Rattle.gr_program.specs.Views.{expr_of, exprs_of, printed_of, prints_of};
ghost use Rattle.gr_program.specs.Sameness as spec;

use crate::program::{Expr, Literal, Printed};
use gr_tree::{BinaryOp, UnaryOp};

fn is_same_unary(a: UnaryOp, b: UnaryOp) -> bool
    ensures { result ≡ spec.same_unary a b }
{
    a == b
}

/// Whether two operators are the same.
pub fn is_same_binary(a: BinaryOp, b: BinaryOp) -> bool
    ensures { result ≡ spec.same_binary a b }
{
    a == b
}

/// Whether two literals are the same.
pub fn is_same_literal(a: Literal, b: Literal) -> bool
    ensures { result ≡ spec.same_literal (literal_of a) (literal_of b) }
{
    match (a, b) {
        (Literal::Number(m), Literal::Number(n)) => m == n,
        (Literal::Truth(x), Literal::Truth(y)) => x == y,
        (Literal::Empty, Literal::Empty) | (Literal::Nil, Literal::Nil) => true,
        _ => false,
    }
}

/// Whether two expressions are the same.
#[cycle(same_exprs)]
pub fn is_same_expr(a: &Expr, b: &Expr) -> bool
    ensures { result ≡ spec.same_expr (expr_of a.now) (expr_of b.now) }
{
    match (a, b) {
        (Expr::Literal(x), Expr::Literal(y)) => is_same_literal(*x, *y),
        (Expr::Variable(m), Expr::Variable(n)) => m == n,
        (Expr::Unary(o, x), Expr::Unary(p, y)) => is_same_unary(*o, *p) && is_same_expr(x, y),
        (Expr::Binary(o, x, v), Expr::Binary(p, y, w)) => {
            is_same_binary(*o, *p) && is_same_expr(x, y) && is_same_expr(v, w)
        }
        (Expr::Receive(x, v), Expr::Receive(y, w)) => {
            is_same_literal(*v, *w) && is_same_expr(x, y)
        }
        (Expr::Call(m, xs), Expr::Call(n, ys)) => m == n && are_same_exprs(xs, ys),
        (Expr::Len(x), Expr::Len(y)) => is_same_expr(x, y),
        (Expr::Cap(x), Expr::Cap(y)) => is_same_expr(x, y),
        (Expr::Make, Expr::Make) => true,
        (Expr::MakeSized(x), Expr::MakeSized(y)) => is_same_expr(x, y),
        _ => false,
    }
}

/// Whether two lists of expressions are the same.
#[cycle(same_exprs)]
#[tactic(auto, using(crate::proofs::SameLists::other_exprs))]
pub fn are_same_exprs(a: &[Expr], b: &[Expr]) -> bool
    ensures { result ≡ spec.same_exprs (exprs_of a.now) (exprs_of b.now) }
{
    if a.len() != b.len() {
        return false;
    }
    for number in 0..a.len() {
        if !is_same_expr(&a[number], &b[number]) {
            return false;
        }
    }
    true
}

fn is_same_printed(a: &Printed, b: &Printed) -> bool
    ensures { result ≡ spec.same_printed (printed_of a.now) (printed_of b.now) }
{
    match (a, b) {
        (Printed::Value(x), Printed::Value(y)) => is_same_expr(x, y),
        (Printed::Text(x), Printed::Text(y)) => x.as_slice() == y.as_slice(),
        _ => false,
    }
}

/// Whether two lists of printed values are the same.
#[tactic(auto, using(crate::proofs::SameLists::other_prints))]
pub fn are_same_printed(a: &[Printed], b: &[Printed]) -> bool
    ensures { result ≡ pointwise spec.same_printed (prints_of a.now) (prints_of b.now) }
{
    if a.len() != b.len() {
        return false;
    }
    for number in 0..a.len() {
        if !is_same_printed(&a[number], &b[number]) {
            return false;
        }
    }
    true
}

/// Whether two expressions are the same, where there may be none.
pub fn is_same_if_any(a: &Option<Expr>, b: &Option<Expr>) -> bool
    ensures { result ≡ option_eq spec.same_expr (optional expr_of a.now) (optional expr_of b.now) }
{
    match (a, b) {
        (Some(x), Some(y)) => is_same_expr(x, y),
        (None, None) => true,
        _ => false,
    }
}
