//! Terminating statements, and the breaks that leave a statement (Go: Terminating statements, Break statements).
ghost use Rattle.std.specs.Prelude.{◌≡◌};
ghost use Rattle.gr_tree.specs.Statements.{act_of, for_of, optional, statement_of, statements_of};
ghost use Rattle.gr_typing.specs.Endings as spec;
ghost use Rattle.gr_types.specs.StatementViews.{clause_body, clauses_of};

use crate::context::is_labeled;
use gr_tree::{Action, Clause, ForHead, Stmt};

fn breaks_action(label: Option<&[u8]>, near: bool, action: &Action) -> bool
    ensures { result ≡ spec.breaks_act (optional (λ x. x.now) label.entry) near (act_of action.now) }
{
    match action {
        Action::Break(Some(name)) => is_labeled(label, name),
        Action::Break(None) => near,
        _ => false,
    }
}

/// Whether a break among these statements leaves the for or select statement around them. That statement has this label, or
/// none. `near` says that no other for or select statement lies between.
#[cycle(breaking)]
pub fn breaks_in(label: Option<&[u8]>, near: bool, statements: &[Stmt]) -> bool
    ensures { result ≡ spec.breaks_in (optional (λ x. x.now) label.entry) near (statements_of statements.now) }
{
    for statement in statements {
        if breaks(label, near, statement) {
            return true;
        }
    }
    false
}

#[cycle(breaking)]
fn breaks_among(label: Option<&[u8]>, near: bool, clauses: &[Clause]) -> bool
    ensures { result ≡ spec.breaks_among (optional (λ x. x.now) label.entry) near (clauses_of clauses.now) }
{
    for clause in clauses {
        if breaks_clause(label, near, clause) {
            return true;
        }
    }
    false
}

#[cycle(breaking)]
fn breaks_clause(label: Option<&[u8]>, near: bool, clause: &Clause) -> bool
    ensures { result ≡ spec.breaks_in (optional (λ x. x.now) label.entry) near (clause_body clause.now) }
{
    match clause {
        Clause::Default(body) | Clause::Case(_, body) => breaks_in(label, near, body),
    }
}

/// Whether a break within this statement leaves the for or select statement that is meant.
#[cycle(breaking)]
fn breaks(label: Option<&[u8]>, near: bool, statement: &Stmt) -> bool
    ensures { result ≡ spec.breaks_of (optional (λ x. x.now) label.entry) near (statement_of statement.now) }
{
    match statement {
        Stmt::Act(_, action) => breaks_action(label, near, action),
        Stmt::Block(_, body) | Stmt::If(_, _, body) => breaks_in(label, near, body),
        Stmt::IfElse(_, _, body, otherwise) => {
            breaks_in(label, near, body) || breaks_in(label, near, otherwise)
        }
        Stmt::IfElseIf(_, _, body, otherwise) => {
            breaks_in(label, near, body) || breaks(label, near, otherwise)
        }
        Stmt::For(_, _, body) => breaks_in(label, false, body),
        Stmt::Select(_, clauses) => breaks_among(label, false, clauses),
        Stmt::Label(_, _, labeled) => breaks(label, near, labeled),
        Stmt::EmptyLabel(_, _) => false,
    }
}

fn returns(action: &Action) -> bool
    ensures { result ≡ spec.returns (act_of action.now) }
{
    match action {
        Action::Return(_) => true,
        _ => false,
    }
}

/// Whether a for has neither a condition nor a range.
fn is_endless(head: &ForHead) -> bool
    ensures { result ≡ spec.is_endless (for_of head.now) }
{
    match head {
        ForHead::Loop(_, None, _) => true,
        _ => false,
    }
}

/// Whether the last of these statements is terminating.
#[cycle(ending)]
pub fn ends(statements: &[Stmt]) -> bool
    ensures { result ≡ spec.ends (statements_of statements.now) }
{
    match statements.last() {
        Some(last) => terminates(None, last),
        None => false,
    }
}

#[cycle(ending)]
fn all_end(clauses: &[Clause]) -> bool
    ensures { result ≡ spec.all_end (clauses_of clauses.now) }
{
    for clause in clauses {
        if !clause_ends(clause) {
            return false;
        }
    }
    true
}

#[cycle(ending)]
fn clause_ends(clause: &Clause) -> bool
    ensures { result ≡ spec.ends (clause_body clause.now) }
{
    match clause {
        Clause::Default(body) | Clause::Case(_, body) => ends(body),
    }
}

/// Whether a statement is terminating; `label` is the label directly before it.
#[cycle(ending)]
pub fn terminates(label: Option<&[u8]>, statement: &Stmt) -> bool
    ensures { result ≡ spec.terminates (optional (λ x. x.now) label.entry) (statement_of statement.now) }
{
    match statement {
        Stmt::Act(_, action) => returns(action),
        Stmt::Block(_, body) => ends(body),
        Stmt::IfElse(_, _, body, otherwise) => ends(body) && ends(otherwise),
        Stmt::IfElseIf(_, _, body, otherwise) => ends(body) && terminates(None, otherwise),
        Stmt::For(_, head, body) => is_endless(head) && !breaks_in(label, true, body),
        Stmt::Select(_, clauses) => all_end(clauses) && !breaks_among(label, true, clauses),
        Stmt::Label(_, name, labeled) => terminates(Some(name), labeled),
        Stmt::If(_, _, _) | Stmt::EmptyLabel(_, _) => false,
    }
}
