//! The labels of a function (Go: Labeled statements, Break statements, Continue statements).
ghost use Rattle.std.specs.Prelude.{◌≡◌, ◌++◌, ◌∷◌, [], true, not, ◌&&◌, IfOk, OnOk, None, is_none};
ghost use Rattle.gr_tree.specs.Statements.{act_of, statement_of, statements_of};
ghost use Rattle.gr_typing.specs.Labels as spec;
ghost use Rattle.gr_types.specs.LabelTables.{names_of, with_name, with_names, fit_after};
ghost use Rattle.gr_typing.specs.Names as name_specs;
ghost use Rattle.gr_types.specs.StatementViews.{clause_body, clauses_of};

use gr_exprs::names::is_blank;
use gr_scan::token::Place;
use gr_tree::{Action, Clause, Stmt};
use indexmap::IndexSet;
use std::alloc::{AllocError, Global};

/// Why a label may not stand where it does.
#[derive(Clone, Copy, Debug, PartialEq, Eq)]
pub enum LabelError {
    /// C8: the blank identifier is no label.
    Blank,
    /// C2: a label before it in the same function has this name.
    DeclaredTwice,
    /// C8: no break and no continue of the function names it.
    Unused,
}

/// A label that doesn't fit, and where it stands.
#[derive(Clone, Copy, PartialEq, Eq)]
pub struct UnfitLabel {
    pub place: Place,
    pub fault: LabelError,
}

/// Names, each once, in the order in which they were added.
#[derive(Drop)]
struct NameSet<'a> {
    names: IndexSet<&'a [u8]>,
}

impl<'a> NameSet<'a> {
    fn new(alloc: Global) -> Self
        ensures { names_of result ≡ [] }
    {
        NameSet {
            names: IndexSet::new(alloc),
        }
    }

    fn has(&self, name: &[u8]) -> bool
        ensures { result ≡ name_specs.among (names_of self.now) name.now }
    {
        self.names.contains(name)
    }

    fn add(&mut self, name: &'a [u8]) -> Result<(), AllocError>
        ensures { OnOk result (names_of self.new ≡ with_name (names_of self.old) name.now) }
    {
        self.names.insert(name)?;
        Ok(())
    }
}

fn add_used<'a>(used: &mut NameSet<'a>, action: &'a Action) -> Result<(), AllocError>
    ensures { OnOk result (names_of used.new ≡ with_names (names_of used.old) (spec.uses_act (act_of action.now))) }
{
    match action {
        Action::Break(Some(name)) | Action::Continue(Some(name)) => used.add(name),
        _ => Ok(()),
    }
}

/// Adds the labels that break and continue name.
#[cycle(gathering)]
fn gather<'a>(used: &mut NameSet<'a>, statements: &'a [Stmt]) -> Result<(), AllocError>
    ensures { OnOk result (names_of used.new ≡ with_names (names_of used.old) (spec.uses_in (statements_of statements.now))) }
{
    for statement in statements {
        gather_one(used, statement)?;
    }
    Ok(())
}

#[cycle(gathering)]
fn gather_clauses<'a>(used: &mut NameSet<'a>, clauses: &'a [Clause]) -> Result<(), AllocError>
    ensures { OnOk result (names_of used.new ≡ with_names (names_of used.old) (spec.uses_among (clauses_of clauses.now))) }
{
    for clause in clauses {
        gather_clause(used, clause)?;
    }
    Ok(())
}

#[cycle(gathering)]
fn gather_clause<'a>(used: &mut NameSet<'a>, clause: &'a Clause) -> Result<(), AllocError>
    ensures { OnOk result (names_of used.new ≡ with_names (names_of used.old) (spec.uses_in (clause_body clause.now))) }
{
    match clause {
        Clause::Default(body) | Clause::Case(_, body) => gather(used, body),
    }
}

#[cycle(gathering)]
fn gather_one<'a>(used: &mut NameSet<'a>, statement: &'a Stmt) -> Result<(), AllocError>
    ensures { OnOk result (names_of used.new ≡ with_names (names_of used.old) (spec.uses_of (statement_of statement.now))) }
{
    match statement {
        Stmt::Act(_, action) => add_used(used, action),
        Stmt::Block(_, body) | Stmt::If(_, _, body) | Stmt::For(_, _, body) => gather(used, body),
        Stmt::IfElse(_, _, body, otherwise) => {
            gather(used, body)?;
            gather(used, otherwise)
        }
        Stmt::IfElseIf(_, _, body, otherwise) => {
            gather(used, body)?;
            gather_one(used, otherwise)
        }
        Stmt::Select(_, clauses) => gather_clauses(used, clauses),
        Stmt::Label(_, _, labeled) => gather_one(used, labeled),
        Stmt::EmptyLabel(_, _) => Ok(()),
    }
}

/// What is wrong with a label, where these are declared before it.
fn fault_of(used: &NameSet, declared: &NameSet, name: &[u8]) -> Option<LabelError>
    ensures { is_none result ≡ (not (name_specs.is_blank name.now) &&
        (not (name_specs.among (names_of declared.now) name.now) && name_specs.among (names_of used.now) name.now)) }
{
    if is_blank(name) {
        Some(LabelError::Blank)
    } else if declared.has(name) {
        Some(LabelError::DeclaredTwice)
    } else if !used.has(name) {
        Some(LabelError::Unused)
    } else {
        None
    }
}

/// Declares a label, unless it doesn't fit.
fn declare<'a>(
    used: &NameSet,
    declared: &mut NameSet<'a>,
    place: Place,
    name: &'a [u8],
) -> Result<Option<UnfitLabel>, AllocError>
    ensures fits { IfOk result (λ r. is_none r ≡ fit_after (names_of used.now) (names_of declared.old) (name.now ∷ [])) }
    ensures names { IfOk result (λ r. is_none r ≡ true → names_of declared.new ≡ names_of declared.old ++ (name.now ∷ [])) }
{
    if let Some(fault) = fault_of(used, declared, name) {
        return Ok(Some(UnfitLabel { place, fault }));
    }
    declared.add(name)?;
    Ok(None)
}

/// Declares the labels of these statements, up to the first that doesn't fit.
#[cycle(declaring)]
fn declare_all<'a>(
    used: &NameSet,
    declared: &mut NameSet<'a>,
    statements: &'a [Stmt],
) -> Result<Option<UnfitLabel>, AllocError>
    ensures fits { IfOk result (λ r. is_none r
        ≡ fit_after (names_of used.now) (names_of declared.old) (spec.labels_in (statements_of statements.now))) }
    ensures names { IfOk result (λ r. is_none r ≡ true
        → names_of declared.new ≡ names_of declared.old ++ spec.labels_in (statements_of statements.now)) }
{
    for statement in statements {
        let unfit = declare_one(used, declared, statement)?;
        if unfit.is_some() {
            return Ok(unfit);
        }
    }
    Ok(None)
}

#[cycle(declaring)]
fn declare_clauses<'a>(
    used: &NameSet,
    declared: &mut NameSet<'a>,
    clauses: &'a [Clause],
) -> Result<Option<UnfitLabel>, AllocError>
    ensures fits { IfOk result (λ r. is_none r
        ≡ fit_after (names_of used.now) (names_of declared.old) (spec.labels_among (clauses_of clauses.now))) }
    ensures names { IfOk result (λ r. is_none r ≡ true
        → names_of declared.new ≡ names_of declared.old ++ spec.labels_among (clauses_of clauses.now)) }
{
    for clause in clauses {
        let unfit = declare_clause(used, declared, clause)?;
        if unfit.is_some() {
            return Ok(unfit);
        }
    }
    Ok(None)
}

#[cycle(declaring)]
fn declare_clause<'a>(
    used: &NameSet,
    declared: &mut NameSet<'a>,
    clause: &'a Clause,
) -> Result<Option<UnfitLabel>, AllocError>
    ensures fits { IfOk result (λ r. is_none r
        ≡ fit_after (names_of used.now) (names_of declared.old) (spec.labels_in (clause_body clause.now))) }
    ensures names { IfOk result (λ r. is_none r ≡ true
        → names_of declared.new ≡ names_of declared.old ++ spec.labels_in (clause_body clause.now)) }
{
    match clause {
        Clause::Default(body) | Clause::Case(_, body) => declare_all(used, declared, body),
    }
}

#[cycle(declaring)]
fn declare_one<'a>(
    used: &NameSet,
    declared: &mut NameSet<'a>,
    statement: &'a Stmt,
) -> Result<Option<UnfitLabel>, AllocError>
    ensures fits { IfOk result (λ r. is_none r
        ≡ fit_after (names_of used.now) (names_of declared.old) (spec.labels_of (statement_of statement.now))) }
    ensures names { IfOk result (λ r. is_none r ≡ true
        → names_of declared.new ≡ names_of declared.old ++ spec.labels_of (statement_of statement.now)) }
{
    match statement {
        Stmt::Act(_, _) => Ok(None),
        Stmt::Block(_, body) | Stmt::If(_, _, body) | Stmt::For(_, _, body) => {
            declare_all(used, declared, body)
        }
        Stmt::IfElse(_, _, body, otherwise) => {
            let unfit = declare_all(used, declared, body)?;
            if unfit.is_some() {
                return Ok(unfit);
            }
            declare_all(used, declared, otherwise)
        }
        Stmt::IfElseIf(_, _, body, otherwise) => {
            let unfit = declare_all(used, declared, body)?;
            if unfit.is_some() {
                return Ok(unfit);
            }
            declare_one(used, declared, otherwise)
        }
        Stmt::Select(_, clauses) => declare_clauses(used, declared, clauses),
        Stmt::Label(place, name, labeled) => {
            let unfit = declare(used, declared, *place, name)?;
            if unfit.is_some() {
                return Ok(unfit);
            }
            declare_one(used, declared, labeled)
        }
        Stmt::EmptyLabel(place, name) => declare(used, declared, *place, name),
    }
}

/// The first label of a function's body that doesn't fit, if there is one. A label fits if it is declared once, is not blank,
/// and is used. The one error is out of memory.
pub fn unfit_label(alloc: Global, body: &[Stmt]) -> Result<Option<UnfitLabel>, AllocError>
    ensures { IfOk result (λ r. is_none r ≡ spec.labels_fit (statements_of body.now)) }
{
    let mut used = NameSet::new(alloc);
    gather(&mut used, body)?;
    let mut declared = NameSet::new(alloc);
    declare_all(&used, &mut declared, body)
}
