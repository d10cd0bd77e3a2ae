//! The parameters of a function (Go: Function types, Function declarations).
ghost use Rattle.std.specs.Prelude.{◌≡◌};
ghost use Rattle.gr_tree.specs.Exprs as trees;
ghost use Rattle.gr_tree.specs.Statements.{optional};
ghost use Rattle.gr_tree.specs.Files.{groups_of, functions_of};
ghost use Rattle.gr_typing.specs.Types as types;
ghost use Rattle.gr_program.specs.TypeViews.{ty_of};
ghost use Rattle.gr_exprs.specs.Tables.{scope_of};
ghost use Rattle.gr_types.specs.FindingStatements.{written_of};
ghost use Rattle.gr_types.specs.Outlines as spec;
ghost use Rattle.gr_types.specs.OutlineViews.{taken_of};
ghost use Rattle.gr_exprs.specs.Checking.{Agrees};
ghost use Rattle.gr_exprs.specs.Codes.{Tells};
ghost use Rattle.gr_types.specs.Codes.{is_function, heading_type_code};

use gr_exprs::names::{is_blank, is_predeclared};
use gr_exprs::refusal::{RefusalCode, RuleError};
use gr_exprs::scope::Scope;
use gr_exprs::types::written;
use gr_program::types::copy;
use gr_program::{Parameter, Type};
use gr_tree::{Func, Group, TypeTree};
use std::alloc::Global;

/// The parameters of a function.
#[derive(Drop)]
pub struct Parameters {
    pub types: Vec<Type>,
    pub parameters: Vec<Parameter>,
    /// The scope of the function's body, with its parameters.
    pub scope: Scope,
}

fn is_function(funcs: &[Func], name: &[u8]) -> bool
    ensures { result ≡ is_function (functions_of funcs.now) name.now }
{
    for func in funcs {
        if func.name.as_slice() == name {
            return true;
        }
    }
    false
}

/// The rule that is broken where what is written is no type.
fn no_type(funcs: &[Func], tree: &TypeTree) -> RefusalCode
    ensures { result ≡ heading_type_code (functions_of funcs.now) (trees.type_of tree.now) }
{
    match tree {
        TypeTree::Name(name) if is_blank(name) => RefusalCode::UnknownName,
        TypeTree::Name(name) if is_predeclared(name) || is_function(funcs, name) =>
            RefusalCode::WrongForm,
        TypeTree::Name(_) => RefusalCode::UnknownName,
        TypeTree::Unit => RefusalCode::WrongForm,
        TypeTree::Chan(_, inner) | TypeTree::Paren(inner) => no_type(funcs, inner),
    }
}

fn written_type(alloc: Global, funcs: &[Func], tree: &TypeTree) -> Result<Type, RuleError>
    ensures value { Agrees ty_of result (types.type_written (trees.type_of tree.now)) }
    ensures code { Tells result (heading_type_code (functions_of funcs.now) (trees.type_of tree.now)) }
{
    match written(alloc, tree)? {
        Some(own) => Ok(own),
        None => Err(RuleError::Broken(no_type(funcs, tree))),
    }
}

/// The result of a function.
pub fn result_type(
    alloc: Global,
    funcs: &[Func],
    tree: &Option<TypeTree>,
) -> Result<Option<Type>, RuleError>
    ensures { Agrees (optional ty_of) result (written_of (optional trees.type_of tree.now)) }
{
    match tree {
        Some(tree) => Ok(Some(written_type(alloc, funcs, tree)?)),
        None => Ok(None),
    }
}

impl Parameters {
    fn new(alloc: Global) -> Self
        ensures { taken_of result ≡ spec.none_taken }
    {
        Parameters {
            types: Vec::new(alloc),
            parameters: Vec::new(alloc),
            scope: Scope::new(alloc),
        }
    }

    fn may_take(&self, name: &[u8]) -> bool
        ensures { result ≡ spec.may_take (scope_of self.now.scope) name.now }
    {
        !is_predeclared(name) && (is_blank(name) || !self.scope.is_here(name))
    }

    /// Takes one more parameter.
    fn take(&mut self, alloc: Global, name: &[u8], own: &Type) -> Result<(), RuleError>
        ensures { Agrees (λ u. taken_of self.new) result (spec.take (taken_of self.old) name.now (ty_of own.now)) }
    {
        if !self.may_take(name) {
            return Err(RuleError::Broken(RefusalCode::DeclaredTwice));
        }
        self.scope.declare(alloc, name, copy(alloc, own)?)?;
        let variable = self.scope.number_of(name);
        self.types.push(copy(alloc, own)?)?;
        self.parameters.push(Parameter {
            variable,
            value_type: copy(alloc, own)?,
        })?;
        Ok(())
    }

    /// Takes parameters of one type.
    fn take_each(&mut self, alloc: Global, names: &[Vec<u8>], own: &Type) -> Result<(), RuleError>
        ensures { Agrees (λ u. taken_of self.new) result
            (spec.take_each (taken_of self.old) (trees.names_of names.now) (ty_of own.now)) }
    {
        for name in names {
            self.take(alloc, name, own)?;
        }
        Ok(())
    }
}

/// The parameters of these groups.
pub fn take_groups(alloc: Global, funcs: &[Func], groups: &[Group]) -> Result<Parameters, RuleError>
    ensures { Agrees taken_of result (spec.take_groups spec.none_taken (groups_of groups.now)) }
{
    let mut parameters = Parameters::new(alloc);
    for group in groups {
        let own = written_type(alloc, funcs, &group.type_tree)?;
        parameters.take_each(alloc, &group.names, &own)?;
    }
    Ok(parameters)
}
