//! The variables in scope.
ghost use Rattle.std.specs.Prelude.{◌≡◌, true, [], IfOk, OnOk};
ghost use Rattle.gr_tree.specs.Statements.{optional};
ghost use Rattle.gr_typing.specs.Scopes as spec;
ghost use Rattle.gr_program.specs.TypeViews.{ty_of, declared_of};
ghost use Rattle.gr_exprs.specs.Tables.{scope_of, blocks_of};

use crate::bytes::copy;
use crate::names::{NameTable, is_blank};
use gr_program::{Type, Variable};
use std::alloc::{AllocError, Global};

/// The variables of a function so far, and the names in scope at a place.
#[derive(Drop)]
pub struct Scope {
    /// The names of the block of the place.
    here: NameTable,
    /// The names of the blocks around it, the nearest last.
    around: Vec<NameTable>,
    /// The variables by their numbers.
    variables: Vec<Variable>,
}

/// The number of a name in these blocks. The last block is asked first.
fn number_in(mut blocks: &[NameTable], name: &[u8]) -> Option<usize>
    ensures { result ≡ spec.in_blocks (blocks_of blocks.entry.now) name.now }
{
    while let Some((last, others)) = blocks.split_last() {
        let number = last.number(name);
        if number.is_some() {
            return number;
        }
        blocks = others;
    }
    None
}

impl Scope {
    /// The scope of a function with no variables yet.
    pub fn new(alloc: Global) -> Self
        ensures { scope_of result ≡ spec.In [] [] [] }
    {
        Scope {
            here: NameTable::new(alloc),
            around: Vec::new(alloc),
            variables: Vec::new(alloc),
        }
    }

    /// The number of the variable that a name stands for.
    pub fn variable_named(&self, name: &[u8]) -> Option<usize>
        ensures { result ≡ spec.variable_named (scope_of self.now) name.now }
    {
        let number = self.here.number(name);
        if number.is_some() {
            return number;
        }
        number_in(&self.around, name)
    }

    /// The number of the variable that a name on the left of an assignment stands for; `None` for the blank identifier too.
    pub fn number_of(&self, name: &[u8]) -> Option<usize>
        ensures { result ≡ spec.number_of (scope_of self.now) name.now }
    {
        if is_blank(name) {
            return None;
        }
        self.variable_named(name)
    }

    /// The type of the variable with a number.
    pub fn type_of(&self, number: usize) -> Option<&Type>
        ensures { optional (λ t. ty_of t.now) result ≡ spec.type_of_variable (scope_of self.now) number }
    {
        match self.variables.get(number) {
            Some(variable) => Some(&variable.value_type),
            None => None,
        }
    }

    /// Whether the block of the place declares a name.
    pub fn is_here(&self, name: &[u8]) -> bool
        ensures { result ≡ spec.is_here (scope_of self.now) name.now }
    {
        self.here.number(name).is_some()
    }

    /// Declares a variable in the block of the place; it gets the next number. The blank identifier declares nothing.
    pub fn declare(
        &mut self,
        alloc: Global,
        name: &[u8],
        value_type: Type,
    ) -> Result<(), AllocError>
        requires { spec.is_free (scope_of self.old) name.now ≡ true }
        ensures { OnOk result (scope_of self.new ≡ spec.declared (scope_of self.old) name.now (ty_of value_type)) }
    {
        if is_blank(name) {
            return Ok(());
        }
        let number = self.variables.len();
        self.here.declare(copy(alloc, name)?, number)?;
        let name = copy(alloc, name)?;
        self.variables.push(Variable { name, value_type })?;
        Ok(())
    }

    /// Goes into a block.
    pub fn enter(&mut self, alloc: Global) -> Result<(), AllocError>
        ensures { OnOk result (scope_of self.new ≡ spec.entered (scope_of self.old)) }
    {
        let outer = std::mem::replace(&mut self.here, NameTable::new(alloc));
        self.around.push(outer)?;
        Ok(())
    }

    /// Goes out of a block: its names are forgotten, its variables keep their numbers.
    pub fn leave(&mut self, alloc: Global)
        ensures { scope_of self.new ≡ spec.left (scope_of self.old) }
    {
        match self.around.pop() {
            Some(outer) => self.here = outer,
            None => self.here = NameTable::new(alloc),
        }
    }

    /// How many blocks there are around the block of the place.
    pub fn depth(&self) -> usize {
        self.around.len()
    }

    /// Goes out of blocks, until there are no more than this many around the block of the place.
    pub fn leave_to(&mut self, alloc: Global, depth: usize) {
        for _ in depth..self.around.len() {
            self.leave(alloc);
        }
    }

    /// The variables by their numbers.
    pub fn into_variables(self) -> Vec<Variable>
        ensures { declared_of result.items ≡ spec.variables_in (scope_of self) }
    {
        self.variables
    }
}
