//! The functions that calls may name.
ghost use Rattle.std.specs.Prelude.{◌≡◌, ◌++◌, ◌∷◌, [], IfOk};
ghost use Rattle.gr_tree.specs.Statements.{optional};
ghost use Rattle.gr_typing.specs.Scopes as spec;
ghost use Rattle.gr_exprs.specs.Signatures.{sign_of, signs_of};
ghost use Rattle.gr_exprs.specs.Tables.{block_of, Finds};
ghost use Rattle.gr_exprs.specs.FunctionNumbers as numbers_spec;

use crate::bytes::copy;
use crate::names::{NameTable, is_blank};
use crate::types::Signature;
use std::alloc::{AllocError, Global};

/// The signatures of a file's functions, by their numbers.
#[derive(Drop)]
pub struct Functions {
    signatures: Vec<Signature>,
    /// The number of the first function with a name.
    numbers: NameTable,
    ghost found: { Finds (block_of numbers) (signs_of signatures.items) },
}

/// The table with a function, if it is the first with its name.
fn with_function(
    alloc: Global,
    mut table: NameTable,
    name: &[u8],
    number: usize,
) -> Result<NameTable, AllocError>
    ensures { IfOk result (λ t. block_of t ≡ numbers_spec.with_function (block_of table) name.now number) }
{
    if is_blank(name) {
        return Ok(table);
    }
    if let Some(_) = table.number(name) {
        return Ok(table);
    }
    table.declare(copy(alloc, name)?, number)?;
    Ok(table)
}

impl Functions {
    ghost use Rattle.gr_exprs.specs.FunctionTables.{functions_of};

    /// No functions.
    pub fn new(alloc: Global) -> Self
        ensures { functions_of result ≡ [] }
    {
        Functions {
            signatures: Vec::new(alloc),
            numbers: NameTable::new(alloc),
        }
    }

    /// These functions, and one more with this signature, which gets the next number.
    pub fn with(self, alloc: Global, signature: Signature) -> Result<Self, AllocError>
        ensures { IfOk result (λ f. functions_of f ≡ functions_of self ++ (sign_of signature ∷ [])) }
    {
        let Functions {
            mut signatures,
            numbers,
        } = self;
        let numbers = with_function(alloc, numbers, &signature.name, signatures.len())?;
        signatures.push(signature)?;
        Ok(Functions {
            signatures,
            numbers,
        })
    }

    /// The number of the first function with a name; the blank identifier names none.
    pub fn number(&self, name: &[u8]) -> Option<usize>
        ensures { result ≡ spec.function_in (functions_of self.now) name.now }
    {
        self.numbers.number(name)
    }

    /// The signature of the function with a number.
    pub fn signature(&self, number: usize) -> Option<&Signature>
        ensures { optional (λ s. sign_of s.now) result ≡ spec.signature (functions_of self.now) number }
    {
        self.signatures.get(number)
    }
}
