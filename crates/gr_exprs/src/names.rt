//! Names, and tables of them.
ghost use Rattle.std.specs.Prelude.{◌≡◌, ◌++◌, ◌∷◌, [], map, OnOk, None};
ghost use Rattle.gr_typing.specs.Names as spec;
ghost use Rattle.gr_typing.specs.Scopes.{in_block};
ghost use Rattle.gr_exprs.specs.Tables.{block_of};

use indexmap::IndexMap;
use std::alloc::{AllocError, Global};

/// Names that are declared together, each with a number.
#[derive(Drop)]
pub struct NameTable {
    numbers: IndexMap<Vec<u8>, usize>,
}

const PREDECLARED: [&[u8]; 10] = [
    b"int", b"bool", b"true", b"false", b"nil", b"len", b"cap", b"make", b"close", b"println",
];

fn is_among(mut names: &[&[u8]], name: &[u8]) -> bool
    ensures { result ≡ spec.among (map (λ x. x.now) names.entry.now) name.now }
{
    while let [first, rest @ ..] = names {
        if name == *first {
            return true;
        }
        names = rest;
    }
    false
}

/// Whether the language declares this name before any program does.
#[tactic(auto, unfolding(gr_typing::specs::Names::predeclared))]
pub fn is_predeclared(name: &[u8]) -> bool
    ensures { result ≡ spec.among spec.predeclared name.now }
{
    is_among(&PREDECLARED, name)
}

/// Whether a name is the blank identifier.
pub fn is_blank(name: &[u8]) -> bool
    ensures { result ≡ spec.is_blank name.now }
{
    name == b"_".as_slice()
}

impl NameTable {
    pub fn new(alloc: Global) -> Self
        ensures { block_of result ≡ [] }
    {
        NameTable {
            numbers: IndexMap::new(alloc),
        }
    }

    /// The number of a name.
    pub fn number(&self, name: &[u8]) -> Option<usize>
        ensures { result ≡ in_block (block_of self.now) name.now }
    {
        if self.numbers.is_empty() {
            return None;
        }
        self.numbers.get(name).copied()
    }

    /// Declares a name.
    pub fn declare(&mut self, name: Vec<u8>, number: usize) -> Result<(), AllocError>
        requires { in_block (block_of self.old) name.items ≡ None }
        ensures { OnOk result (block_of self.new ≡ block_of self.old ++ ((name.items, number) ∷ [])) }
    {
        self.numbers.insert(name, number)?;
        Ok(())
    }
}
