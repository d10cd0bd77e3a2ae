//! Functions and files.

use crate::expr::TypeTree;
use crate::stmt::Stmt;
use gr_scan::token::Place;

/// Parameters of one type.
#[derive(Drop)]
pub struct Group {
    pub names: Vec<Vec<u8>>,
    pub type_tree: TypeTree,
}

/// A function.
#[derive(Drop)]
pub struct Func {
    /// Where `func` stands.
    pub place: Place,
    pub name: Vec<u8>,
    pub parameters: Vec<Group>,
    pub result: Option<TypeTree>,
    pub body: Vec<Stmt>,
    /// Where the closing brace stands.
    pub end: Place,
}

/// A file.
#[derive(Drop)]
pub struct File {
    /// Where `package` stands.
    pub place: Place,
    pub package: Vec<u8>,
    pub funcs: Vec<Func>,
}
