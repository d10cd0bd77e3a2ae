//! From the tokens of a Go file to its tree.
#![tactic(auto)]

mod action;
mod assembly;
mod communication;
mod expression;
mod function;
mod heading;
mod joining;
mod look;
mod opening;
pub mod parse;
mod selecting;
mod simple;
mod statement;
mod types;
