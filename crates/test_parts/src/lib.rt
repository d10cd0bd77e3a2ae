//! Tests of names, scanner, parser and queues, over their public calls.
#![tactic(auto)]

#[cfg(test)]
mod base;
#[cfg(test)]
mod channels;
#[cfg(test)]
mod pool;
#[cfg(test)]
mod scan;
#[cfg(test)]
mod search;
pub mod stairs;
#[cfg(test)]
mod syntax;
