//! What the codes mean: a module for each section of words/codes.txt.

pub(crate) mod callers;
pub(crate) mod ends;
pub(crate) mod failures;
pub(crate) mod faults;
pub(crate) mod kinds;
pub(crate) mod replies;
pub(crate) mod sources;
