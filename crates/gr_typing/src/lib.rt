//! The judgement of the checker: which program a file has. `specs/` holds definitions alone, to be read in the order of
//! `specs/Lib.antt`.
#![tactic(auto)]
