//! Causal-consistent rollback for any machine whose steps touch named objects.
//!
//! A machine is a deterministic partial step on states. A state is made of objects with contents. A step notes its kind and
//! the objects that it read or wrote, and the log keeps what it wrote over. Two steps conflict where one writes what the
//! other touches. A step of a log depends directly on each earlier step with which it conflicts.
//!
//! Each theorem is the contract of a function that does nothing. It holds for all machines whose objects, cells, states,
//! events and notes are `O`, `C`, `S`, `E` and `N`, or for all steps of a type `T`. The definitions are in `specs/`. Nothing
//! is said of time, fairness or progress. After Lanese, Nishida, Palacios and Vidal, "A theory of reversibility for Erlang"
//! (2018), Lanese, Phillips and Ulidowski, "An axiomatic approach to reversible computation" (2020), and Mazurkiewicz's traces
//! (1977).
#![tactic(auto)]

pub mod backward;
pub mod closure;
pub mod dependence;
pub mod mailbox_trips;
pub mod mailboxes;
pub mod orders;
pub mod rollback;
pub mod steps;
pub mod trips;
