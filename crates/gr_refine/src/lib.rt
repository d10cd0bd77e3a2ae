//! What the store of a running program contains, as code keeps it, and the state of the rules that it stands for. Each rule
//! has a change of the contents that is its step, and a way to take the step back. Definitions and laws; nothing here runs.
#![tactic(auto)]

pub mod goroutine_laws;
pub mod laws;
pub mod rule_laws;
