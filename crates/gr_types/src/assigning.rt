//! Statements that give values to variables.

pub mod assignment;
pub mod declaration;
pub mod definition;
pub mod right_sides;
pub mod targets;
