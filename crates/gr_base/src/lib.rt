//! Names, values, objects, events, kinds and faults: the words in which the debugger speaks of a run.
#![tactic(auto)]

pub mod events;
pub mod kinds;
pub mod laws;
pub mod memory;
pub mod names;
pub mod objects;
pub mod print;
pub mod read;
pub mod values;

pub use events::{Choice, Event};
pub use kinds::{Fault, Kind};
pub use memory::NoMemory;
pub use names::{ChName, GoName, StepId};
pub use objects::Object;
pub use print::{print_ch, print_go, print_kind, print_step, print_value};
pub use read::{read_ch, read_go, read_step};
pub use values::Value;
