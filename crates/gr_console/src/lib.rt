//! What a user of the program reads and writes beside the replies: the command line, the prompt, and pages on codes.
#![tactic(auto)]

pub mod command_line;
pub mod explanations;
mod meanings;
mod pages;
pub mod settings;
pub mod terminal;
pub mod words;
