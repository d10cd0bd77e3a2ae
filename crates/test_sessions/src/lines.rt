//! Lines of commands, and the texts of replies.

use gr_command::{Command, Line, Reply, read_command, write_reply};
use std::alloc::Global;
use std::process::Abort;

/// The command of a line.
pub(crate) fn command(rt: &impl Abort, alloc: Global, line: &[u8]) -> Command {
    match read_command(alloc, line).expect(rt, "memory for a name") {
        Line::Command(command) => command,
        _ => panic!(rt; "the line is no command"),
    }
}

/// The bytes of a reply.
pub(crate) fn text_of(rt: &impl Abort, alloc: Global, reply: &Reply) -> Vec<u8> {
    let mut text = Vec::new(alloc);
    write_reply(&mut text, reply).expect(rt, "memory for a text");
    text
}
