//! The answers to queries.

ghost use Rattle.std.specs.Prelude.{IfOk};
ghost use Rattle.serde_json.specs.View.{view};
ghost use Rattle.gr_program.specs.Views.{program_of};
ghost use Rattle.gr_protocol.specs.Answers.{Tells};
ghost use Rattle.gr_protocol.specs.Clients.{IsClient, StaysClient};
ghost use Rattle.gr_protocol.specs.Earlier.{TellsAt};
ghost use Rattle.gr_session.specs.Entries.{InItsWorld};

use crate::about::{about_places, about_step};
use crate::client::Client;
use crate::earlier::shown_at;
use gr_base::NoMemory;
use gr_command::{Query, View};
use gr_json::replies::said;
use serde_json::Value;
use std::alloc::Global;

/// What is shown of the state after so many of the first steps. The session is as it was.
fn told_at(alloc: Global, client: &mut Client, steps: u32, wanted: &View) -> Result<Value, NoMemory>
    requires { IsClient client.old }
    ensures tells { IfOk result (λ value. InItsWorld (program_of client.old.session.program) client.old.session.journal
        (λ w. TellsAt (program_of client.old.session.program) w.log steps wanted.now (view value))) }
    ensures client { StaysClient client.old client.new }
{
    let reply = shown_at(alloc, client, steps, wanted)?;
    said(alloc, &reply)
}

/// The answer to a query. The session is as it was.
pub(crate) fn told(alloc: Global, client: &mut Client, query: &Query) -> Result<Value, NoMemory>
    requires { IsClient client.old }
    ensures tells { IfOk result (λ value. Tells (program_of client.old.session.program) client.old.session.journal
        query.now (view value)) }
    ensures client { StaysClient client.old client.new }
{
    match query {
        Query::Step(id) => about_step(alloc, client.session.machine(), id),
        Query::Places(first, last) => {
            about_places(alloc, client.session.machine(), *first, *last)
        }
        Query::At(steps, wanted) => told_at(alloc, client, *steps, wanted),
    }
}
