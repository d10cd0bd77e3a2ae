//! What is shown of the state after the first steps.

ghost use Rattle.std.specs.Prelude.{◌≡◌, ◌≤◌, IfOk, IfSome, length};
ghost use Rattle.gr_command.specs.Replies.{said_of};
ghost use Rattle.gr_depend.specs.Logs.{records_of};
ghost use Rattle.gr_follow.specs.Following.{IsOf};
ghost use Rattle.gr_program.specs.Programs.{Program};
ghost use Rattle.gr_program.specs.Views.{program_of};
ghost use Rattle.gr_protocol.specs.Clients.{IsClient, StaysClient};
ghost use Rattle.gr_protocol.specs.Earlier.{Shows, ShowsAt};
ghost use Rattle.gr_rollback.specs.Machines.{IsMachine, Stands, steps_of, store_of};
ghost use Rattle.gr_rollback.specs.Pasts.{Timeline};
ghost use Rattle.gr_session.specs.Entries.{InItsWorld};
ghost use Rattle.gr_session.specs.Source.{IsProgramOf};
ghost use Rattle.gr_step.specs.Stores.{program_at};

use crate::client::Client;
use gr_base::NoMemory;
use gr_command::{Refusal, Reply, View};
use gr_follow::follow;
use gr_queries::{chan, console, show, text};
use gr_rollback::Machine;
use gr_scan::scan::one_list;
use gr_session::Session;
use gr_syntax::parse::one_tree;
use gr_types::laws::one_program;
use std::alloc::Global;

/// A machine of the program of a text, before its first step.
fn start(alloc: Global, text: &[u8]) -> Result<Machine, NoMemory>
    ensures { IfOk result (λ machine. (p : Program) → IsProgramOf text.now p → IsOf p machine) }
{
    // brings to the prover that a text has one program
    one_list();
    one_tree();
    one_program();
    match Session::open(alloc, text) {
        Ok(session) => Ok(session.into_machine()),
        Err(_) => Err(NoMemory),
    }
}

/// What is shown of the state in which a machine stands.
fn shown(alloc: Global, machine: &Machine, view: &View) -> Result<Reply, NoMemory>
    requires { IsMachine machine.now }
    ensures { IfOk result (λ reply. (p : Program) (w : Timeline p) → Stands p w machine.now
        → Shows p w.past view.now (said_of reply)) }
{
    match view {
        View::Goroutine(go) => show(alloc, machine.store(), go),
        View::Channel(channel) => chan(alloc, machine.store(), channel),
        View::Text(go) => text(alloc, machine.store(), go),
        View::Console => console(alloc, machine.store(), machine.log().as_slice()),
    }
}

/// The second machine, which the client then has no more.
fn take_follower(alloc: Global, client: &mut Client) -> Result<Machine, NoMemory>
    requires { IsClient client.old }
    ensures machine { IfOk result (IsOf (program_of client.old.session.program)) }
    ensures client { StaysClient client.old client.new }
{
    match client.follower.take() {
        Some(machine) => Ok(machine),
        None => start(alloc, client.source.as_slice()),
    }
}

/// What is shown of the state after so many of the first steps of another machine, once this one has gone there.
fn show_there(
    alloc: Global,
    follower: &mut Machine,
    leader: &Machine,
    steps: usize,
    view: &View,
) -> Result<Reply, NoMemory>
    requires machine { IsOf (program_at (store_of leader.now)) follower.old }
    requires kept { steps ≤ length (steps_of leader.now) }
    ensures of { IsOf (program_at (store_of leader.now)) follower.new }
    ensures shows { IfOk result (λ reply. (p : Program) (w : Timeline p) → Stands p w leader.now
        → ShowsAt p w.past.log steps view.now (said_of reply)) }
{
    follow(alloc, follower, leader, steps)?;
    shown(alloc, follower, view)
}

/// What is shown of the state after so many of the first steps, as the second machine shows it. The session is as it was.
fn show_followed(
    alloc: Global,
    client: &mut Client,
    steps: usize,
    view: &View,
) -> Result<Reply, NoMemory>
    requires client { IsClient client.old }
    requires kept { steps ≤ length (records_of client.old.session.log) }
    ensures shows { IfOk result (λ reply. InItsWorld (program_of client.old.session.program) client.old.session.journal
        (λ w. ShowsAt (program_of client.old.session.program) w.log steps view.now (said_of reply))) }
    ensures client { StaysClient client.old client.new }
{
    let mut follower = take_follower(alloc, client)?;
    let leader = client.session.machine();
    let shown = show_there(alloc, &mut follower, leader, steps, view);
    client.follower = Some(follower);
    shown
}

/// What is shown of the state after so many of the first steps. Refused where fewer are kept. The session is as it was.
pub(crate) fn shown_at(
    alloc: Global,
    client: &mut Client,
    steps: u32,
    view: &View,
) -> Result<Reply, NoMemory>
    requires { IsClient client.old }
    ensures shows { IfOk result (λ reply. InItsWorld (program_of client.old.session.program) client.old.session.journal
        (λ w. ShowsAt (program_of client.old.session.program) w.log steps view.now (said_of reply))) }
    ensures client { StaysClient client.old client.new }
{
    if steps as usize > client.session.machine().log().len() {
        return Ok(Reply::Refused(Refusal::NotKept));
    }
    show_followed(alloc, client, steps as usize, view)
}
