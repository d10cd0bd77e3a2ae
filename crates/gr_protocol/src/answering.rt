//! How one line of a client is answered.

ghost use Rattle.std.specs.Prelude.{◌≡◌, ◌≤◌, ◌++◌, [], IfOk, OnOk, OnErr};
ghost use Rattle.serde_json.specs.View.{view};
ghost use Rattle.gr_program.specs.Views.{program_of};
ghost use Rattle.gr_command.specs.Requests.{request_meant};
ghost use Rattle.gr_serve.specs.Replies.{answer_of};
ghost use Rattle.gr_protocol.specs.Clients.{IsClient, RemainsClient};
ghost use Rattle.gr_protocol.specs.Answers.{Answers, Leaves, Replies, is_quit as ends_session, answer_data, rejected_data, without_entry as refused_data, line_text};

use crate::client::Client;
use crate::telling::told;
use gr_base::NoMemory;
use gr_command::{Command, Line, Reply, Request, read_request};
use gr_json::replies::said;
use gr_json::write_line;
use gr_session::{AskRefused, Receipt};
use serde_json::{Value, json};
use std::alloc::Global;

/// A line that asks nothing.
fn rejected(alloc: Global) -> Result<Value, NoMemory>
    ensures { IfOk result (λ value. view value ≡ rejected_data) }
{
    Ok(json!(in alloc; {
            "error": "bad request",
            "expected": "a command, or: about G#N, about FROM TO, or: at N with show G, chan C, text G or console",
            "text": "? bad command\n"
        })?)
}

/// A command that has no entry in the journal.
fn without_entry(alloc: Global, code: &str, text: &str) -> Result<Value, NoMemory>
    ensures { IfOk result (λ value. view value ≡ refused_data code.now text.now) }
{
    Ok(json!(in alloc; {"reply": {"answer": "refused", "code": code}, "text": text})?)
}

/// What came of a command.
fn replied(alloc: Global, asked: Result<&Receipt, AskRefused>) -> Result<Value, NoMemory>
    ensures { IfOk result (λ value. view value ≡ answer_data (answer_of asked.entry)) }
{
    match asked {
        Ok(receipt) => said(alloc, &receipt.reply),
        Err(AskRefused::JournalFull) => without_entry(alloc, "Q1", "no Q1\n"),
        Err(AskRefused::NoMemory) => without_entry(alloc, "Q2", "no Q2\n"),
    }
}

/// Appends what came of a command as a line.
fn put_reply(
    alloc: Global,
    text: &mut Vec<u8>,
    asked: Result<&Receipt, AskRefused>,
) -> Result<(), NoMemory>
    ensures { OnOk result (text.new.items ≡ text.old.items ++ line_text (answer_data (answer_of asked.entry))) }
{
    let value = replied(alloc, asked)?;
    write_line(alloc, text, &value)
}

/// Asks a command of the session for this desk.
fn ask(
    alloc: Global,
    client: &mut Client,
    command: Command,
    text: &mut Vec<u8>,
) -> Result<(), NoMemory>
    requires client { IsClient client.old }
    requires empty { text.old.items ≡ [] }
    ensures ok { OnOk result (Replies (program_of client.old.session.program) client.old.desk.number (Line.Command command)
        client.old.session.journal client.new.session.journal text.new.items) }
    ensures err { OnErr result (Leaves (program_of client.old.session.program) client.old.desk.number
        (Request.Say (Line.Command command)) client.old.session.journal client.new.session.journal) }
    ensures client { RemainsClient client.old client.new }
{
    match client.session.ask(alloc, client.desk, command) {
        Ok(receipt) => put_reply(alloc, text, Ok(&receipt)),
        Err(why) => put_reply(alloc, text, Err(why)),
    }
}

/// Answers what a line says as a command.
fn reply(alloc: Global, client: &mut Client, line: Line, text: &mut Vec<u8>) -> Result<(), NoMemory>
    requires client { IsClient client.old }
    requires empty { text.old.items ≡ [] }
    ensures ok { OnOk result (Replies (program_of client.old.session.program) client.old.desk.number line
        client.old.session.journal client.new.session.journal text.new.items) }
    ensures err { OnErr result (Leaves (program_of client.old.session.program) client.old.desk.number (Request.Say line)
        client.old.session.journal client.new.session.journal) }
    ensures client { RemainsClient client.old client.new }
{
    match line {
        Line::Blank => Ok(()),
        Line::Rejected => {
            let value = rejected(alloc)?;
            write_line(alloc, text, &value)
        }
        Line::Quit => {
            let value = said(alloc, &Reply::Acknowledged)?;
            write_line(alloc, text, &value)
        }
        Line::Command(command) => ask(alloc, client, command, text),
    }
}

/// Answers what a line asks, and puts the answer into `text`, which is empty.
fn answer(
    alloc: Global,
    client: &mut Client,
    request: Request,
    text: &mut Vec<u8>,
) -> Result<(), NoMemory>
    requires client { IsClient client.old }
    requires empty { text.old.items ≡ [] }
    ensures ok { OnOk result (Answers (program_of client.old.session.program) client.old.desk.number request
        client.old.session.journal client.new.session.journal text.new.items) }
    ensures err { OnErr result (Leaves (program_of client.old.session.program) client.old.desk.number request
        client.old.session.journal client.new.session.journal) }
    ensures client { RemainsClient client.old client.new }
{
    match request {
        Request::Ask(query) => {
            let value = told(alloc, client, &query)?;
            write_line(alloc, text, &value)
        }
        Request::Say(line) => reply(alloc, client, line, text),
    }
}

/// Whether a line ends the session.
fn is_quit(request: &Request) -> bool
    ensures { result ≡ ends_session request.now }
{
    matches!(request, Request::Say(Line::Quit))
}

/// Answers one line of a client. The answer, a line of JSON, replaces what `text` held; a blank line has none. A command is an
/// entry of the journal, a query is not. It answers whether the line was `quit`.
///
/// The one error is out of memory. A command may then have been asked.
pub fn answer_line(
    alloc: Global,
    client: &mut Client,
    line: &[u8],
    text: &mut Vec<u8>,
) -> Result<bool, NoMemory>
    requires { IsClient client.old }
    ensures ok { OnOk result (Answers (program_of client.old.session.program) client.old.desk.number (request_meant line.now)
        client.old.session.journal client.new.session.journal text.new.items) }
    ensures quit { IfOk result (λ quit. quit ≡ ends_session (request_meant line.now)) }
    ensures err { OnErr result (Leaves (program_of client.old.session.program) client.old.desk.number (request_meant line.now)
        client.old.session.journal client.new.session.journal) }
    ensures client { RemainsClient client.old client.new }
{
    let request = read_request(alloc, line)?;
    let quit = is_quit(&request);
    text.clear();
    answer(alloc, client, request, text)?;
    Ok(quit)
}
