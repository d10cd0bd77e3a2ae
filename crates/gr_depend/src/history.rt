//! Steps of the log that commands ask for.

ghost use Rattle.std.specs.Prelude.{◌≡◌, ℕ, List, option_copied, option_map, option_and_then};
ghost use Rattle.gr_refine.specs.Contents.{Contents};
ghost use Rattle.gr_program.specs.Programs.{Program};
ghost use Rattle.gr_rules.specs.History as rules;
ghost use Rattle.gr_laws.specs.Reached.{Logged};
ghost use Rattle.gr_record.specs.Kept.{Kept};
ghost use Rattle.gr_record.specs.Pairs.{id_of};
ghost use Rattle.gr_base.specs.declared.names.ChName.{ChName};
ghost use Rattle.gr_record.specs.declared.record.Record.{Record};
ghost use Rattle.gr_record.specs.Records.{operation_in, operation_of as operation_ruled};
ghost use Rattle.gr_depend.specs.Histories.{starts, start_of, is_fault, sends_to, receives_of, sent, received};
ghost use Rattle.gr_depend.specs.Histories.{sends_over, receives_over};

use crate::conflicts::has_written;
use crate::log::Log;
use gr_base::{ChName, GoName, Kind, StepId};
use gr_record::record::Form;
use gr_record::{Operation, Record};
use gr_touches::ObjectRef;

/// Whether a step started the goroutine.
fn has_started(step: &Record, go: &GoName) -> bool
    ensures { result ≡ starts go.now step.now }
{
    step.change.kind() == Kind::Go && *go != step.id.go && has_written(step, &ObjectRef::Go(go))
}

/// Whether a step was a fault.
pub(crate) fn has_faulted(step: &Record) -> bool
    ensures { result ≡ is_fault step.now.change.kind }
{
    matches!(step.change.kind(), Kind::Fault(_))
}

/// The channel on which an operation sends, if it sends.
fn sending_on(operation: &Operation) -> Option<&ChName>
    ensures { option_copied result ≡ sends_over (operation_ruled operation.now) }
{
    match operation {
        Operation::SendsOn(channel) => Some(channel),
        _ => None,
    }
}

/// The channel from which an operation receives, if it receives.
fn receiving_from(operation: &Operation) -> Option<&ChName>
    ensures { option_copied result ≡ receives_over (operation_ruled operation.now) }
{
    match operation {
        Operation::ReceivesFrom(channel) => Some(channel),
        _ => None,
    }
}

/// The channel on which a step sent, came to wait for a send, or met a fault in one.
fn sent_on(step: &Record) -> Option<&ChName>
    ensures { option_copied result ≡ option_and_then sends_over (operation_in step.now.change) }
{
    match step.change.form() {
        Form::Alone(_, _) | Form::WaitsToReceive(_, _, _) => None,
        Form::WaitsToSend(_, channel, _) => Some(channel),
        Form::Passes(_, passage) => sending_on(&passage.contact.operation),
        Form::Exchanges(_, exchange) => sending_on(&exchange.passage.contact.operation),
        Form::Further(_, further) => match &further.beyond.operation {
            Some(operation) => sending_on(operation),
            None => None,
        },
    }
}

/// The channel from which a step received, or came to wait for a receive.
fn received_from(step: &Record) -> Option<&ChName>
    ensures { option_copied result ≡ option_and_then receives_over (operation_in step.now.change) }
{
    match step.change.form() {
        Form::Alone(_, _) | Form::WaitsToSend(_, _, _) => None,
        Form::WaitsToReceive(_, channel, _) => Some(channel),
        Form::Passes(_, passage) => receiving_from(&passage.contact.operation),
        Form::Exchanges(_, exchange) => receiving_from(&exchange.passage.contact.operation),
        Form::Further(_, further) => match &further.beyond.operation {
            Some(operation) => receiving_from(operation),
            None => None,
        },
    }
}

/// Whether a step sent on a channel, or came to wait for that.
#[tactic(auto, using(crate::proofs::OperationLemmas::sent_over, crate::proofs::OperationLemmas::none_sent))]
fn has_sent(step: &Record, channel: &ChName) -> bool
    ensures { result ≡ sends_to channel.now step.now }
{
    match sent_on(step) {
        Some(own) => channel == own && !has_faulted(step),
        None => false,
    }
}

/// Whether a step received from a channel, or came to wait for that.
#[tactic(auto, using(crate::proofs::OperationLemmas::received_over, crate::proofs::OperationLemmas::none_received))]
fn has_received(step: &Record, channel: &ChName) -> bool
    ensures { result ≡ receives_of channel.now step.now }
{
    match received_from(step) {
        Some(own) => channel == own && !has_faulted(step),
        None => false,
    }
}

impl Log {
    ghost use Rattle.gr_depend.specs.Logs.{records_of};

    /// The name of the step that started a goroutine.
    pub fn started(&self, go: &GoName) -> Option<&StepId>
        ensures { option_copied result ≡ start_of go.now (records_of self.now) }
    {
        for i in 0..self.records.len() {
            let step = &self.records[i];
            if has_started(step, go) {
                return Some(&step.id);
            }
        }
        None
    }

    /// The name of the send with a number on a channel, counted from 1.
    pub fn sent(&self, channel: &ChName, number: u64) -> Option<&StepId>
        ensures { option_copied result ≡ sent channel.now number (records_of self.now) }
    {
        let mut left = number;
        for i in 0..self.records.len() {
            let step = &self.records[i];
            if !has_sent(step, channel) {
                continue;
            }
            if left == 1 {
                return Some(&step.id);
            }
            left = left.saturating_sub(1);
        }
        None
    }

    /// The name of the receive with a number from a channel, counted from 1.
    pub fn received(&self, channel: &ChName, number: u64) -> Option<&StepId>
        ensures { option_copied result ≡ received channel.now number (records_of self.now) }
    {
        let mut left = number;
        for i in 0..self.records.len() {
            let step = &self.records[i];
            if !has_received(step, channel) {
                continue;
            }
            if left == 1 {
                return Some(&step.id);
            }
            left = left.saturating_sub(1);
        }
        None
    }
}

/// The steps that started a goroutine, sent or received are by their records those of the rules.
pub fn law_of_history()
    ensures started { (p : Program) (s t : Contents) (records : List Record) (log : List (Logged p)) (g : List ℕ)
        → Kept p s records log t
        → start_of g records ≡ option_map (id_of p) (rules.start_of p g log) }
    ensures sent { (p : Program) (s t : Contents) (records : List Record) (log : List (Logged p)) (c : ChName) (k : ℕ)
        → Kept p s records log t
        → sent c k records ≡ option_map (id_of p) (rules.sent p c k log) }
    ensures received { (p : Program) (s t : Contents) (records : List Record) (log : List (Logged p)) (c : ChName) (k : ℕ)
        → Kept p s records log t
        → received c k records ≡ option_map (id_of p) (rules.received p c k log) }
{}
