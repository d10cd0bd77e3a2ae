//! Whether goroutines are alike.

ghost use Rattle.std.specs.Prelude.{◌≡◌, ◌↔◌, ◌∷◌, [], IsTrue};
ghost use Rattle.gr_rules.specs.Goroutines.{waiting, ToSend, ToReceive};
ghost use Rattle.gr_goros.specs.Views.{lines_of, status_of, wait_of, waits_of};

use crate::frame::Frame;
use crate::goroutine::Goroutine;
use crate::wait::{Status, Wait};
use gr_base::{ChName, Value};

/// What is like another or not.
trait Alike: Sized {
    /// Whether it is the same.
    fn is_like(&self, other: &Self) -> bool
        ensures { IsTrue result ↔ (self.now ≡ other.now) };
}

impl Alike for Wait {
    fn is_like(&self, other: &Wait) -> bool {
        match (self, other) {
            (Wait::Send(one, clause), Wait::Send(two, number)) => one == two && clause == number,
            (Wait::Receive(one, clause), Wait::Receive(two, number)) => {
                one == two && clause == number
            }
            _ => false,
        }
    }
}

impl Alike for Option<Value> {
    fn is_like(&self, other: &Option<Value>) -> bool {
        match (self, other) {
            (Some(one), Some(other)) => one == other,
            (None, None) => true,
            _ => false,
        }
    }
}

impl Alike for Frame {
    fn is_like(&self, other: &Frame) -> bool {
        self.pc() == other.pc()
            && self.function() == other.function()
            && all_alike(self.cells(), other.cells())
    }
}

/// Whether these are the same, one by one.
fn all_alike<T: Alike>(one: &[T], other: &[T]) -> bool
    ensures { IsTrue result ↔ (one.now ≡ other.now) }
{
    if one.len() != other.len() {
        return false;
    }
    for i in 0..one.len() {
        if !one[i].is_like(&other[i]) {
            return false;
        }
    }
    true
}

/// Whether this line is the same.
fn same_line(one: &Vec<u8>, other: &Vec<u8>) -> bool
    ensures { IsTrue result ↔ (one.now.items ≡ other.now.items) }
{
    one.as_slice() == other.as_slice()
}

/// Whether these lines are the same.
fn same_lines(one: &[Vec<u8>], other: &[Vec<u8>]) -> bool
    ensures { IsTrue result ↔ (lines_of one.now ≡ lines_of other.now) }
{
    if one.len() != other.len() {
        return false;
    }
    for i in 0..one.len() {
        if !same_line(&one[i], &other[i]) {
            return false;
        }
    }
    true
}

/// Whether this is a wait to send on the channel, outside a select.
fn sends_on(wait: &Wait, channel: &ChName) -> bool
    ensures { IsTrue result ↔ (ToSend channel.now None ≡ wait_of wait.now) }
{
    match wait {
        Wait::Send(one, None) => one == channel,
        _ => false,
    }
}

/// Whether this is a wait to receive from the channel, outside a select.
fn receives_from(wait: &Wait, channel: &ChName) -> bool
    ensures { IsTrue result ↔ (ToReceive channel.now None ≡ wait_of wait.now) }
{
    match wait {
        Wait::Receive(one, None) => one == channel,
        _ => false,
    }
}

/// Whether these are just one wait to send on the channel, outside a select.
#[tactic(auto, using(crate::proofs::AlikeLemmas::not_only))]
fn only_send_on(waits: &[Wait], channel: &ChName) -> bool
    ensures { IsTrue result ↔ (waiting (ToSend channel.now None ∷ []) ≡ waiting (waits_of waits.now)) }
{
    match waits {
        [wait] => sends_on(wait, channel),
        _ => false,
    }
}

/// Whether these are just one wait to receive from the channel, outside a select.
#[tactic(auto, using(crate::proofs::AlikeLemmas::not_only))]
fn only_receive_from(waits: &[Wait], channel: &ChName) -> bool
    ensures { IsTrue result ↔ (waiting (ToReceive channel.now None ∷ []) ≡ waiting (waits_of waits.now)) }
{
    match waits {
        [wait] => receives_from(wait, channel),
        _ => false,
    }
}

/// Whether it says that the goroutine waits to send on the channel, and for nothing else, outside a select.
fn is_sending(channel: &ChName, status: &Status) -> bool
    ensures { IsTrue result ↔ (waiting (ToSend channel.now None ∷ []) ≡ status_of status.now) }
{
    match status {
        Status::Sending(other) => channel == other,
        Status::Waiting(waits) => only_send_on(waits, channel),
        _ => false,
    }
}

/// Whether it says that the goroutine waits to receive from the channel, and for nothing else, outside a select.
fn is_receiving(channel: &ChName, status: &Status) -> bool
    ensures { IsTrue result ↔ (waiting (ToReceive channel.now None ∷ []) ≡ status_of status.now) }
{
    match status {
        Status::Receiving(other) => channel == other,
        Status::Waiting(waits) => only_receive_from(waits, channel),
        _ => false,
    }
}

/// Whether it says that the goroutine waits for these.
fn is_waiting(waits: &[Wait], status: &Status) -> bool
    ensures { IsTrue result ↔ (waiting (waits_of waits.now) ≡ status_of status.now) }
{
    match status {
        Status::Sending(channel) => only_send_on(waits, channel),
        Status::Receiving(channel) => only_receive_from(waits, channel),
        Status::Waiting(others) => all_alike(waits, others),
        _ => false,
    }
}

/// Whether these say the same. To wait for one communication outside a select can be said in two ways.
fn same_status(one: &Status, other: &Status) -> bool
    ensures { IsTrue result ↔ (status_of one.now ≡ status_of other.now) }
{
    match one {
        Status::Ready => matches!(other, Status::Ready),
        Status::Sending(channel) => is_sending(channel, other),
        Status::Receiving(channel) => is_receiving(channel, other),
        Status::Waiting(waits) => is_waiting(waits, other),
        Status::Finished => matches!(other, Status::Finished),
    }
}

impl Goroutine {
    /// Whether its frames are those of another that is as far.
    fn has_frames_of(&self, other: &Goroutine) -> bool
        requires { self.now.content.status ≡ other.now.content.status }
        ensures { IsTrue result ↔ (self.now.content.frames ≡ other.now.content.frames) }
    {
        match (&self.status, &other.status) {
            (Status::Finished, Status::Finished) => true,
            _ => self.top.is_like(&other.top) && all_alike(&self.below, &other.below),
        }
    }

    /// Whether its content is that of another.
    pub fn is_like(&self, other: &Goroutine) -> bool
        ensures { IsTrue result ↔ (self.now.content ≡ other.now.content) }
    {
        let counts = self.steps == other.steps
            && self.children == other.children
            && self.channels == other.channels;
        counts
            && same_status(&self.status, &other.status)
            && self.has_frames_of(other)
            && same_lines(&self.text, &other.text)
    }
}
