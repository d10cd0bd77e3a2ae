//! Who waits on a channel.

ghost use Rattle.std.specs.Prelude.{◌≡◌, ◌++◌, map, IfOk, OnOk};
ghost use Rattle.gr_rules.specs.Communications as rules;
ghost use Rattle.gr_refine.specs.Closing as closing;

use gr_base::{GoName, NoMemory};
use gr_channels::Channel;
use std::alloc::Global;
use std::collections::BTreeSet;

/// Adds those who wait to send, in their order.
fn push_senders(alloc: Global, names: &mut Vec<GoName>, channel: &Channel) -> Result<(), NoMemory>
    ensures { OnOk result (names.new.items ≡ names.old.items ++ map (λ w. w.go) channel.now.content.senders) }
{
    for place in 0..usize::MAX {
        let Some(waiter) = channel.sender(place) else {
            return Ok(());
        };
        names.push(waiter.go.copy(alloc)?)?;
    }
    Err(NoMemory)
}

/// Adds those who wait to receive, in their order.
fn push_receivers(alloc: Global, names: &mut Vec<GoName>, channel: &Channel) -> Result<(), NoMemory>
    ensures { OnOk result (names.new.items ≡ names.old.items ++ map (λ w. w.go) channel.now.content.receivers) }
{
    for place in 0..usize::MAX {
        let Some(waiter) = channel.receiver(place) else {
            return Ok(());
        };
        names.push(waiter.go.copy(alloc)?)?;
    }
    Err(NoMemory)
}

/// These names, each once, where it comes last.
fn once(alloc: Global, names: &[GoName]) -> Result<Vec<GoName>, NoMemory>
    ensures { IfOk result (λ kept. kept.items ≡ rules.once names.now) }
{
    let mut seen = BTreeSet::new(alloc);
    let mut kept = Vec::new(alloc);
    let mut place = names.len();
    while place > 0 {
        place -= 1;
        let name = &names[place];
        let is_new = seen.insert(name.copy(alloc)?)?;
        if !is_new {
            continue;
        }
        kept.push(name.copy(alloc)?)?;
    }
    kept.reverse();
    Ok(kept)
}

/// The goroutines that wait on a channel, each once.
pub(crate) fn waiting_on(alloc: Global, channel: &Channel) -> Result<Vec<GoName>, NoMemory>
    ensures { IfOk result (λ names. names.items ≡ closing.waiting_on channel.now.content) }
{
    let mut names = Vec::new(alloc);
    push_senders(alloc, &mut names, channel)?;
    push_receivers(alloc, &mut names, channel)?;
    once(alloc, &names)
}
