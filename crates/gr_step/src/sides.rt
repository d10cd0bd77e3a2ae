//! What the clauses of a select look at.

ghost use Rattle.std.specs.Prelude.{◌≡◌, ◌++◌, [], true, false, IfOk, OnOk};
ghost use Rattle.std.specs.List.{list_any, list_all, flat_map};
ghost use Rattle.gr_rules.specs.Frames.{Frame};
ghost use Rattle.gr_rules.specs.States.{same};
ghost use Rattle.gr_rules.specs.Touches as rules;
ghost use Rattle.gr_laws.specs.Touched as laws;
ghost use Rattle.gr_code.specs.CodeFrames.{CodeFrame};
ghost use Rattle.gr_refine.specs.Contents.{state_of};
ghost use Rattle.gr_refine.specs.Partners.{is_made_for};
ghost use Rattle.gr_goros.specs.Views.{communication_of, communications_of};
ghost use Rattle.gr_tables.specs.NamedChannels.{contents_of};
ghost use Rattle.gr_step.specs.Parks.{with_channels};

use crate::touching::{receive_side, send_side};
use gr_base::{ChName, NoMemory, Object};
use gr_goros::Clause;
use gr_tables::channels::Channels;
use std::alloc::Global;

/// Whether the object is one of these.
fn is_among(object: &Object, objects: &[Object]) -> bool
    ensures { result ≡ list_any (same object.now) objects.now }
{
    objects.contains(object)
}

/// These objects, each once, but for those that were seen.
pub(crate) fn each_once(
    alloc: Global,
    seen: &[Object],
    objects: &[Object],
) -> Result<Vec<Object>, NoMemory>
    ensures { IfOk result (λ kept. kept.items ≡ laws.each_once seen.now objects.now) }
{
    let room = objects.len().saturating_sub(seen.len());
    let mut kept = Vec::with_capacity(alloc, room)?;
    for object in objects {
        if is_among(object, seen) {
            continue;
        }
        if is_among(object, &kept) {
            continue;
        }
        kept.push(object.copy(alloc)?)?;
    }
    Ok(kept)
}

/// What a communication looks at, to find whether it can proceed. Its channel is there, where it is on one.
pub(crate) fn side(
    alloc: Global,
    channels: &Channels,
    communication: &Clause,
) -> Result<Vec<Object>, NoMemory>
    requires { is_made_for (with_channels (contents_of channels.now)) (communication_of communication.now) ≡ true }
    ensures { IfOk result (λ touched. (frame : CodeFrame → Frame)
        → touched.items ≡ rules.side (state_of frame (with_channels (contents_of channels.now)))
        (communication_of communication.now)) }
{
    match communication {
        Clause::Send {
            channel: Some(name),
            ..
        } => send_side(alloc, name, channels.get(name).unwrap()),
        Clause::Receive {
            channel: Some(name),
            ..
        } => receive_side(alloc, name, channels.get(name).unwrap()),
        _ => Ok(Vec::new(alloc)),
    }
}

/// What communications look at, one after the other.
pub(crate) fn sides(
    alloc: Global,
    channels: &Channels,
    communications: &[Clause],
) -> Result<Vec<Object>, NoMemory>
    requires { list_all (is_made_for (with_channels (contents_of channels.now))) (communications_of communications.now) ≡ true }
    ensures { IfOk result (λ touched. (frame : CodeFrame → Frame)
        → touched.items ≡ flat_map (rules.side (state_of frame (with_channels (contents_of channels.now))))
        (communications_of communications.now)) }
{
    let mut touched = Vec::new(alloc);
    for communication in communications {
        let mut looked = side(alloc, channels, communication)?;
        touched.append(&mut looked)?;
    }
    Ok(touched)
}
