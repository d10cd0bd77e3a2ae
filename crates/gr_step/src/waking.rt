//! Goroutines that are ready again, and wait on no channel any more.

ghost use Rattle.std.specs.Prelude.{◌≡◌, ◌≤◌, map, ◌∷◌, [], true, vec_len, vec_capacity, IfOk, OnOk, OnErr};
ghost use Rattle.std.specs.List.{list_all};
ghost use Rattle.gr_rules.specs.Actors as rules;
ghost use Rattle.gr_tables.specs.NamedChannels.{contents_of, rooms_of, At, IsOpen, ChansFit, HasRooms, TookBack, Follows};
ghost use Rattle.gr_tables.specs.NamedChannels.{GoesBack, AreAtGates, MoreAtGates};
ghost use Rattle.gr_tables.specs.NamedGoroutines.{goroutines_of};
ghost use Rattle.gr_step.specs.Wakes.{waits_known, all_waits_known, left_by_close, without_each, is_live_there, with_one_woken};
ghost use Rattle.gr_step.specs.Wakes.{with_each_woken, IsShut, LeadsOver};

use crate::channels_named::channels_awaited;
use gr_base::{ChName, GoName, NoMemory};
use gr_channels::ChanUndo;
use gr_goros::KeptUndo;
use gr_tables::channels::Channels;
use gr_tables::goroutines::Goroutines;
use std::alloc::Global;
use std::slice;

/// The channels on which a goroutine waits, each once, but for those that were seen.
fn channels_of(
    alloc: Global,
    goroutines: &Goroutines,
    seen: &[ChName],
    go: &GoName,
) -> Result<Vec<ChName>, NoMemory>
    ensures { IfOk result (λ names. names.items
        ≡ rules.channels_but seen.now (waits_known (goroutines_of goroutines.now go.now))) }
{
    let Some(number) = goroutines.number(go) else {
        return Ok(Vec::new(alloc));
    };
    let Some(goroutine) = goroutines.get(number) else {
        return Ok(Vec::new(alloc));
    };
    channels_awaited(alloc, seen, goroutine.status())
}

/// A channel, and then the others on which these goroutines wait, each once.
pub(crate) fn all_channels(
    alloc: Global,
    goroutines: &Goroutines,
    channel: &ChName,
    names: &[GoName],
) -> Result<Vec<ChName>, NoMemory>
    ensures { IfOk result (λ all. all.items ≡ channel.now
        ∷ rules.channels_but (channel.now ∷ []) (all_waits_known (goroutines_of goroutines.now) names.now)) }
{
    let mut seen = Vec::new(alloc);
    seen.push(channel.copy(alloc)?)?;
    for go in names {
        let mut more = channels_of(alloc, goroutines, &seen, go)?;
        seen.append(&mut more)?;
    }
    Ok(seen)
}

/// Takes goroutines out of the queues of the channels on which they wait, but for one channel, after `done` was done in the
/// same step. Refused, all of it is taken back, `done` too.
fn withdraw_each(
    channels: &mut Channels,
    alloc: Global,
    goroutines: &Goroutines,
    but: &ChName,
    names: &[GoName],
    done: Vec<(ChName, ChanUndo)>,
) -> Result<Vec<(ChName, ChanUndo)>, NoMemory>
    requires fits { ChansFit done.items (contents_of channels.old) }
    requires room { HasRooms done.items (rooms_of channels.old) }
    ensures contents { OnOk result (contents_of channels.new
        ≡ without_each but.now (goroutines_of goroutines.now) names.now (contents_of channels.old)) }
    ensures back { IfOk result (λ undos. Follows done.items undos.items channels.old channels.new) }
    ensures gates { IfOk result (λ undos. MoreAtGates
        (left_by_close but.now (goroutines_of goroutines.now) names.now) done.items undos.items) }
    ensures err { OnErr result (TookBack done.items channels.old channels.new) }
{
    let mut undos = done;
    for go in names {
        let others = match channels_of(alloc, goroutines, slice::from_ref(but), go) {
            Ok(others) => others,
            Err(error) => {
                channels.put_all_back(undos);
                return Err(error);
            }
        };
        undos = channels.withdraw_after(undos, &others, go)?;
    }
    Ok(undos)
}

/// Closes a channel, and takes goroutines out of the queues of all others. Refused, no content has changed.
pub(crate) fn shut(
    channels: &mut Channels,
    alloc: Global,
    goroutines: &Goroutines,
    channel: &ChName,
    names: &[GoName],
) -> Result<Vec<(ChName, ChanUndo)>, NoMemory>
    requires { At IsOpen (contents_of channels.old channel.now) }
    ensures contents { OnOk result (IsShut channel.now (goroutines_of goroutines.now) names.now (contents_of channels.old)
        (contents_of channels.new)) }
    ensures back { IfOk result (λ undos. GoesBack undos.items channels.old channels.new) }
    ensures gates { IfOk result (λ undos. AreAtGates
        (left_by_close channel.now (goroutines_of goroutines.now) names.now) undos.items) }
    ensures err { OnErr result (contents_of channels.new ≡ contents_of channels.old) }
{
    let mut done = Vec::with_capacity(alloc, 1)?;
    let name = channel.copy(alloc)?;
    let undo = channels.close(channel)?;
    done.push_reserved((name, undo));
    withdraw_each(channels, alloc, goroutines, channel, names, done)
}

/// Makes a goroutine ready again.
fn wake(goroutines: &mut Goroutines, go: &GoName) -> KeptUndo
    requires { is_live_there (goroutines_of goroutines.old go.now) ≡ true }
    ensures woken { goroutines_of goroutines.new ≡ with_one_woken (goroutines_of goroutines.old) go.now }
    ensures back { LeadsOver ((go.now, result) ∷ []) (goroutines_of goroutines.old) (goroutines_of goroutines.new) }
{
    let number = goroutines.number(go).unwrap();
    KeptUndo::new(goroutines.retry(number))
}

/// Makes goroutines ready again, one after the other, and tells their changes in a list that has room for them.
pub(crate) fn wake_each(
    goroutines: &mut Goroutines,
    names: Vec<GoName>,
    met: Vec<(GoName, KeptUndo)>,
) -> Vec<(GoName, KeptUndo)>
    requires live { list_all (λ n. is_live_there (goroutines_of goroutines.old n)) names.items ≡ true }
    requires none { met.items ≡ [] }
    requires room { vec_len names ≤ vec_capacity met }
    ensures woken { goroutines_of goroutines.new ≡ with_each_woken names.items (goroutines_of goroutines.old) }
    ensures back { LeadsOver result.items (goroutines_of goroutines.old) (goroutines_of goroutines.new) }
    ensures names { map (λ e. e.0) result.items ≡ names.items }
{
    let mut met = met;
    for go in names {
        let undo = wake(goroutines, &go);
        met.push_reserved((go, undo));
    }
    met
}
