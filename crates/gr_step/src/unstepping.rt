//! Steps taken back.

ghost use Rattle.std.specs.Prelude.{◌≡◌, ◌≤◌, ◌∷◌, [], if◌then◌else◌, Some, IfErr, OnOk, OnErr, IsOk};
ghost use Rattle.gr_goros.specs.Undoing.{need};
ghost use Rattle.gr_goros.specs.declared.undo.GoUndo.TheVariants.{Parked};
ghost use Rattle.gr_tables.specs.NamedChannels.{contents_of, rooms_of, ChansFit, HasRooms, TookBack, listed};
ghost use Rattle.gr_tables.specs.NamedGoroutines.{goroutines_of, go_rooms_of};
ghost use Rattle.gr_record.specs.Fews.{members};
ghost use Rattle.gr_record.specs.Parts.{begun_in, made_in, begun_by_more, made_by_more};
ghost use Rattle.gr_step.specs.Objects.{contents_in};
ghost use Rattle.gr_record.specs.Effects.{effect_in};
ghost use Rattle.gr_record.specs.declared.record.Form.TheVariants as forms;
ghost use Rattle.gr_record.specs.Records.{GoesFit, NeedNoFrame, CanGoBack};
ghost use Rattle.gr_step.specs.Room.{HasRoom};
ghost use Rattle.gr_step.specs.Unstepping.{GoBack, after_back, IsForgotten, IsUnmade, AreUndone, IsTakenBack};

use crate::objects::{Objects, Run};
use gr_base::{ChName, GoName, Kind, NoMemory};
use gr_channels::ChanUndo;
use gr_goros::{KeptUndo, Spot};
use gr_record::Few;
use gr_record::record::{Beyond, Change, Exchange, Form, Further, More, Passage};
use gr_tables::channels::Channels;
use gr_tables::goroutines::Goroutines;

/// Takes a change of the goroutine of a name back. Refused, no content has changed.
#[inline]
fn undo_at(
    goroutines: &mut Goroutines,
    name: &GoName,
    undo: KeptUndo,
) -> Result<(), (KeptUndo, NoMemory)>
    requires { GoesFit ((name.now, undo) ∷ []) (goroutines_of goroutines.old) }
    ensures ok { OnOk result (GoBack ((name.now, undo) ∷ []) goroutines.old goroutines.new) }
    ensures err { OnErr result (goroutines_of goroutines.new ≡ goroutines_of goroutines.old) }
    ensures returned { IfErr result (λ e. e.0 ≡ undo) }
    ensures succeeds { need undo ≤ go_rooms_of goroutines.old name.now → IsOk result }
{
    let Some(number) = goroutines.number(name) else {
        unreachable!()
    };
    goroutines.undo_kept(number, undo)
}

/// Takes changes of goroutines back, the last first. None of them needs a frame to come back.
fn undo_each(goroutines: &mut Goroutines, undos: Vec<(GoName, KeptUndo)>)
    requires fits { GoesFit undos.items (goroutines_of goroutines.old) }
    requires frames { NeedNoFrame undos.items }
    ensures { GoBack undos.items goroutines.old goroutines.new }
{
    let mut undos = undos;
    while let Some((name, undo)) = undos.pop() {
        undo_at(goroutines, &name, undo).unwrap();
    }
}

/// Takes changes of goroutines back, as `undo_each` does, mostly one.
fn undo_all(goroutines: &mut Goroutines, undos: Few<(GoName, KeptUndo)>)
    requires fits { GoesFit (members undos) (goroutines_of goroutines.old) }
    requires frames { NeedNoFrame (members undos) }
    ensures { GoBack (members undos) goroutines.old goroutines.new }
{
    match undos {
        Few::Empty => {}
        Few::One((name, undo)) => undo_at(goroutines, &name, undo).unwrap(),
        Few::Many(undos) => undo_each(goroutines, undos),
    }
}

/// Takes changes of channels back, the last first. There is room for them.
pub(crate) fn put_back(channels: &mut Channels, undos: Few<(ChName, ChanUndo)>)
    requires fits { ChansFit (members undos) (contents_of channels.old) }
    requires room { HasRooms (members undos) (rooms_of channels.old) }
    ensures { TookBack (members undos) channels.old channels.new }
{
    match undos {
        Few::Empty => {}
        Few::One((name, undo)) => channels.put_back(&name, undo),
        Few::Many(undos) => channels.put_all_back(undos),
    }
}

/// Takes a change of a channel back, if there was one. There is room for it.
pub(crate) fn put_one_back(channels: &mut Channels, channel: &ChName, undo: Option<ChanUndo>)
    requires fits { ChansFit (listed channel.now undo) (contents_of channels.old) }
    requires room { HasRooms (listed channel.now undo) (rooms_of channels.old) }
    ensures { TookBack (listed channel.now undo) channels.old channels.new }
{
    if let Some(undo) = undo {
        channels.put_back(channel, undo);
    }
}

/// Makes room for taking a change of a channel back, if there was one. No content changes.
fn make_room(
    channels: &mut Channels,
    channel: &ChName,
    undo: &Option<ChanUndo>,
) -> Result<(), NoMemory>
    requires { ChansFit (listed channel.now undo.now) (contents_of channels.old) }
    ensures contents { contents_of channels.new ≡ contents_of channels.old }
    ensures ok { OnOk result (HasRooms (listed channel.now undo.now) (rooms_of channels.new)) }
    ensures succeeds { HasRooms (listed channel.now undo.now) (rooms_of channels.old) → IsOk result }
{
    match undo {
        Some(undo) => channels.make_room_for(channel, undo),
        None => Ok(()),
    }
}

/// Without the goroutine of a name that a step started, if it started one.
fn forget(goroutines: &mut Goroutines, begun: Option<GoName>)
    ensures { IsForgotten begun (goroutines_of goroutines.old) goroutines.new }
{
    let Some(name) = begun else { return };
    let Some(number) = goroutines.number(&name) else {
        return;
    };
    let _ = goroutines.remove(number);
}

/// Without the channel of a name that a step made, if it made one.
fn unmake(channels: &mut Channels, made: Option<ChName>)
    ensures { IsUnmade made channels.old channels.new }
{
    if let Some(name) = made {
        channels.remove(&name);
    }
}

impl Objects {
    /// Takes the step of a goroutine back, where what it wrote stands. It takes memory only where there is no room; refused,
    /// nothing has changed, and the change is handed back.
    pub(crate) fn undo_change(
        &mut self,
        go: &GoName,
        change: Change,
    ) -> Result<(), (Change, NoMemory)>
        requires { CanGoBack go.now change (contents_in self.old) }
        ensures back { OnOk result (IsTakenBack go.now change self.old self.new) }
        ensures err { OnErr result (contents_in self.new ≡ contents_in self.old) }
        ensures returned { IfErr result (λ e. e.0 ≡ change) }
        ensures succeeds { HasRoom go.now change self.old → IsOk result }
    {
        match change.form {
            Form::Alone(kind, own) => match undo_at(&mut self.goroutines, go, own) {
                Ok(()) => Ok(()),
                Err((own, error)) => Err((Change::alone(kind, own), error)),
            },
            Form::WaitsToSend(_, channel, spot) => {
                self.take_wait_back(go, &channel, ChanUndo::ParkedSender, spot);
                Ok(())
            }
            Form::WaitsToReceive(_, channel, spot) => {
                self.take_wait_back(go, &channel, ChanUndo::ParkedReceiver, spot);
                Ok(())
            }
            Form::Passes(kind, passage) => self.take_passage_back(go, kind, passage),
            Form::Exchanges(kind, exchange) => self.take_exchange_back(go, kind, exchange),
            Form::Further(kind, further) => self.take_beyond_back(go, kind, further),
        }
    }

    /// Takes back a step that communicated over one channel and met nobody.
    #[inline(never)]
    fn take_passage_back(
        &mut self,
        go: &GoName,
        kind: Kind,
        passage: Box<Passage>,
    ) -> Result<(), (Change, NoMemory)>
        requires { CanGoBack go.now (effect_in (forms.Passes kind passage)) (contents_in self.old) }
        ensures back { OnOk result (IsTakenBack go.now (effect_in (forms.Passes kind passage)) self.old self.new) }
        ensures err { OnErr result (contents_in self.new ≡ contents_in self.old) }
        ensures returned { IfErr result (λ e. e.0 ≡ effect_in (forms.Passes kind passage)) }
        ensures succeeds { HasRoom go.now (effect_in (forms.Passes kind passage)) self.old → IsOk result }
    {
        let channel = passage.contact.operation.channel();
        if let Err(error) = make_room(&mut self.channels, channel, &passage.undo) {
            let form = Form::Passes(kind, passage);
            return Err((Change { form }, error));
        }
        let Passage { own, contact, undo } = Box::into_inner(passage);
        put_one_back(&mut self.channels, contact.operation.channel(), undo);
        undo_at(&mut self.goroutines, go, own).unwrap();
        Ok(())
    }

    /// Takes back a step that communicated over one channel with a goroutine which waited for this alone.
    #[inline(never)]
    fn take_exchange_back(
        &mut self,
        go: &GoName,
        kind: Kind,
        exchange: Box<Exchange>,
    ) -> Result<(), (Change, NoMemory)>
        requires { CanGoBack go.now (effect_in (forms.Exchanges kind exchange)) (contents_in self.old) }
        ensures back { OnOk result (IsTakenBack go.now (effect_in (forms.Exchanges kind exchange)) self.old self.new) }
        ensures err { OnErr result (contents_in self.new ≡ contents_in self.old) }
        ensures returned { IfErr result (λ e. e.0 ≡ effect_in (forms.Exchanges kind exchange)) }
        ensures succeeds { HasRoom go.now (effect_in (forms.Exchanges kind exchange)) self.old → IsOk result }
    {
        let channel = exchange.passage.contact.operation.channel();
        if let Err(error) = make_room(&mut self.channels, channel, &exchange.passage.undo) {
            let form = Form::Exchanges(kind, exchange);
            return Err((Change { form }, error));
        }
        let Exchange { passage, met } = Box::into_inner(exchange);
        let Passage { own, contact, undo } = passage;
        put_one_back(&mut self.channels, contact.operation.channel(), undo);
        self.take_both_back(go, own, met);
        Ok(())
    }

    /// Takes changes of a goroutine and of the one that it met back. Neither needs a frame to come back.
    fn take_both_back(&mut self, go: &GoName, own: KeptUndo, met: (GoName, KeptUndo))
        requires fits { GoesFit ((go.now, own) ∷ met ∷ []) (goroutines_of self.old.goroutines) }
        requires frames { NeedNoFrame ((go.now, own) ∷ met ∷ []) }
        ensures goroutines { GoBack ((go.now, own) ∷ met ∷ []) self.old.goroutines self.new.goroutines }
        ensures channels { self.new.channels ≡ self.old.channels }
        ensures run { self.new.run ≡ self.old.run }
    {
        undo_all(&mut self.goroutines, Few::One(met));
        undo_at(&mut self.goroutines, go, own).unwrap();
    }

    /// Takes back what a step did whose goroutine came to wait in a queue of a channel. There is room for it.
    #[inline(never)]
    fn take_wait_back(&mut self, go: &GoName, channel: &ChName, undo: ChanUndo, spot: Spot)
        requires fits { GoesFit ((go.now, Parked spot) ∷ []) (goroutines_of self.old.goroutines) }
        requires channels { ChansFit ((channel.now, undo) ∷ []) (contents_of self.old.channels) }
        requires room { HasRooms ((channel.now, undo) ∷ []) (rooms_of self.old.channels) }
        ensures goroutines { GoBack ((go.now, Parked spot) ∷ []) self.old.goroutines self.new.goroutines }
        ensures channels { TookBack ((channel.now, undo) ∷ []) self.old.channels self.new.channels }
        ensures run { self.new.run ≡ self.old.run }
    {
        self.channels.put_back(channel, undo);
        undo_at(&mut self.goroutines, go, KeptUndo::parked(spot)).unwrap();
    }

    /// Takes back what a step did that reached beyond its goroutine. Refused, nothing has changed.
    #[inline(never)]
    fn take_beyond_back(
        &mut self,
        go: &GoName,
        kind: Kind,
        further: Box<Further>,
    ) -> Result<(), (Change, NoMemory)>
        requires { CanGoBack go.now (effect_in (forms.Further kind further)) (contents_in self.old) }
        ensures back { OnOk result (IsTakenBack go.now (effect_in (forms.Further kind further)) self.old self.new) }
        ensures err { OnErr result (contents_in self.new ≡ contents_in self.old) }
        ensures returned { IfErr result (λ e. e.0 ≡ effect_in (forms.Further kind further)) }
        ensures succeeds { HasRoom go.now (effect_in (forms.Further kind further)) self.old → IsOk result }
    {
        if let Err(error) = self.channels.make_room(further.beyond.channels.as_slice()) {
            let form = Form::Further(kind, further);
            return Err((Change { form }, error));
        }
        let Further { own, beyond } = Box::into_inner(further);
        self.take_rest_back(go, own, beyond);
        Ok(())
    }

    /// Takes back what a step did that reached beyond its goroutine, where no frame has to come back, and there is room for the
    /// rest.
    fn take_rest_back(&mut self, go: &GoName, own: KeptUndo, beyond: Beyond)
        requires fits { GoesFit ((go.now, own) ∷ members beyond.met) (goroutines_of self.old.goroutines) }
        requires frames { NeedNoFrame ((go.now, own) ∷ members beyond.met) }
        requires channels { ChansFit (members beyond.channels) (contents_of self.old.channels) }
        requires room { HasRooms (members beyond.channels) (rooms_of self.old.channels) }
        ensures goroutines { IsForgotten (begun_in beyond)
            (after_back ((go.now, own) ∷ members beyond.met) self.old.goroutines) self.new.goroutines }
        ensures channels { AreUndone (made_in beyond) (members beyond.channels) self.old.channels self.new.channels }
        ensures run { self.new.run ≡ (if beyond.stops then Run.Live else self.old.run) }
    {
        put_back(&mut self.channels, beyond.channels);
        undo_all(&mut self.goroutines, beyond.met);
        undo_at(&mut self.goroutines, go, own).unwrap();
        self.without(beyond.more);
        if beyond.stops {
            self.run = Run::Live;
        }
    }

    /// Without the goroutine that a step started, and the channel that it made.
    fn without(&mut self, more: Option<Box<More>>)
        ensures goroutines { IsForgotten (begun_by_more more) (goroutines_of self.old.goroutines) self.new.goroutines }
        ensures channels { IsUnmade (made_by_more more) self.old.channels self.new.channels }
        ensures run { self.new.run ≡ self.old.run }
    {
        let Some(more) = more else {
            return;
        };
        let more = Box::into_inner(more);
        forget(&mut self.goroutines, more.begins);
        unmake(&mut self.channels, more.makes);
    }
}
