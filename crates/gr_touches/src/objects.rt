//! The objects that a step touched, by its record.

ghost use Rattle.std.specs.Prelude.{◌≡◌, ◌∷◌, ◌<◌, [], List, Some, None, if◌then◌else◌, MatchOption, IfSome, option_copied};
ghost use Rattle.std.specs.Prelude.{option_map};
ghost use Rattle.gr_base.specs.declared.objects.Object.TheVariants as variants;
ghost use Rattle.gr_record.specs.Conflicts.{written_by, read_by};
ghost use Rattle.gr_record.specs.Parts.{channel_in, parts_before, partner_before, slot_before, read_by_more, written_by_more};
ghost use Rattle.gr_record.specs.Parts.{reads_in, writes_in};
ghost use Rattle.gr_touches.specs.ObjectRefs.{seen};
ghost use Rattle.gr_touches.specs.Told.{named, seen_in, count_in, read_on, written_on, written_on_with};

use crate::object_ref::ObjectRef;
use gr_base::{ChName, GoName, Object};
use gr_record::Record;
use gr_record::record::{Beyond, Contact, Form, Parts, Touched};
use gr_record::slot::SlotPlace;

/// Objects that a step read or wrote, by borrowed names. They are `Run` or its goroutine, parts of one channel, a goroutine
/// that it met, and others, in this order.
#[derive(Clone, Copy)]
pub struct TouchedObjects<'a> {
    front: Option<ObjectRef<'a>>,
    gate: Option<&'a ChName>,
    head: Option<&'a ChName>,
    tail: Option<&'a ChName>,
    slot: Option<(&'a ChName, u32)>,
    partner: Option<&'a GoName>,
    pub others: &'a [Object],
}

/// The slot of a channel at a place, if there is one.
fn slot_at(channel: &ChName, place: SlotPlace) -> Option<(&ChName, u32)>
    ensures { (os : List Object) → named (λ s. variants.Slot s.0.now s.1) result os ≡ slot_before channel.now place os }
{
    match place.get() {
        Some(place) => Some((channel, place)),
        None => None,
    }
}

impl<'a> TouchedObjects<'a> {
    /// Objects that belong to no channel.
    fn without_channel(
        front: Option<ObjectRef<'a>>,
        partner: Option<&'a GoName>,
        others: &'a [Object],
    ) -> TouchedObjects<'a>
        ensures { seen_in result ≡ named seen front.entry (partner_before (option_copied partner.entry) others.now) }
    {
        TouchedObjects {
            front,
            gate: None,
            head: None,
            tail: None,
            slot: None,
            partner,
            others,
        }
    }

    /// Objects with parts of a channel among them.
    fn with_channel(
        front: Option<ObjectRef<'a>>,
        parts: Parts,
        channel: &'a ChName,
        place: SlotPlace,
        partner: Option<&'a GoName>,
        others: &'a [Object],
    ) -> TouchedObjects<'a>
        ensures { seen_in result ≡ named seen front.entry
            (parts_before parts place (Some channel.now) (partner_before (option_copied partner.entry) others.now)) }
    {
        let (named, slot) = (Some(channel), slot_at(channel, place));
        let rest = TouchedObjects {
            front,
            gate: None,
            head: None,
            tail: None,
            slot: None,
            partner,
            others,
        };
        match parts {
            Parts::Nothing => rest,
            Parts::Gate => TouchedObjects {
                gate: named,
                ..rest
            },
            Parts::Entrance => TouchedObjects {
                tail: named,
                slot,
                ..rest
            },
            Parts::Exit => TouchedObjects {
                head: named,
                slot,
                ..rest
            },
            Parts::GateAndExit => TouchedObjects {
                gate: named,
                head: named,
                slot,
                ..rest
            },
            Parts::All => TouchedObjects {
                gate: named,
                head: named,
                tail: named,
                slot,
                ..rest
            },
        }
    }

    /// Takes the first of the objects off; `None` where only `others` are left.
    #[inline]
    pub(crate) fn next(&mut self) -> Option<ObjectRef<'a>>
        ensures first { MatchOption result (seen_in self.old ≡ self.new.others.now) (λ first. seen_in self.old ≡ seen first
            ∷ seen_in self.new) }
        ensures fewer { IfSome result (λ _. count_in self.new < count_in self.old) }
        ensures others { self.new.others ≡ self.old.others }
    {
        if let Some(front) = self.front {
            self.front = None;
            return Some(front);
        }
        if let Some(channel) = self.gate {
            self.gate = None;
            return Some(ObjectRef::Gate(channel));
        }
        if let Some(channel) = self.head {
            self.head = None;
            return Some(ObjectRef::Head(channel));
        }
        if let Some(channel) = self.tail {
            self.tail = None;
            return Some(ObjectRef::Tail(channel));
        }
        if let Some((channel, place)) = self.slot {
            self.slot = None;
            return Some(ObjectRef::Slot(channel, place));
        }
        let partner = self.partner?;
        self.partner = None;
        Some(ObjectRef::Go(partner))
    }

    /// The first of the objects, and the rest; `None` where only `others` are left.
    pub fn split_first(self) -> Option<(ObjectRef<'a>, TouchedObjects<'a>)>
        ensures first { MatchOption result (seen_in self.entry ≡ self.entry.others.now) (λ r. seen_in self.entry ≡ seen r.0
            ∷ seen_in r.1) }
        ensures fewer { IfSome result (λ r. count_in r.1 < count_in self.entry) }
    {
        let mut rest = self;
        let first = rest.next()?;
        Some((first, rest))
    }
}

/// `Run`, which a step reads unless it writes it.
fn run_unless<'a>(stops: bool) -> Option<ObjectRef<'a>>
    ensures { (os : List Object) → named seen result os ≡ (if stops then os else variants.Run ∷ os) }
{
    if stops { None } else { Some(ObjectRef::Run) }
}

/// The objects beside its channel that a step read.
pub(crate) fn others_read(beyond: &Beyond) -> &[Object]
    ensures { result.now ≡ read_by_more beyond.now.more }
{
    match &beyond.more {
        Some(more) => more.reads.as_slice(),
        None => &[],
    }
}

/// The objects beside its channel that a step wrote.
pub(crate) fn others_written(beyond: &Beyond) -> &[Object]
    ensures { result.now ≡ written_by_more beyond.now.more }
{
    match &beyond.more {
        Some(more) => more.writes.as_slice(),
        None => &[],
    }
}

/// The named parts of the channel of a step, with other objects.
#[tactic(auto, using(crate::proofs::ToldLemmas::no_channel))]
fn told<'a>(
    front: Option<ObjectRef<'a>>,
    beyond: &'a Beyond,
    parts: Parts,
    partner: Option<&'a GoName>,
    others: &'a [Object],
) -> TouchedObjects<'a>
    ensures { seen_in result ≡ named seen front.entry
        (parts_before parts beyond.now.touched.slot (option_map channel_in beyond.now.operation)
        (partner_before (option_copied partner.entry) others.now)) }
{
    let Some(operation) = &beyond.operation else {
        return TouchedObjects::without_channel(front, partner, others);
    };
    let place = beyond.touched.slot;
    TouchedObjects::with_channel(front, parts, operation.channel(), place, partner, others)
}

/// Parts of a channel.
pub(crate) fn parts_of(channel: &ChName, parts: Parts, slot: SlotPlace) -> TouchedObjects<'_>
    ensures { seen_in result ≡ parts_before parts slot (Some channel.now) [] }
{
    TouchedObjects::with_channel(None, parts, channel, slot, None, &[])
}

/// The parts of its channel that a step wrote.
pub(crate) fn parts_written(beyond: &Beyond) -> TouchedObjects<'_>
    ensures { seen_in result ≡ parts_before beyond.now.touched.written beyond.now.touched.slot
        (option_map channel_in beyond.now.operation) [] }
{
    told(None, beyond, beyond.touched.written, None, &[])
}

/// The objects that a step read. The step used one channel, and met no partner.
pub(crate) fn read_in(channel: &ChName, touched: Touched) -> TouchedObjects<'_>
    ensures { seen_in result ≡ variants.Run ∷ read_on channel.now touched }
{
    let front = Some(ObjectRef::Run);
    TouchedObjects::with_channel(front, touched.read, channel, touched.slot, None, &[])
}

/// The objects that a step of goroutine `own` wrote. The step used one channel, and met no partner.
fn written_in<'a>(own: ObjectRef<'a>, channel: &'a ChName, touched: Touched) -> TouchedObjects<'a>
    ensures { seen_in result ≡ seen own.entry ∷ written_on channel.now touched }
{
    TouchedObjects::with_channel(Some(own), touched.written, channel, touched.slot, None, &[])
}

/// The objects that a step of goroutine `own` wrote. The step used one channel, and met a partner.
fn written_with<'a>(
    own: ObjectRef<'a>,
    contact: &'a Contact,
    partner: &'a GoName,
) -> TouchedObjects<'a>
    ensures { seen_in result ≡ seen own.entry
        ∷ written_on_with (channel_in contact.now.operation) contact.now.touched partner.now }
{
    let (channel, touched) = (contact.operation.channel(), contact.touched);
    let partner = Some(partner);
    TouchedObjects::with_channel(
        Some(own),
        touched.written,
        channel,
        touched.slot,
        partner,
        &[],
    )
}

/// The objects that a step which reached further read and did not write.
pub(crate) fn read_beyond(beyond: &Beyond) -> TouchedObjects<'_>
    ensures { seen_in result ≡ (if beyond.now.stops then reads_in beyond.now else variants.Run ∷ reads_in beyond.now) }
{
    let front = run_unless(beyond.stops);
    let parts = beyond.touched.read;
    told(front, beyond, parts, None, others_read(beyond))
}

/// The objects that a step read and did not write.
pub fn reads(step: &Record) -> TouchedObjects<'_>
    ensures { seen_in result ≡ read_by step.now }
{
    match step.change.form() {
        Form::Alone(_, _) => TouchedObjects::without_channel(Some(ObjectRef::Run), None, &[]),
        Form::WaitsToSend(slot, channel, _) => read_in(channel, Touched::to_send(*slot)),
        Form::WaitsToReceive(slot, channel, _) => read_in(channel, Touched::to_receive(*slot)),
        Form::Passes(_, passage) => {
            let contact = &passage.contact;
            read_in(contact.operation.channel(), contact.touched)
        }
        Form::Exchanges(_, exchange) => {
            let contact = &exchange.passage.contact;
            read_in(contact.operation.channel(), contact.touched)
        }
        Form::Further(_, further) => read_beyond(&further.beyond),
    }
}

/// The objects that a step wrote.
pub fn writes(step: &Record) -> TouchedObjects<'_>
    ensures { seen_in result ≡ written_by step.now }
{
    let own = ObjectRef::Go(&step.id.go);
    match step.change.form() {
        Form::Alone(_, _) => TouchedObjects::without_channel(Some(own), None, &[]),
        Form::WaitsToSend(slot, channel, _) => written_in(own, channel, Touched::to_send(*slot)),
        Form::WaitsToReceive(slot, channel, _) => {
            written_in(own, channel, Touched::to_receive(*slot))
        }
        Form::Passes(_, passage) => {
            let contact = &passage.contact;
            written_in(own, contact.operation.channel(), contact.touched)
        }
        Form::Exchanges(_, exchange) => written_with(
            own,
            &exchange.passage.contact,
            &exchange.met.0,
        ),
        Form::Further(_, further) => {
            let beyond = &further.beyond;
            let partner = beyond.partner.as_ref();
            let parts = beyond.touched.written;
            told(Some(own), beyond, parts, partner, others_written(beyond))
        }
    }
}
