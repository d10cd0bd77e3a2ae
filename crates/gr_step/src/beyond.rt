//! What steps reach beyond their goroutine.

ghost use Rattle.std.specs.Prelude.{◌≡◌, ◌++◌, ◌∷◌, [], List, Some, None, false, map, option_map, IfOk};
ghost use Rattle.gr_base.specs.declared.objects.Object.TheVariants as objects;
ghost use Rattle.gr_step.specs.Beyonds.{Reaches, ReachesAll};
ghost use Rattle.gr_record.specs.Effects.{reached_by_passage};
ghost use Rattle.gr_record.specs.Parts.{channel_in, read_by_more, written_by_more, begun_by_more, made_by_more, AreTouched};
ghost use Rattle.gr_step.specs.Preparing.{before_exchange, IsReached};
ghost use Rattle.gr_record.specs.Records.{operation_of};

use crate::touching::{push_gates, untouched};
use gr_base::{ChName, GoName, NoMemory, Object};
use gr_channels::ChanUndo;
use gr_goros::KeptUndo;
use gr_record::Few;
use gr_record::record::{Beyond, Contact, Exchange, Further, More, Operation, Passage, Touched};
use std::alloc::Global;

/// What a step reached that met nobody and changed no channel, by what it did with a channel, and whether it ended or stopped
/// the program.
pub(crate) fn with_more(
    alloc: Global,
    operation: Option<Operation>,
    more: More,
    stops: bool,
) -> Result<Box<Further>, NoMemory>
    ensures { IfOk result (λ further.
        ReachesAll operation more.reads.items more.writes.items more.begins more.makes stops further.value.beyond) }
{
    let more = Box::new(alloc, more)?;
    let beyond = Beyond {
        operation,
        touched: untouched(),
        partner: None,
        met: Few::Empty,
        channels: Few::Empty,
        more: Some(more),
        stops,
    };
    Further::new(alloc, beyond)
}

/// What a step reached that did this with a channel, touched these parts of it, and reached nothing else.
pub(crate) fn waited(
    alloc: Global,
    operation: Option<Operation>,
    touched: Touched,
) -> Result<Box<Further>, NoMemory>
    ensures { (reads writes : List Object) → AreTouched touched (option_map channel_in operation) reads writes
        → IfOk result (λ further. Reaches operation reads writes false further.value.beyond) }
{
    let beyond = Beyond {
        operation,
        touched,
        partner: None,
        met: Few::Empty,
        channels: Few::Empty,
        more: None,
        stops: false,
    };
    Further::new(alloc, beyond)
}

/// What a step reached that met nobody, by what it did with a channel and touched of it, before it changes anything.
pub(crate) fn passage(alloc: Global, contact: Contact) -> Result<Box<Passage>, NoMemory>
    ensures told { (reads writes : List Object) → AreTouched contact.touched (Some (channel_in contact.operation)) reads writes
        → IfOk result (λ passage. IsReached (operation_of contact.operation) reads writes (reached_by_passage passage.value)) }
    ensures channel { IfOk result (λ passage. channel_in passage.value.contact.operation ≡ channel_in contact.operation) }
{
    Passage::new(alloc, contact)
}

/// The gates of channels, if there are any.
fn gates_too(alloc: Global, channels: &[ChName]) -> Result<Option<Box<More>>, NoMemory>
    ensures reads { IfOk result (λ more. read_by_more more ≡ []) }
    ensures writes { IfOk result (λ more. written_by_more more ≡ map objects.Gate channels.now) }
    ensures begins { IfOk result (λ more. begun_by_more more ≡ None) }
    ensures makes { IfOk result (λ more. made_by_more more ≡ None) }
{
    if channels.is_empty() {
        return Ok(None);
    }
    let mut writes = Vec::with_capacity(alloc, channels.len())?;
    push_gates(alloc, &mut writes, channels)?;
    let more = More {
        reads: Vec::new(alloc),
        writes,
        begins: None,
        makes: None,
    };
    Ok(Some(Box::new(alloc, more)?))
}

/// What a step reached that met a goroutine which waited for this alone, by what it did with a channel and touched of it, before
/// it changes anything.
#[inline(always)]
pub(crate) fn exchange(
    alloc: Global,
    contact: Contact,
    partner: &GoName,
) -> Result<Box<Exchange>, NoMemory>
    ensures told { (reads writes : List Object) → AreTouched contact.touched (Some (channel_in contact.operation)) reads writes
        → IfOk result (λ exchange. IsReached (operation_of contact.operation) reads (writes ++ objects.Go partner.now ∷ [])
        (before_exchange exchange.value)) }
    ensures channel { IfOk result (λ exchange. channel_in exchange.value.passage.contact.operation
        ≡ channel_in contact.operation) }
    ensures partner { IfOk result (λ exchange. exchange.value.met.0 ≡ partner.now) }
{
    Exchange::new(alloc, contact, partner.copy(alloc)?)
}

/// What a step with one channel reached that met a goroutine which waited there, and on the others too, before it changes
/// anything.
pub(crate) fn reached_with(
    alloc: Global,
    contact: Contact,
    partner: &GoName,
    others: &[ChName],
) -> Result<Box<Further>, NoMemory>
    ensures { (reads writes : List Object) → AreTouched contact.touched (Some (channel_in contact.operation)) reads writes
        → IfOk result (λ further. IsReached (operation_of contact.operation) reads (writes ++ objects.Go partner.now
        ∷ map objects.Gate others.now) further.value.beyond) }
{
    let more = gates_too(alloc, others)?;
    let beyond = Beyond {
        operation: Some(contact.operation),
        touched: contact.touched,
        partner: Some(partner.copy(alloc)?),
        met: Few::Empty,
        channels: Few::Empty,
        more,
        stops: false,
    };
    Further::new(alloc, beyond)
}

/// Puts a value in a place.
#[inline(always)]
fn put<T: Drop>(place: &mut T, value: T)
    ensures { place.new ≡ value }
{
    *place = value;
}

/// What a step reached, with its changes of goroutines and of channels.
pub(crate) fn with_changes(
    further: Box<Further>,
    met: Few<(GoName, KeptUndo)>,
    channels: Few<(ChName, ChanUndo)>,
) -> Box<Further>
    ensures { result.value.beyond ≡ record (further.value.beyond) { met = met; channels = channels } }
{
    let mut further = further;
    put(&mut further.beyond.met, met);
    put(&mut further.beyond.channels, channels);
    further
}

/// What a step reached, by what it did with a channel, the objects that it read and wrote, and whether it ended or stopped the
/// program. It reached nothing else.
pub(crate) fn reached(
    alloc: Global,
    operation: Option<Operation>,
    reads: Vec<Object>,
    writes: Vec<Object>,
    stops: bool,
) -> Result<Box<Further>, NoMemory>
    ensures { IfOk result (λ further. Reaches operation reads.items writes.items stops further.value.beyond) }
{
    let more = More {
        reads,
        writes,
        begins: None,
        makes: None,
    };
    with_more(alloc, operation, more, stops)
}
