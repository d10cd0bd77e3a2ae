//! What a change of a goroutine replaced, as records keep it.

ghost use Rattle.std.specs.Prelude.{◌≡◌};
ghost use Rattle.gr_rules.specs.Goroutines.{Status as StatusSeen};
ghost use Rattle.gr_goros.specs.declared.undo.GoUndo.TheVariants as undos;
ghost use Rattle.gr_goros.specs.declared.wait.Status.TheVariants as statuses;
ghost use Rattle.gr_goros.specs.Before.{IsPrior, TellsPrior, is_printed, spot_in};
ghost use Rattle.gr_goros.specs.Keeping.{in_frame, unpacked};
ghost use Rattle.gr_goros.specs.Views.{status_of};

use crate::frame::Frame;
use crate::undo::{Former, FrameUndo, GoUndo, Left, Met, Spot};
use crate::wait::{Status, Wait};
use gr_base::{ChName, Value};
use std::marker::Model;

/// Whether a goroutine was ready before a change.
#[derive(Clone, Copy)]
pub enum Prior {
    Ready,
    Unready,
    /// It was ready before the change exactly if it is after it.
    Same,
}

/// What a step did that wrote to cells.
#[derive(Clone, Copy)]
pub(crate) enum How {
    /// It went on.
    Went,
    /// It made a channel.
    Made,
}

/// The variants of `GoUndo`, `Former` and `Status` in one enum, whose small parts stand beside its tag. One enum inside another
/// would take eight bytes more.
#[derive(Drop)]
pub(crate) enum Packed {
    /// The frame stood there, and no cell was written to.
    Same(How, Spot),
    Nothing(How, Spot, u32),
    Int(How, Spot, u32, i64),
    Bool(How, bool, Spot, u32),
    Unit(How, Spot, u32),
    Nil(How, Spot, u32),
    Channel(How, Spot, u32, Box<ChName>),
    IntAndBool(How, bool, Spot, u32, i64),
    Each(How, Spot, Box<Vec<(u32, Option<Value>)>>),
    Printed(Spot),
    Entered(Spot),
    Left(Box<Left>),
    Began(Spot),
    Met(Box<Met>),
    Parked(Spot),
    Finished(Box<Frame>),
    Faulted(Spot),
    WasReady,
    WasSending(ChName),
    WasReceiving(ChName),
    WasWaiting(Box<Vec<Wait>>),
    WasFinished,
}

/// What a change of a goroutine replaced, in 24 bytes.
#[derive(Drop)]
pub struct KeptUndo {
    pub(crate) packed: Packed,
}

impl Model for KeptUndo {
    ghost use Rattle.gr_goros.specs.declared.undo.GoUndo.{GoUndo};
    ghost use Rattle.gr_goros.specs.Keeping.{unpacked};

    ghost Value = { GoUndo };

    ghost view = { λ u. unpacked u.packed };
}

/// A frame that stood somewhere, with what was in its cells.
fn pack_frame(how: How, function: u32, before: FrameUndo) -> Packed
    ensures { unpacked result ≡ in_frame how (record { function = function; number = before.number }) before.cells }
{
    let spot = Spot {
        function,
        number: before.number,
    };
    match before.cells {
        Former::Same => Packed::Same(how, spot),
        Former::Nothing(cell) => Packed::Nothing(how, spot, cell),
        Former::Int(cell, n) => Packed::Int(how, spot, cell, n),
        Former::Bool(cell, b) => Packed::Bool(how, b, spot, cell),
        Former::Unit(cell) => Packed::Unit(how, spot, cell),
        Former::Nil(cell) => Packed::Nil(how, spot, cell),
        Former::Channel(cell, name) => Packed::Channel(how, spot, cell, name),
        Former::IntAndBool(b, cell, n) => Packed::IntAndBool(how, b, spot, cell, n),
        Former::Each(written) => Packed::Each(how, spot, written),
    }
}

/// A goroutine that was made ready, with what it did before.
fn pack_status(status: Status) -> Packed
    ensures { unpacked result ≡ undos.Retried status }
{
    match status {
        Status::Ready => Packed::WasReady,
        Status::Sending(channel) => Packed::WasSending(channel),
        Status::Receiving(channel) => Packed::WasReceiving(channel),
        Status::Waiting(waits) => Packed::WasWaiting(waits),
        Status::Finished => Packed::WasFinished,
    }
}

/// The change of a frame that stood there, and in whose cells this was.
fn unpack_frame(how: How, spot: Spot, cells: Former) -> GoUndo
    ensures { result ≡ in_frame how spot cells }
{
    let before = FrameUndo {
        number: spot.number,
        cells,
    };
    match how {
        How::Went => GoUndo::Went(spot.function, before),
        How::Made => GoUndo::Made(spot.function, before),
    }
}

/// Whether a goroutine of this status is ready.
fn prior_in(status: &Status) -> Prior
    ensures { (after : StatusSeen) → IsPrior result (status_of status.now) after }
{
    match status {
        Status::Ready => Prior::Ready,
        Status::Sending(_) | Status::Receiving(_) | Status::Waiting(_) | Status::Finished => {
            Prior::Unready
        }
    }
}

impl KeptUndo {
    /// What stands in a record that is made before its step is taken.
    pub fn none_yet() -> KeptUndo
        ensures { result ≡ undos.Retried statuses.Ready }
    {
        KeptUndo {
            packed: Packed::WasReady,
        }
    }

    /// What a goroutine replaced that stood there and came to wait.
    pub fn parked(spot: Spot) -> KeptUndo
        ensures { result ≡ undos.Parked spot }
    {
        KeptUndo {
            packed: Packed::Parked(spot),
        }
    }

    /// What undoes a change, in fewer bytes.
    #[inline(always)]
    pub fn new(undo: GoUndo) -> KeptUndo
        ensures { result ≡ undo }
    {
        let packed = match undo {
            GoUndo::Went(function, before) => pack_frame(How::Went, function, before),
            GoUndo::Printed(spot) => Packed::Printed(spot),
            GoUndo::Entered(spot) => Packed::Entered(spot),
            GoUndo::Left(left) => Packed::Left(left),
            GoUndo::Made(function, before) => pack_frame(How::Made, function, before),
            GoUndo::Began(spot) => Packed::Began(spot),
            GoUndo::Met(met) => Packed::Met(met),
            GoUndo::Parked(spot) => Packed::Parked(spot),
            GoUndo::Finished(frame) => Packed::Finished(frame),
            GoUndo::Faulted(spot) => Packed::Faulted(spot),
            GoUndo::Retried(status) => pack_status(status),
        };
        KeptUndo { packed }
    }

    /// What was replaced.
    pub fn get(self) -> GoUndo
        ensures { result ≡ self }
    {
        match self.packed {
            Packed::Same(how, spot) => unpack_frame(how, spot, Former::Same),
            Packed::Nothing(how, spot, cell) => unpack_frame(how, spot, Former::Nothing(cell)),
            Packed::Int(how, spot, cell, n) => unpack_frame(how, spot, Former::Int(cell, n)),
            Packed::Bool(how, b, spot, cell) => unpack_frame(how, spot, Former::Bool(cell, b)),
            Packed::Unit(how, spot, cell) => unpack_frame(how, spot, Former::Unit(cell)),
            Packed::Nil(how, spot, cell) => unpack_frame(how, spot, Former::Nil(cell)),
            Packed::Channel(how, spot, cell, name) => {
                unpack_frame(how, spot, Former::Channel(cell, name))
            }
            Packed::IntAndBool(how, b, spot, cell, n) => {
                unpack_frame(how, spot, Former::IntAndBool(b, cell, n))
            }
            Packed::Each(how, spot, written) => unpack_frame(how, spot, Former::Each(written)),
            Packed::Printed(spot) => GoUndo::Printed(spot),
            Packed::Entered(spot) => GoUndo::Entered(spot),
            Packed::Left(left) => GoUndo::Left(left),
            Packed::Began(spot) => GoUndo::Began(spot),
            Packed::Met(met) => GoUndo::Met(met),
            Packed::Parked(spot) => GoUndo::Parked(spot),
            Packed::Finished(frame) => GoUndo::Finished(frame),
            Packed::Faulted(spot) => GoUndo::Faulted(spot),
            Packed::WasReady => GoUndo::Retried(Status::Ready),
            Packed::WasSending(channel) => GoUndo::Retried(Status::Sending(channel)),
            Packed::WasReceiving(channel) => GoUndo::Retried(Status::Receiving(channel)),
            Packed::WasWaiting(waits) => GoUndo::Retried(Status::Waiting(waits)),
            Packed::WasFinished => GoUndo::Retried(Status::Finished),
        }
    }

    /// Where the innermost frame of the goroutine stood before the change, if that keeps it.
    #[tactic(auto, using(crate::proofs::KeptLemmas::kept_in_frame))]
    pub fn spot(&self) -> Option<Spot>
        ensures { result ≡ spot_in self.now }
    {
        match &self.packed {
            Packed::Same(_, spot)
            | Packed::Nothing(_, spot, _)
            | Packed::Int(_, spot, _, _)
            | Packed::Bool(_, _, spot, _)
            | Packed::Unit(_, spot, _)
            | Packed::Nil(_, spot, _)
            | Packed::Channel(_, spot, _, _)
            | Packed::IntAndBool(_, _, spot, _, _)
            | Packed::Each(_, spot, _)
            | Packed::Printed(spot)
            | Packed::Entered(spot)
            | Packed::Began(spot)
            | Packed::Parked(spot)
            | Packed::Faulted(spot) => Some(*spot),
            Packed::Left(left) => Some(left.frame.spot()),
            Packed::Finished(frame) => Some(frame.spot()),
            Packed::Met(met) => Some(Spot {
                function: met.function,
                number: met.frame.number,
            }),
            Packed::WasReady
            | Packed::WasSending(_)
            | Packed::WasReceiving(_)
            | Packed::WasWaiting(_)
            | Packed::WasFinished => None,
        }
    }

    /// Whether the goroutine was ready before the change.
    #[tactic(auto, using(crate::proofs::KeptLemmas::same_in_frame))]
    pub fn prior(&self) -> Prior
        ensures { TellsPrior result self.now }
    {
        match &self.packed {
            Packed::Same(_, _)
            | Packed::Nothing(_, _, _)
            | Packed::Int(_, _, _, _)
            | Packed::Bool(_, _, _, _)
            | Packed::Unit(_, _, _)
            | Packed::Nil(_, _, _)
            | Packed::Channel(_, _, _, _)
            | Packed::IntAndBool(_, _, _, _, _)
            | Packed::Each(_, _, _)
            | Packed::Printed(_)
            | Packed::Entered(_)
            | Packed::Left(_)
            | Packed::Began(_)
            | Packed::Faulted(_) => Prior::Same,
            Packed::Parked(_) | Packed::Finished(_) | Packed::WasReady => Prior::Ready,
            Packed::Met(met) => prior_in(&met.status),
            Packed::WasSending(_)
            | Packed::WasReceiving(_)
            | Packed::WasWaiting(_)
            | Packed::WasFinished => Prior::Unready,
        }
    }

    /// Whether the change printed a line.
    pub fn has_printed(&self) -> bool
        ensures { result ≡ is_printed self.now }
    {
        matches!(&self.packed, Packed::Printed(_))
    }
}
