//! Changes of one goroutine of a store, in its place.

ghost use Rattle.std.specs.Prelude.{◌≡◌, ◌≤◌, ◌∷◌, [], IsOk, IfOk, IfErr, IfSome, IfNone, OnOk, OnErr};
ghost use Rattle.gr_rules.specs.Goroutines.{ToSend, ToReceive};
ghost use Rattle.gr_code.specs.CodeViews.{program_code_of};
ghost use Rattle.gr_code.specs.Goroutines.{local, parked, retried};
ghost use Rattle.gr_goros.specs.Undoing.{Fits, IsLive, need};
ghost use Rattle.gr_goros.specs.Views.{arrival_of, waits_of, halted};
ghost use Rattle.gr_goros.specs.Tasks.{IsStep};
ghost use Rattle.gr_tables.specs.NamedGoroutines.{seen_at, At, ChangesBy, KeepsContents, StepsAlone, CanArrive, CanPark, CanEnd};
ghost use Rattle.gr_tables.specs.NamedGoroutines.{Arrives, ComesTo, TakenBack};
ghost use Rattle.gr_tables.specs.Counting.{CanTry, StepsOn};
ghost use Rattle.gr_tables.specs.Slots.{SlotChanges, SlotKeeps};

use crate::goroutines::Goroutines;
use gr_base::{ChName, NoMemory};
use gr_code::code::Code;
use gr_goros::{Arrival, GoUndo, Goroutine, Halt, KeptUndo, LocalKind, Spot, Wait};
use std::alloc::Global;

impl Goroutines {
    /// The goroutine with a number takes its next step, as `Goroutine::local_step` does. Refused, no content has changed.
    pub fn local_step(
        &mut self,
        number: usize,
        code: &Code,
    ) -> Result<(LocalKind, KeptUndo), NoMemory>
        requires { At (StepsAlone (program_code_of code.now)) (seen_at self.old number) }
        ensures step { IfOk result (λ r. ChangesBy number
            (λ a b. IsStep r (local (program_code_of code.now) a.content) a b) self.old self.new) }
        ensures err { OnErr result (KeepsContents self.old self.new) }
    {
        let slot = self.map.get_index_mut(number).unwrap();
        let Some(goroutine) = slot else {
            unreachable!()
        };
        goroutine.local_step(self.alloc, code)
    }

    /// The goroutine with a number takes its next step as `Goroutine::step_ints` does, if it is ready and the step is over
    /// whole numbers alone. Else no content has changed.
    pub fn step_ints(&mut self, number: usize, code: &Code) -> Option<(u64, KeptUndo)>
        requires { At (CanTry (program_code_of code.now)) (seen_at self.old number) }
        ensures step { IfSome result (λ r. ChangesBy number (StepsOn (program_code_of code.now) r) self.old self.new) }
        ensures none { IfNone result (KeepsContents self.old self.new) }
    {
        let slot = self.map.get_index_mut(number).unwrap();
        let Some(goroutine) = slot else {
            unreachable!()
        };
        goroutine.step_ints(code)
    }

    /// Takes a change of the goroutine with a number back, as `Goroutine::undo` does. It takes memory only where there is no
    /// room; refused, no content has changed, and the change is handed back.
    pub fn undo(&mut self, number: usize, undo: GoUndo) -> Result<(), (GoUndo, NoMemory)>
        requires { At (λ g. Fits undo g.content) (seen_at self.old number) }
        ensures ok { OnOk result (ChangesBy number (TakenBack undo) self.old self.new) }
        ensures err { OnErr result (KeepsContents self.old self.new) }
        ensures returned { IfErr result (λ e. e.0 ≡ undo) }
        ensures succeeds { At (λ g. need undo ≤ g.room) (seen_at self.old number) → IsOk result }
    {
        let slot = self.map.get_index_mut(number).unwrap();
        let Some(goroutine) = slot else {
            unreachable!()
        };
        goroutine.undo(undo)
    }

    /// Takes a kept change of the goroutine with a number back, as `Goroutine::undo_kept` does. It takes memory only where there is no
    /// room; refused, no content has changed, and the change is handed back.
    pub fn undo_kept(&mut self, number: usize, undo: KeptUndo) -> Result<(), (KeptUndo, NoMemory)>
        requires { At (λ g. Fits undo g.content) (seen_at self.old number) }
        ensures ok { OnOk result (ChangesBy number (TakenBack undo) self.old self.new) }
        ensures err { OnErr result (KeepsContents self.old self.new) }
        ensures returned { IfErr result (λ e. e.0 ≡ undo) }
        ensures succeeds { At (λ g. need undo ≤ g.room) (seen_at self.old number) → IsOk result }
    {
        let slot = self.map.get_index_mut(number).unwrap();
        let Some(goroutine) = slot else {
            unreachable!()
        };
        goroutine.undo_kept(undo)
    }

    /// What arrives takes the goroutine with a number past its instruction, as `Goroutine::deliver` does. Refused, no content
    /// has changed.
    #[inline(always)]
    pub fn deliver(
        &mut self,
        number: usize,
        code: &Code,
        arrival: Arrival,
    ) -> Result<GoUndo, NoMemory>
        requires { At (CanArrive (program_code_of code.now) (arrival_of arrival)) (seen_at self.old number) }
        ensures after { IfOk result (λ undo. ChangesBy number
            (Arrives (program_code_of code.now) (arrival_of arrival) undo) self.old self.new) }
        ensures err { OnErr result (KeepsContents self.old self.new) }
    {
        let slot = self.map.get_index_mut(number).unwrap();
        let Some(goroutine) = slot else {
            unreachable!()
        };
        goroutine.deliver(self.alloc, code, arrival)
    }

    /// The goroutine with a number begins to wait, for one of these.
    pub fn park(&mut self, number: usize, waits: Box<Vec<Wait>>) -> GoUndo
        requires { At CanPark (seen_at self.old number) }
        ensures { ChangesBy number (ComesTo (parked (waits_of waits.value.items)) result) self.old self.new }
    {
        let slot = self.map.get_index_mut(number).unwrap();
        let Some(goroutine) = slot else {
            unreachable!()
        };
        goroutine.park(waits)
    }

    /// The goroutine with a number begins to wait to send on a channel, and for nothing else. It answers where its innermost
    /// frame stands.
    pub fn park_to_send(&mut self, number: usize, channel: ChName) -> Spot
        requires { At CanPark (seen_at self.old number) }
        ensures { ChangesBy number (ComesTo (parked (ToSend channel None ∷ [])) (GoUndo.Parked result)) self.old self.new }
    {
        let slot = self.map.get_index_mut(number).unwrap();
        let Some(goroutine) = slot else {
            unreachable!()
        };
        goroutine.park_to_send(channel)
    }

    /// The goroutine with a number begins to wait to receive from a channel, and for nothing else. It answers where its
    /// innermost frame stands.
    pub fn park_to_receive(&mut self, number: usize, channel: ChName) -> Spot
        requires { At CanPark (seen_at self.old number) }
        ensures { ChangesBy number (ComesTo (parked (ToReceive channel None ∷ [])) (GoUndo.Parked result)) self.old self.new }
    {
        let slot = self.map.get_index_mut(number).unwrap();
        let Some(goroutine) = slot else {
            unreachable!()
        };
        goroutine.park_to_receive(channel)
    }

    /// The goroutine with a number comes to an end: from its outermost frame, or by a fault. Refused, no content has changed.
    pub fn halt(&mut self, number: usize, how: Halt) -> Result<GoUndo, NoMemory>
        requires { At (CanEnd how) (seen_at self.old number) }
        ensures ok { IfOk result (λ undo. ChangesBy number (ComesTo (halted how) undo) self.old self.new) }
        ensures err { OnErr result (KeepsContents self.old self.new) }
    {
        let slot = self.map.get_index_mut(number).unwrap();
        let Some(goroutine) = slot else {
            unreachable!()
        };
        goroutine.halt(self.alloc, how)
    }

    /// The goroutine with a number is ready at its instruction again.
    pub fn retry(&mut self, number: usize) -> GoUndo
        requires { At (λ g. IsLive g.content) (seen_at self.old number) }
        ensures { ChangesBy number (ComesTo retried result) self.old self.new }
    {
        let slot = self.map.get_index_mut(number).unwrap();
        let Some(goroutine) = slot else {
            unreachable!()
        };
        goroutine.retry()
    }
}
