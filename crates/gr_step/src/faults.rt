//! Faults, which stop the program (Go: Run-time panics).

ghost use Rattle.std.specs.Prelude.{◌≡◌, ◌≤◌, ◌∷◌, [], ℕ, List, true, Some, None, IfOk, OnErr};
ghost use Rattle.gr_base.specs.declared.objects.Object.TheVariants as objects;
ghost use Rattle.gr_code.specs.Goroutines.{CodeGoroutine};
ghost use Rattle.gr_goros.specs.Undoing.{Fits, need};
ghost use Rattle.gr_tables.specs.NamedGoroutines.{At, IsCounted, seen_at, name_at, ChangesBy, TakenBack};
ghost use Rattle.gr_step.specs.Objects.{contents_in};
ghost use Rattle.gr_step.specs.Room.{HasRoom};
ghost use Rattle.gr_step.specs.Beyonds.{Reaches, Stops, HasStopped, ChangesObjects};

use crate::beyond::reached;
use crate::objects::{Objects, Run};
use gr_base::{Fault, Kind, NoMemory, Object};
use gr_goros::{GoUndo, Halt};
use gr_record::record::{Change, Further, Operation};
use std::alloc::Global;

/// What a step that ends or stops the program reaches beyond its goroutine.
pub(crate) fn stopping(
    alloc: Global,
    operation: Option<Operation>,
    reads: Vec<Object>,
) -> Result<Box<Further>, NoMemory>
    ensures { IfOk result (λ further. Reaches operation reads.items (objects.Run ∷ []) true further.value.beyond) }
{
    let mut writes = Vec::new(alloc);
    writes.push(Object::Run)?;
    reached(alloc, operation, reads, writes, true)
}

impl Objects {
    /// The goroutine with a number stops the program with a fault, which did this with a channel and read these. Refused, nothing
    /// has changed.
    pub(crate) fn fault(
        &mut self,
        number: usize,
        fault: Fault,
        operation: Option<Operation>,
        reads: Vec<Object>,
    ) -> Result<Change, NoMemory>
        requires { At IsCounted (seen_at self.old.goroutines number) }
        ensures ok { IfOk result (λ change. (n : List ℕ) (g : CodeGoroutine) → name_at self.old.goroutines number ≡ Some n
            → (contents_in self.old).goroutines n ≡ Some g
            → Stops n fault operation reads.items (contents_in self.old) g change (contents_in self.new)) }
        ensures room { IfOk result (λ change. (n : List ℕ) → HasRoom n change self.new) }
        ensures err { OnErr result (contents_in self.new ≡ contents_in self.old) }
    {
        let further = stopping(self.alloc, operation, reads)?;
        let own = self.goroutines.halt(number, Halt::Faulted)?;
        self.run = Run::Faulted(fault);
        Ok(Change::further(Kind::Fault(fault), own, further))
    }

    /// The goroutine with a number stops the program with a fault, which did nothing with a channel. Refused, nothing has
    /// changed.
    pub(crate) fn plain_fault(&mut self, number: usize, fault: Fault) -> Result<Change, NoMemory>
        requires { At IsCounted (seen_at self.old.goroutines number) }
        ensures ok { IfOk result (λ change. (n : List ℕ) (g : CodeGoroutine) → name_at self.old.goroutines number ≡ Some n
            → (contents_in self.old).goroutines n ≡ Some g
            → Stops n fault None [] (contents_in self.old) g change (contents_in self.new)) }
        ensures room { IfOk result (λ change. (n : List ℕ) → HasRoom n change self.new) }
        ensures err { OnErr result (contents_in self.new ≡ contents_in self.old) }
    {
        let nothing = Vec::new(self.alloc);
        self.fault(number, fault, None, nothing)
    }

    /// The step that the goroutine with a number took, which was a fault, stops the program. Refused, the step is taken back.
    pub(crate) fn stop(
        &mut self,
        number: usize,
        fault: Fault,
        own: GoUndo,
    ) -> Result<Change, NoMemory>
        requires fits { At (λ g. Fits own g.content) (seen_at self.old.goroutines number) }
        requires room { At (λ g. need own ≤ g.room) (seen_at self.old.goroutines number) }
        ensures ok { IfOk result (λ change. HasStopped fault own change self.old self.new) }
        ensures err { OnErr result (ChangesObjects (ChangesBy number (TakenBack own)) self.old.run self.old self.new) }
    {
        let nothing = Vec::new(self.alloc);
        let further = match stopping(self.alloc, None, nothing) {
            Ok(further) => further,
            Err(error) => {
                self.goroutines.undo(number, own).unwrap();
                return Err(error);
            }
        };
        self.run = Run::Faulted(fault);
        Ok(Change::further(Kind::Fault(fault), own, further))
    }
}
