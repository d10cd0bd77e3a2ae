//! A book: pages of all goroutines and channels of a machine, kept while it steps and steps back.

use crate::changed::{note_channels, note_goroutines};
use crate::keys::bytes_of;
use crate::names::{channels_known, goroutines_known};
use crate::pages::Pages;
use gr_base::{ChName, GoName, NoMemory};
use gr_rollback::Machine;
use gr_step::{Record, Store};
use std::alloc::Global;

/// Pages of all goroutines and channels of a machine.
#[derive(Drop)]
pub(crate) struct Book {
    pub(crate) goroutines: Pages<GoName>,
    pub(crate) channels: Pages<ChName>,
    /// Whether all is noted that has changed or has no page. It is not so before the first key, and after memory ran out.
    pub(crate) is_whole: bool,
}

impl Book {
    ghost use Rattle.std.specs.Prelude.{◌≡◌, ◌++◌, ◌∷◌, [], List, IfOk, OnOk, OnErr, IsTrue, true, false};
    ghost use Rattle.gr_program.specs.Programs.{Program};
    ghost use Rattle.gr_rules.specs.States.{State};
    ghost use Rattle.gr_step.specs.Stores.{contents_at, program_at, state_at};
    ghost use Rattle.gr_rollback.specs.Machines.{IsMachine, store_of};
    ghost use Rattle.gr_schedules.specs.Keys.{IsKey};
    ghost use Rattle.gr_schedules.specs.Matters.{matter};
    ghost use Rattle.gr_explore.specs.Books.{Apart, Describes, Fits};
    ghost use Rattle.gr_explore.specs.Exploring.{state_seen};

    /// A book of nothing. It takes no memory.
    pub(crate) fn new(alloc: Global) -> Book
        ensures { result.is_whole ≡ false }
    {
        Book {
            goroutines: Pages::unwritten(alloc, Vec::new(alloc)),
            channels: Pages::unwritten(alloc, Vec::new(alloc)),
            is_whole: false,
        }
    }

    /// Whether there is a page of each goroutine that is there.
    pub(crate) fn has_all_goroutines(&self) -> bool
        ensures whole { IsTrue result → self.now.is_whole ≡ true }
        ensures none { IsTrue result → self.now.goroutines.changed.items ≡ [] }
    {
        self.is_whole && self.goroutines.changed.is_empty()
    }

    fn note_all(&mut self, alloc: Global, step: &Record) -> Result<(), NoMemory>
        ensures describes { (p : Program) (s t : State) → Apart step.now s t → Describes p s self.old
            → OnOk result (Describes p t self.new) }
        ensures whole { self.new.is_whole ≡ self.old.is_whole }
    {
        note_goroutines(alloc, &mut self.goroutines, step)?;
        note_channels(alloc, &mut self.channels, step)
    }

    /// Notes what a step changed, or will change when it is taken back.
    pub(crate) fn note(&mut self, alloc: Global, step: &Record)
        ensures { (p : Program) (s t : State) → Apart step.now s t → Fits p s self.old → Fits p t self.new }
    {
        if !self.is_whole {
            return;
        }
        match self.note_all(alloc, step) {
            Ok(()) => {}
            Err(NoMemory) => self.is_whole = false,
        }
    }

    /// Begins anew, with all that may be there by the records of a log.
    fn begin(&mut self, alloc: Global, machine: &Machine) -> Result<(), NoMemory>
        requires { IsMachine machine.now }
        ensures is { OnOk result (Describes (program_at (store_of machine.now)) (state_seen machine.now) self.new) }
        ensures err { OnErr result (self.new.is_whole ≡ self.old.is_whole) }
    {
        let goroutines = goroutines_known(alloc, machine.log().as_slice())?;
        let channels = channels_known(alloc, machine.log().as_slice())?;
        self.goroutines = Pages::unwritten(alloc, goroutines);
        self.channels = Pages::unwritten(alloc, channels);
        self.is_whole = true;
        Ok(())
    }

    /// Brings all pages to what the store has. Refused, they may be lost.
    fn renew(&mut self, alloc: Global, store: &Store) -> Result<(), NoMemory>
        ensures fits { Describes (program_at store.now) (state_at store.now) self.old
            → OnOk result (Describes (program_at store.now) (state_at store.now) self.new) }
        ensures goroutines { OnOk result (self.new.goroutines.changed.items ≡ []) }
        ensures channels { OnOk result (self.new.channels.changed.items ≡ []) }
        ensures whole { self.new.is_whole ≡ self.old.is_whole }
    {
        self.goroutines.renew(alloc, store)?;
        self.channels.renew(alloc, store)
    }

    /// Begins anew, unless the book is whole.
    fn complete(&mut self, alloc: Global, machine: &Machine) -> Result<(), NoMemory>
        requires machine { IsMachine machine.now }
        requires fits { Fits (program_at (store_of machine.now)) (state_seen machine.now) self.old }
        ensures is { OnOk result (Describes (program_at (store_of machine.now)) (state_seen machine.now) self.new) }
        ensures err { OnErr result (self.new.is_whole ≡ false) }
    {
        if self.is_whole {
            return Ok(());
        }
        self.begin(alloc, machine)
    }

    /// Brings all pages to where the machine stands. Refused, the book begins anew the next time.
    fn update(&mut self, alloc: Global, machine: &Machine) -> Result<(), NoMemory>
        requires machine { IsMachine machine.now }
        requires fits { Fits (program_at (store_of machine.now)) (state_seen machine.now) self.old }
        ensures fits { Fits (program_at (store_of machine.now)) (state_seen machine.now) self.new }
        ensures is { OnOk result (Describes (program_at (store_of machine.now)) (state_seen machine.now) self.new) }
        ensures goroutines { OnOk result (self.new.goroutines.changed.items ≡ []) }
        ensures channels { OnOk result (self.new.channels.changed.items ≡ []) }
    {
        self.complete(alloc, machine)?;
        self.is_whole = false;
        self.renew(alloc, machine.store())?;
        self.is_whole = true;
        Ok(())
    }

    /// The bytes of a key of the state in which the machine stands.
    pub(crate) fn key(&mut self, alloc: Global, machine: &Machine) -> Result<Vec<u8>, NoMemory>
        requires machine { IsMachine machine.now }
        requires fits { Fits (program_at (store_of machine.now)) (state_seen machine.now) self.old }
        ensures fits { Fits (program_at (store_of machine.now)) (state_seen machine.now) self.new }
        ensures key { IfOk result (λ bytes. IsKey (program_at (store_of machine.now)) bytes.items (matter (state_seen machine.now))) }
    {
        self.update(alloc, machine)?;
        bytes_of(alloc, machine.store(), &self.goroutines, &self.channels)
    }
}
