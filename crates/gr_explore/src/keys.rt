//! A key of a state: the bytes of its goroutines and channels.

ghost use Rattle.std.specs.Prelude.{◌≡◌, ◌++◌, ◌∷◌, [], IfOk};
ghost use Rattle.gr_step.specs.Objects.{run_of};
ghost use Rattle.gr_step.specs.Stores.{contents_at};
ghost use Rattle.gr_schedules.specs.Keys.{fault_number as number_of_fault, run_number};
ghost use Rattle.gr_explore.specs.Keeping.{pages_code};

use crate::pages::{Paged, Pages};
use gr_base::{ChName, Fault, GoName, NoMemory};
use gr_keys::channels::write_channel;
use gr_keys::goroutines::write_goroutine;
use gr_keys::lists::{Coded, write_byte};
use gr_step::{Run, Store};
use std::alloc::Global;

/// The number of a run that was stopped by a fault.
fn fault_number(fault: Fault) -> u8
    ensures { result ≡ number_of_fault fault }
{
    match fault {
        Fault::DivideByZero => 2,
        Fault::NegativeShift => 3,
        Fault::SendOnClosed => 4,
        Fault::CloseOfClosed => 5,
        Fault::CloseOfNil => 6,
        Fault::BadSize => 7,
        Fault::CallDepth => 8,
        Fault::NameDepth => 9,
        Fault::NameCount => 10,
    }
}

/// The number of whether the program runs, and by which fault it was stopped.
fn run_code(run: Run) -> u8
    ensures { result ≡ run_number (run_of run) }
{
    match run {
        Run::Live => 0,
        Run::Ended => 1,
        Run::Faulted(fault) => fault_number(fault),
    }
}

impl Paged for GoName {
    ghost use Rattle.gr_explore.specs.Keeping.{goroutine_page};

    ghost code = { λ s n. goroutine_page n (s.goroutines n) };

    fn copy_name(&self, alloc: Global) -> Result<GoName, NoMemory> {
        self.copy(alloc)
    }

    fn write_code(&self, store: &Store, bytes: &mut Vec<u8>) -> Result<(), NoMemory> {
        let Some(goroutine) = store.goroutine(self) else {
            return Ok(());
        };
        write_byte(1, bytes)?;
        self.write(bytes)?;
        write_byte(1, bytes)?;
        write_goroutine(goroutine, bytes)
    }
}

impl Paged for ChName {
    ghost use Rattle.gr_explore.specs.Keeping.{channel_page};

    ghost code = { λ s c. channel_page c (s.channels c) };

    fn copy_name(&self, alloc: Global) -> Result<ChName, NoMemory> {
        self.copy(alloc)
    }

    fn write_code(&self, store: &Store, bytes: &mut Vec<u8>) -> Result<(), NoMemory> {
        let Some(channel) = store.channel(self) else {
            return Ok(());
        };
        write_byte(1, bytes)?;
        self.write(bytes)?;
        write_byte(1, bytes)?;
        write_channel(channel, bytes)
    }
}

// Bytes of a key beside its pages: of the run, of two ends, and of the number that a search of at most so many steps adds. A key is
// kept as long as the search goes on, so it has no room for more.
const BESIDE_PAGES: usize = 3 + 8;

/// The bytes of the state of a store: whether the program runs, the pages of its goroutines, and those of its channels.
pub(crate) fn bytes_of(
    alloc: Global,
    store: &Store,
    goroutines: &Pages<GoName>,
    channels: &Pages<ChName>,
) -> Result<Vec<u8>, NoMemory>
    ensures { IfOk result (λ bytes. bytes.items ≡ run_number (contents_at store.now).run
        ∷ ((pages_code goroutines.now.written.items ++ 0 ∷ []) ++ (pages_code channels.now.written.items ++ 0 ∷ []))) }
{
    let size = goroutines.size().saturating_add(channels.size());
    let mut bytes = Vec::with_capacity(alloc, size.saturating_add(BESIDE_PAGES))?;
    write_byte(run_code(store.run()), &mut bytes)?;
    goroutines.append(&mut bytes)?;
    write_byte(0, &mut bytes)?;
    channels.append(&mut bytes)?;
    write_byte(0, &mut bytes)?;
    Ok(bytes)
}
