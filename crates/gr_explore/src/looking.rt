//! The events that are possible where a machine stands.

ghost use Rattle.std.specs.Prelude.{◌≡◌, [], ℕ, IfOk};
ghost use Rattle.gr_step.specs.Stores.{program_at};
ghost use Rattle.gr_search.specs.Going.{HasAll};
ghost use Rattle.gr_schedules.specs.Schedules.{schedules};
ghost use Rattle.gr_schedules.specs.Choices.{AreChoices};
ghost use Rattle.gr_rollback.specs.Machines.{IsMachine, store_of};
ghost use Rattle.gr_explore.specs.Exploring.{origin_of, state_seen};
ghost use Rattle.gr_explore.specs.Books.{Describes, Fits};

use crate::book::Book;
use crate::names::goroutines_known;
use crate::offers::{push_all_offers, push_page_offers};
use gr_base::{Event, NoMemory};
use gr_rollback::Machine;
use std::alloc::Global;

/// All events that are possible, by the pages of a book that has all goroutines.
fn offered_by_pages(alloc: Global, machine: &Machine, book: &Book) -> Result<Vec<Event>, NoMemory>
    requires machine { IsMachine machine.now }
    requires fits { Describes (program_at (store_of machine.now)) (state_seen machine.now) book.now }
    requires none { book.now.goroutines.changed.items ≡ [] }
    ensures offered { IfOk result (λ events. AreChoices (program_at (store_of machine.now)) (state_seen machine.now) events.items) }
    ensures all { (base : ℕ) → IfOk result (λ events. HasAll (schedules (origin_of machine.now base)) (state_seen machine.now)
        events.items) }
{
    let mut events = Vec::new(alloc);
    let pages = book.goroutines.written.as_slice();
    push_page_offers(alloc, machine.store(), &mut events, pages)?;
    Ok(events)
}

/// All events that are possible, none twice. They are looked for by the pages of a book, where it has all goroutines.
pub(crate) fn offered(alloc: Global, machine: &Machine, book: &Book) -> Result<Vec<Event>, NoMemory>
    requires machine { IsMachine machine.now }
    requires fits { Fits (program_at (store_of machine.now)) (state_seen machine.now) book.now }
    ensures offered { IfOk result (λ events. AreChoices (program_at (store_of machine.now)) (state_seen machine.now) events.items) }
    ensures all { (base : ℕ) → IfOk result (λ events. HasAll (schedules (origin_of machine.now base)) (state_seen machine.now)
        events.items) }
{
    if book.has_all_goroutines() {
        return offered_by_pages(alloc, machine, book);
    }
    let names = goroutines_known(alloc, machine.log().as_slice())?;
    let mut events = Vec::new(alloc);
    push_all_offers(alloc, machine.store(), &mut events, names.as_slice())?;
    Ok(events)
}
