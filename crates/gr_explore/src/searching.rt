//! The search of all schedules of a program, from where its machine stands.

ghost use Rattle.std.specs.Prelude.{◌≡◌, ◌+◌, length, ℕ};
ghost use Rattle.gr_program.specs.Programs.{Program};
ghost use Rattle.gr_search.specs.Going.{HasClosed, Met};
ghost use Rattle.gr_search.specs.Shortest.{IsCut};
ghost use Rattle.gr_schedules.specs.Aims.{NoneComes, schedules_to};
ghost use Rattle.gr_schedules.specs.Choices.{AreChoices};
ghost use Rattle.gr_schedules.specs.Keys.{IsKey};
ghost use Rattle.gr_rollback.specs.Pasts.{Timeline};
ghost use Rattle.gr_rollback.specs.Machines.{IsMachine, Stands, steps_of};
ghost use Rattle.gr_explore.specs.Exploring.{ComesTo, IsHome, longest_after, origin_of};
ghost use Rattle.gr_explore.specs.Fewest.{ComesByFewest, IsHomeAfter, IsKnownOf};
ghost use Rattle.gr_search.specs.declared.searched.Limit.{Limit as LimitMet};
ghost use Rattle.gr_search.specs.declared.shortest.Unfinished.{Unfinished as WhatIsKnown};

use crate::book::Book;
use crate::explorer::Explorer;
use gr_rollback::Machine;
use gr_schedules::Aim;
use gr_search::search::{Answer, Limits, search};
use gr_search::shortest::{Shortest, search_shortest};
use std::alloc::Global;

/// Explores all schedules of a program from where its machine stands, for one that comes to the aim. Steps that were taken back
/// before can't be taken again after it.
///
/// With `Nothing` no run of the program from there comes to it, however long it is and whatever is chosen, and so many states were
/// seen. With `Found` the machine stands there, and the steps that lead there are the last of its log. Else a limit was met. After
/// every answer but `Found` the machine stands where it stood, unless a step could not be taken back.
pub fn explore_for(alloc: Global, machine: &mut Machine, aim: Aim, limits: &Limits) -> Answer
    requires { IsMachine machine.old }
    ensures nothing { (p : Program) (w : Timeline p) (states : ℕ) → Stands p w machine.old
        → result ≡ Answer.Nothing states → NoneComes aim p w.past.state }
    // the keys of so many reached states, no two of them the same, are closed
    ensures closed { (states : ℕ) → result ≡ Answer.Nothing states
        → let origin = origin_of machine.old (length (steps_of machine.old)) in
        HasClosed (schedules_to aim origin) (IsKey origin.program) states }
    ensures found { (p : Program) (w : Timeline p) → Stands p w machine.old
        → result ≡ Answer.Found → ComesTo aim p w machine.new }
    ensures home { (p : Program) (w : Timeline p) → Stands p w machine.old → IsHome p w result machine.new }
    // more than so many states are reached of which no two have one key; or a run of so many steps is possible; or the states
    // that are reached make as many tasks
    ensures limited { (limit : LimitMet) → result ≡ Answer.Limited limit
        → let origin = origin_of machine.old (length (steps_of machine.old)) in
        Met (schedules_to aim origin) (IsKey origin.program) (AreChoices origin.program) (longest_after origin)
        limits.now.states limits.now.turns limit }
{
    let base = machine.log().len();
    let mut book = Book::new(alloc);
    let mut explorer = Explorer {
        machine,
        base,
        aim,
        alloc,
        book: &mut book,
    };
    search(alloc, &mut explorer, limits)
}

/// Explores the schedules of a program from where its machine stands, for one of the fewest steps that comes to the aim. It explores
/// all of them, and then those of at most so many steps, for several numbers. Each of these searches has the limits for itself.
/// Steps that were taken back before can't be taken again after it.
///
/// With `Nothing` no run of the program from there comes to the aim, and so many states were seen. With `Found` the machine stands
/// there, the steps that lead there are the last of its log, and no run of fewer steps comes to it. Else a limit was met: `safe` tells up to how many steps no
/// run comes to the aim, and `known` how many steps lead to it, if a run is known. After every answer but `Found` the machine stands
/// where it stood, unless a step could not be taken back.
pub fn explore_shortest(alloc: Global, machine: &mut Machine, aim: Aim, limits: &Limits) -> Shortest
    requires { IsMachine machine.old }
    ensures nothing { (p : Program) (w : Timeline p) (states : ℕ) → Stands p w machine.old
        → result ≡ Shortest.Nothing states → NoneComes aim p w.past.state }
    // the keys of so many reached states, no two of them the same, are closed
    ensures closed { (states : ℕ) → result ≡ Shortest.Nothing states
        → let origin = origin_of machine.old (length (steps_of machine.old)) in
        HasClosed (schedules_to aim origin) (IsKey origin.program) states }
    ensures found { (p : Program) (w : Timeline p) → Stands p w machine.old
        → result ≡ Shortest.Found → ComesByFewest aim p w machine.new }
    ensures home { (p : Program) (w : Timeline p) → Stands p w machine.old → IsHomeAfter p w result machine.new }
    ensures known { (p : Program) (w : Timeline p) (u : WhatIsKnown) → Stands p w machine.old
        → result ≡ Shortest.Limited u → IsKnownOf aim p w.past.state u }
    // the limit was met where runs of one step more are explored than are safe
    ensures limited { (u : WhatIsKnown) → result ≡ Shortest.Limited u
        → let origin = origin_of machine.old (length (steps_of machine.old)) in
        IsCut (schedules_to aim origin) (IsKey origin.program) (AreChoices origin.program) (longest_after origin)
        limits.now.states limits.now.turns (u.safe + 1) u.limit }
{
    let base = machine.log().len();
    let mut book = Book::new(alloc);
    let mut explorer = Explorer {
        machine,
        base,
        aim,
        alloc,
        book: &mut book,
    };
    search_shortest(alloc, &mut explorer, limits)
}
