//! What can be searched.

ghost use Rattle.std.specs.Prelude.{◌≡◌, IfOk, OnOk, drop, true, Some};

use crate::key::Key;
use std::alloc::Global;

/// Why a search did not come to its end.
#[derive(Clone, Copy)]
pub enum Limit {
    /// A growth was refused.
    Memory,
    /// A run is as long as the machine keeps one.
    Steps,
    /// More keys than may be kept.
    States,
    /// As many tasks were done as may be.
    Turns,
    /// A step could not be taken back. The machine stands where it came to.
    Back,
}

/// A machine that steps forward and back in place, and what its steps mean.
pub trait Searched {
    ghost use Rattle.std.specs.Prelude.{◌≡◌, ◌↔◌, IsTrue, IfOk, IfErr, OnOk, OnErr, drop, length, true, Some, List, ℕ};
    ghost use Rattle.gr_search.specs.System.{System, Leads, Laws};
    ghost use Rattle.gr_search.specs.Going.{Stepped, HasAll, RefusesStep, RefusesBack, RefusesLook};

    /// A choice of what happens next.
    type Event: Drop;

    ghost State: { Type 0 };

    // What matters of a state: states in which it is the same go on alike.
    ghost Matter: { Type 0 };

    // What stays as it is, such as the program, and what can be done with it.
    ghost Fixed: { Type 0 };

    ghost fixed: { Self → Fixed };

    ghost system: { Fixed → System State Self.Event Matter };

    // Whether these bytes are a key of it.
    ghost means: { Fixed → List ℕ → Matter → Type 0 };

    // Where it stands, and the events that led there, the last first.
    ghost state: { Self → State };

    ghost log: { Self → List Self.Event };

    ghost stands: { Self → Type 0 };

    // How long a run may get.
    ghost longest: { Fixed → ℕ };

    // Whether these events may be tried in a state, in this order.
    ghost offers: { Fixed → State → List Self.Event → Type 0 };

    /// Takes the event, if it is possible; else nothing has changed. Refused, nothing has changed: out of memory, or the run is as
    /// long as one may get.
    fn step(&mut self, event: Self::Event) -> Result<bool, Limit>
        requires { stands self.old }
        ensures stands { stands self.new }
        ensures fixed { fixed self.new ≡ fixed self.old }
        ensures stepped { IfOk result (λ done. Stepped (system (fixed self.old)) done event (state self.old)
            (state self.new) (log self.old) (log self.new)) }
        ensures err { OnErr result (log self.new ≡ log self.old) }
        ensures refuses { IfErr result (RefusesStep (longest (fixed self.old)) (log self.old)) };

    /// Takes the last event back, if there is one. Refused, nothing has changed.
    fn back(&mut self) -> Result<(), Limit>
        requires { stands self.old }
        ensures stands { stands self.new }
        ensures fixed { fixed self.new ≡ fixed self.old }
        ensures log { OnOk result (log self.new ≡ drop 1 (log self.old)) }
        ensures err { OnErr result (log self.new ≡ log self.old) }
        ensures refuses { IfErr result RefusesBack };

    /// How many steps it has taken.
    fn taken(&self) -> u64
        requires { stands self.now }
        ensures { result ≡ length (log self.now) };

    /// Whether it stands in a bad state.
    fn is_bad(&self) -> bool
        requires { stands self.now }
        ensures { IsTrue result ↔ (system (fixed self.now)).bad (state self.now) };

    /// An event that may be taken alone, if one is found. Out of memory is the one error, here and below.
    fn alone(&self, alloc: Global) -> Result<Option<Self::Event>, Limit>
        requires { stands self.now }
        ensures found { IfOk result (λ found. (a : Self.Event) → found ≡ Some a →
            (system (fixed self.now)).alone (state self.now) a ≡ true) }
        ensures refuses { IfErr result RefusesLook };

    /// All events that are possible; others may be among them.
    fn events(&self, alloc: Global) -> Result<Vec<Self::Event>, Limit>
        requires { stands self.now }
        ensures all { IfOk result (λ events. HasAll (system (fixed self.now)) (state self.now) events.items) }
        ensures offered { IfOk result (λ events. offers (fixed self.now) (state self.now) events.items) }
        ensures refuses { IfErr result RefusesLook };

    /// A key of what matters of its state. It may keep what it wrote for the next one.
    fn key(&mut self, alloc: Global) -> Result<Key, Limit>
        requires { stands self.old }
        ensures stands { stands self.new }
        ensures fixed { fixed self.new ≡ fixed self.old }
        ensures state { state self.new ≡ state self.old }
        ensures log { log self.new ≡ log self.old }
        ensures means { IfOk result (λ key. means (fixed self.old) key ((system (fixed self.old)).key (state self.old))) }
        ensures refuses { IfErr result RefusesLook };

    ghost leads: { (m : Self) → stands m → Leads (system (fixed m)) (log m) (state m) };

    ghost laws: { (m : Self) → stands m → Laws (system (fixed m)) };

    // A key is of one thing.
    ghost one: { (f : Fixed) (key : List ℕ) (a b : Matter) → means f key a → means f key b → a ≡ b };
}
