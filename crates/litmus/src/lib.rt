//! What the steps of small programs come to: kinds, states, what goes back with a step, and what is printed. Each run is
//! computed in the contract of a function that does nothing.
#![tactic(auto)]

ghost use Rattle.litmus.specs.HandOver as hand_over;
ghost use Rattle.litmus.specs.Buffers as buffers;
ghost use Rattle.litmus.specs.Selects as selects;
ghost use Rattle.litmus.specs.Closings as closings;
ghost use Rattle.litmus.specs.Calls as calls;
ghost use Rattle.litmus.specs.Limits as limits;
ghost use Rattle.litmus.specs.Names as names;
ghost use Rattle.litmus.specs.Lookups as lookups;
ghost use Rattle.litmus.specs.Neighbours as neighbours;
ghost use Rattle.litmus.specs.HappensBefore as happens_before;

/// A value is handed over, whichever of the two comes first.
pub fn law_of_handing_over()
    ensures receiver { hand_over.ReceiverFirst }
    ensures sender { hand_over.SenderFirst }
    ensures back { hand_over.GoesBack }
    ensures causes { hand_over.Causes }
{}

/// A buffer is filled and emptied, and its two ends are touched apart.
pub fn law_of_buffers()
    ensures moves { buffers.TakesAndMoves }
    ensures apart { buffers.EndsAreApart }
    ensures order { buffers.MayChangePlaces }
    ensures measures { buffers.LenAndCap }
{}

/// Two selects meet, a pick leaves the other clauses alone, and a default looks at all.
pub fn law_of_selects()
    ensures pairs { selects.PairsMeet }
    ensures one { selects.PicksOne }
    ensures default { selects.TakesDefault }
{}

/// Closing wakes all that wait and withdraws all their waits; faults stop the program; a range ends with its channel.
pub fn law_of_closings()
    ensures wakes { closings.WakesAll }
    ensures faults { closings.Faults }
    ensures ranges { closings.Ranges }
{}

/// Calls are done in lexical order, each before the operators around it; lines of two goroutines are apart.
pub fn law_of_calls()
    ensures calls { calls.Calls }
    ensures lines { calls.LinesAreApart }
{}

/// Sizes of channels, depths of calls and names, and counts of children and channels have limits, and past them is a fault.
pub fn law_of_limits()
    ensures sizes { limits.Sizes }
    ensures depths { limits.Depths }
    ensures counts { limits.Counts }
{}

/// Assignments, clauses that receive, turns of a range and calls give variables values; faults and `go` statements give none.
pub fn law_of_names()
    ensures calls { names.OfCalls }
    ensures deep { names.OfDeepCalls }
    ensures children { names.OfChildren }
    ensures receives { names.OfReceives }
{}

/// What these programs print.
pub fn law_of_consoles()
    ensures hand_over { hand_over.Prints }
    ensures pairs { selects.PairsPrint }
    ensures range { closings.RangePrints }
    ensures calls { calls.CallsPrint }
    ensures division { calls.Divides }
    ensures order { calls.LinesInOrder }
{}

/// Worked look-ups: the step that started a goroutine, the sends and receives of a channel by their number, local steps, and
/// why a run of many steps ends.
pub fn law_of_lookups()
    ensures finds { lookups.Finds }
    ensures local { lookups.AreLocal }
    ensures ends { lookups.Ends }
{}

/// Neighbours that depend on each other though their order does not matter: `cap` and `len` with a wait or a close, `len` with a
/// hand-over, a close with a receive of a buffered value, what serves the first of a queue with a wait at its end, and a default
/// with a wait. In both orders each is a step of the same kind, and the state in the end is one. Still the later one goes back
/// with the first.
pub fn law_of_needless_dependence()
    ensures cap_and_wait { neighbours.CapAndWait }
    ensures cap_and_close { neighbours.CapAndClose }
    ensures len_and_wait { neighbours.LenAndWait }
    ensures len_and_close { neighbours.LenAndClose }
    ensures len_and_hand { neighbours.LenAndHand }
    ensures close_and_take { neighbours.CloseAndTake }
    ensures hand_and_wait { neighbours.HandAndWait }
    ensures meet_and_wait { neighbours.MeetAndWait }
    ensures take_and_wait { neighbours.TakeAndWait }
    ensures default_and_wait { neighbours.DefaultAndWait }
    ensures default_and_send_wait { neighbours.DefaultAndSendWait }
{}

/// What Go's memory model orders goes back together, in runs whose sends and receives are counted as Go counts them: a start, a
/// value without a buffer and with one, a buffer past which a value goes from hand to hand, and a close. Two sends into a buffer
/// depend on each other, though Go does not order them.
pub fn law_of_happening_before()
    ensures starts { happens_before.StartsFirst }
    ensures receiver { happens_before.ReceiverWaits }
    ensures sender { happens_before.SenderWaits }
    ensures buffered { happens_before.Buffered }
    ensures handed { happens_before.HandedBetween }
    ensures closes { happens_before.ClosesFirst }
    ensures more { happens_before.MoreThanGo }
{}
