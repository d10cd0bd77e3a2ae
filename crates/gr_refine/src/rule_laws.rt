//! The steps of the rules, by what a store contains: laws, each the contract of a function that does nothing.

ghost use Rattle.gr_refine.specs.Sending.{OfEachSend, SendingFaults, SendingHands, SendingBuffers, SendingCannot, SendingMeets};
ghost use Rattle.gr_refine.specs.Sending.{SendingGoesOn};
ghost use Rattle.gr_refine.specs.Receiving.{OfEachReceive, ReceivingTakes, ReceivingMoves, ReceivingMeets, ReceivingEnds};
ghost use Rattle.gr_refine.specs.Receiving.{ReceivingCannot};
ghost use Rattle.gr_refine.specs.Receiving.{ReceivingFindsMover, ReceivingFindsSender, ReceivingGoesOn, ReceivingEndsWell};
ghost use Rattle.gr_refine.specs.Waiting.{ParkingIsEnqueuing, WaitingParks, WaitingIsMade};
ghost use Rattle.gr_refine.specs.Closing.{ClosingOfNilFaults, ClosingOfClosedFaults, ClosingWakes, ClosingFindsWaiters};
ghost use Rattle.gr_refine.specs.Closing.{WakingInTurn, WithdrawingInTurn, OnceNamesTheSame, SameNamesAreWoken};
ghost use Rattle.gr_refine.specs.Closing.{SameNamesAreWithdrawn};
ghost use Rattle.gr_refine.specs.Choosing.{OfEachSelect, NoneReadyIsMade, SomeReadyIsSound};
ghost use Rattle.gr_refine.specs.Choosing.{PickingCommunicates, PickingOfNone, PickingFaults, PickingCannot, PickingHasValues};
ghost use Rattle.gr_refine.specs.Choosing.{DefaultIsTaken, DefaultFaults, DefaultIsNone, DefaultIsLate, DefaultHasValues};
ghost use Rattle.gr_refine.specs.Choosing.{ParkingWaits, ParkingFaults, ParkingHasDefault, ParkingIsLate, ParkingHasValues};
ghost use Rattle.gr_refine.specs.Making.{OfEachActor, MakingMakes, MakingOfNegativeFaults, MakingOfGreatFaults};
ghost use Rattle.gr_refine.specs.Making.{MakingTooManyFaults, MakingGoesOn};
ghost use Rattle.gr_refine.specs.Making.{StartingStarts, StartingTooDeepFaults, StartingTooManyFaults, StartingIsNew};
ghost use Rattle.gr_refine.specs.Making.{CountingItems, CountingPlaces, CountingItemsOfNil, CountingPlacesOfNil};
ghost use Rattle.gr_refine.specs.Making.{CountingItemsGoesOn, CountingPlacesGoesOn};
ghost use Rattle.gr_refine.specs.Going.{MovingMoves, EvaluatingFaults, PrintingPrints, EnteringPushes, EnteringTooDeepFaults};
ghost use Rattle.gr_refine.specs.Going.{EnteringGoesOn};
ghost use Rattle.gr_refine.specs.Going.{LeavingPops, LeavingGoesOn, FinishingEnds, FinishingEndsTheProgram};

/// The steps of a send.
pub fn law_of_sends()
    ensures faults { OfEachSend SendingFaults }
    ensures hands { OfEachSend SendingHands }
    ensures buffers { OfEachSend SendingBuffers }
    ensures cannot { OfEachSend SendingCannot }
    ensures meets { OfEachSend SendingMeets }
    ensures goes_on { OfEachSend SendingGoesOn }
{}

/// The steps of a receive.
pub fn law_of_receives()
    ensures takes { OfEachReceive ReceivingTakes }
    ensures moves { OfEachReceive ReceivingMoves }
    ensures meets { OfEachReceive ReceivingMeets }
    ensures ends { OfEachReceive ReceivingEnds }
    ensures cannot { OfEachReceive ReceivingCannot }
    ensures finds_mover { OfEachReceive ReceivingFindsMover }
    ensures finds_sender { OfEachReceive ReceivingFindsSender }
    ensures goes_on { OfEachReceive ReceivingGoesOn }
    ensures ends_well { OfEachReceive ReceivingEndsWell }
{}

/// The step of a goroutine that comes to wait.
pub fn law_of_waits()
    ensures parks { WaitingParks }
    ensures made { WaitingIsMade }
    ensures parking { ParkingIsEnqueuing }
{}

/// The steps of a close.
pub fn law_of_closes()
    ensures of_nil { ClosingOfNilFaults }
    ensures of_closed { ClosingOfClosedFaults }
    ensures wakes { ClosingWakes }
    ensures finds { ClosingFindsWaiters }
{}

/// Waking and withdrawing goroutines at once does what doing so one after the other does, whatever list names them.
pub fn law_of_orders()
    ensures waking { WakingInTurn }
    ensures withdrawing { WithdrawingInTurn }
    ensures once { OnceNamesTheSame }
    ensures woken { SameNamesAreWoken }
    ensures withdrawn { SameNamesAreWithdrawn }
{}

/// The steps of a select whose clause is picked.
pub fn law_of_picks()
    ensures communicates { OfEachSelect PickingCommunicates }
    ensures of_none { OfEachSelect PickingOfNone }
    ensures faults { OfEachSelect PickingFaults }
    ensures cannot { OfEachSelect PickingCannot }
    ensures has_values { OfEachSelect PickingHasValues }
{}

/// The steps of a select where no clause can proceed.
pub fn law_of_selects()
    ensures made { NoneReadyIsMade }
    ensures some_ready { SomeReadyIsSound }
    ensures default_taken { OfEachSelect DefaultIsTaken }
    ensures default_faults { OfEachSelect DefaultFaults }
    ensures default_none { OfEachSelect DefaultIsNone }
    ensures default_late { OfEachSelect DefaultIsLate }
    ensures default_values { OfEachSelect DefaultHasValues }
    ensures park_waits { OfEachSelect ParkingWaits }
    ensures park_faults { OfEachSelect ParkingFaults }
    ensures park_default { OfEachSelect ParkingHasDefault }
    ensures park_late { OfEachSelect ParkingIsLate }
    ensures park_values { OfEachSelect ParkingHasValues }
{}

/// The steps that make a channel.
pub fn law_of_makes()
    ensures makes { OfEachActor MakingMakes }
    ensures negative { OfEachActor MakingOfNegativeFaults }
    ensures great { OfEachActor MakingOfGreatFaults }
    ensures too_many { OfEachActor MakingTooManyFaults }
    ensures goes_on { OfEachActor MakingGoesOn }
{}

/// The steps that start a goroutine.
pub fn law_of_starts()
    ensures starts { OfEachActor StartingStarts }
    ensures too_deep { OfEachActor StartingTooDeepFaults }
    ensures too_many { OfEachActor StartingTooManyFaults }
    ensures is_new { OfEachActor StartingIsNew }
{}

/// The steps that count the items and the places of a channel.
pub fn law_of_counts()
    ensures items { OfEachActor CountingItems }
    ensures places { OfEachActor CountingPlaces }
    ensures items_of_nil { OfEachActor CountingItemsOfNil }
    ensures places_of_nil { OfEachActor CountingPlacesOfNil }
    ensures items_go_on { OfEachActor CountingItemsGoesOn }
    ensures places_go_on { OfEachActor CountingPlacesGoesOn }
{}

/// The local steps of a goroutine, and the end of the program.
pub fn law_of_going()
    ensures moves { OfEachActor MovingMoves }
    ensures evaluating { OfEachActor EvaluatingFaults }
    ensures prints { OfEachActor PrintingPrints }
    ensures enters { OfEachActor EnteringPushes }
    ensures too_deep { OfEachActor EnteringTooDeepFaults }
    ensures enters_on { OfEachActor EnteringGoesOn }
    ensures leaves { OfEachActor LeavingPops }
    ensures leaves_on { OfEachActor LeavingGoesOn }
    ensures finishes { OfEachActor FinishingEnds }
    ensures exits { OfEachActor FinishingEndsTheProgram }
{}
