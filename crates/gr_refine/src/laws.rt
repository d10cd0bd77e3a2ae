//! What a store contains, and the state that it is: laws, each the contract of a function that does nothing.

ghost use Rattle.gr_base.specs.declared.values.Value.{Value};
ghost use Rattle.gr_refine.specs.Changes.{RunIsWritten, GoroutineIsWritten, GoneIsWritten, WritesInTurn};
ghost use Rattle.gr_refine.specs.Changes.{GateIsWritten, EnteringIsWritten, LeavingIsWritten, MovingUpIsWritten, MakingIsWritten};
ghost use Rattle.gr_refine.specs.Changes.{UnmakingIsWritten};
ghost use Rattle.gr_refine.specs.Gates.{GatesAreWritten, WithdrawingIsWritten, EnqueuingIsWritten, GatesGoInTurn};
ghost use Rattle.gr_refine.specs.Gates.{WaitsNameChannelsOnce};
ghost use Rattle.gr_refine.specs.Looks.{RunIsLookedUp, GoroutineIsLookedUp, WaiterIsLookedUp, GateIsLookedUp};
ghost use Rattle.gr_refine.specs.Looks.{TailIsLookedUp, HeadIsLookedUp, RoomIsLookedUp, ItemIsLookedUp};
ghost use Rattle.gr_refine.specs.Looks.{AttemptIsOfTheFrame, OverIsRefused, UnknownIsRefused, DoneIsRefused, WaitingIsRefused};
ghost use Rattle.gr_refine.specs.Partners.{WithdrawnIsLookedUp, EnqueuedIsLookedUp, WaitersAreLookedUp, MetIsLookedUp};
ghost use Rattle.gr_refine.specs.Partners.{ReadinessIsLookedUp, NoneReadyIsLookedUp, SomeReadyIsRefused};
ghost use Rattle.gr_refine.specs.Presence.{GateIsThere, WaiterIsThere, WithdrawnIsThere, EnqueuedIsThere, WaitersAreThere};
ghost use Rattle.gr_refine.specs.Presence.{MetIsThere, CommunicationIsMade};
ghost use Rattle.gr_refine.specs.Performing.{SameEndSameStep, DoingIsAStep, ProceedingIsAStep, FaultIsAStep};
ghost use Rattle.gr_refine.specs.Meetings.{MeetingIsWritten, MovingIsWritten, NamesInFront, NamesOfWaits};
ghost use Rattle.gr_refine.specs.Meetings.{WithdrawingIsMeeting, LeavingSendersIsThin, LeavingReceiversIsThin, ClosingIsWritten};
ghost use Rattle.gr_refine.specs.Meetings.{NobodyLeaves, OneWaitIsHere, MeetingHereAlone};
ghost use Rattle.gr_refine.specs.Attempting.{AttemptIsOfTheDeed, StepIsOfTheMachine, DeedIsAStep, ChoiceIsRefused};
ghost use Rattle.gr_refine.specs.Attempting.{SelectWantsAChoice, ReadyHasAFrame, FrameHasADeed};
ghost use Rattle.gr_refine.specs.Machines.{PerformedIsStep, StepIsPerformed, RefusalIsLeaf};
ghost use Rattle.gr_refine.specs.TakingBack.{ChangesGoBackAnywhere, ContentsArePutBack, TakingBackPutsBack};
ghost use Rattle.gr_refine.specs.NamedBack.{NamedChangesFit, NamedChangesGoBack};
ghost use Rattle.gr_refine.specs.Written.{WrittenPartsAreNamed, AllWrittenPartsAreNamed, FullSlotsMeet};

/// The end of the program, a change of a goroutine, and its end each write one object.
pub fn law_of_contents()
    ensures run { RunIsWritten }
    ensures goroutine { GoroutineIsWritten }
    ensures gone { GoneIsWritten }
    ensures in_turn { WritesInTurn }
{}

/// A channel that changes writes the objects that the rules write.
pub fn law_of_channels()
    ensures gate { GateIsWritten }
    ensures entering { EnteringIsWritten }
    ensures leaving { LeavingIsWritten }
    ensures moving_up { MovingUpIsWritten }
    ensures making { MakingIsWritten }
    ensures unmaking { UnmakingIsWritten }
{}

/// Changing the gates of several channels at once does what changing one after the other does.
pub fn law_of_gates()
    ensures gates { GatesAreWritten }
    ensures withdrawing { WithdrawingIsWritten }
    ensures enqueuing { EnqueuingIsWritten }
    ensures in_turn { GatesGoInTurn }
    ensures once { WaitsNameChannelsOnce }
{}

/// What the rules learn where they ask for an object is what the store contains.
pub fn law_of_looks()
    ensures run { RunIsLookedUp }
    ensures goroutine { GoroutineIsLookedUp }
    ensures waiter { WaiterIsLookedUp }
    ensures gate { GateIsLookedUp }
    ensures tail { TailIsLookedUp }
    ensures head { HeadIsLookedUp }
    ensures room { RoomIsLookedUp }
    ensures item { ItemIsLookedUp }
{}

/// The attempt of a goroutine that runs is that of its innermost frame, and any other is refused.
pub fn law_of_attempts()
    ensures frame { AttemptIsOfTheFrame }
    ensures over { OverIsRefused }
    ensures unknown { UnknownIsRefused }
    ensures done { DoneIsRefused }
    ensures waiting { WaitingIsRefused }
{}

/// Where an attempt ends is the step of the machine, or why there is none.
pub fn law_of_machines()
    ensures performed { PerformedIsStep }
    ensures step { StepIsPerformed }
    ensures refusal { RefusalIsLeaf }
{}

/// What the rules learn of goroutines that wait, and of several channels, is what the store contains.
pub fn law_of_partners()
    ensures withdrawn { WithdrawnIsLookedUp }
    ensures enqueued { EnqueuedIsLookedUp }
    ensures waiters { WaitersAreLookedUp }
    ensures met_sender { MetIsLookedUp Value }
    ensures met_receiver { MetIsLookedUp (Unit {0}) }
    ensures readiness { ReadinessIsLookedUp }
    ensures none_ready { NoneReadyIsLookedUp }
    ensures some_ready { SomeReadyIsRefused }
{}

/// Where no attempt is refused as unsound, what the rules ask for is there.
pub fn law_of_presence()
    ensures gate { GateIsThere }
    ensures waiter { WaiterIsThere }
    ensures withdrawn { WithdrawnIsThere }
    ensures enqueued { EnqueuedIsThere }
    ensures waiters { WaitersAreThere }
    ensures met_sender { MetIsThere Value }
    ensures met_receiver { MetIsThere (Unit {0}) }
    ensures communication { CommunicationIsMade }
{}

/// What a store contains after a goroutine that waited was met is what the rules write. So is what it contains after all that
/// waited on a channel were woken.
pub fn law_of_meetings()
    ensures meeting { MeetingIsWritten }
    ensures moving { MovingIsWritten }
    ensures names_in_front { NamesInFront }
    ensures names_of_waits { NamesOfWaits }
    ensures withdrawing { WithdrawingIsMeeting }
    ensures senders { LeavingSendersIsThin }
    ensures receivers { LeavingReceiversIsThin }
    ensures nobody { NobodyLeaves }
    ensures one_wait { OneWaitIsHere }
    ensures here_alone { MeetingHereAlone }
    ensures closing { ClosingIsWritten }
{}

/// A goroutine takes the step that its attempt comes to.
pub fn law_of_performing()
    ensures same { SameEndSameStep }
    ensures doing { DoingIsAStep }
    ensures proceeding { ProceedingIsAStep }
    ensures fault { FaultIsAStep }
{}

/// A step is taken back wherever what it wrote stands: that puts the saved contents back, and changes nothing else.
pub fn law_of_taking_back()
    ensures changes { ChangesGoBackAnywhere }
    ensures contents { ContentsArePutBack }
    ensures steps { TakingBackPutsBack }
    ensures named_fit { NamedChangesFit }
    ensures named_back { NamedChangesGoBack }
    ensures written { WrittenPartsAreNamed }
    ensures all_written { AllWrittenPartsAreNamed }
    ensures full_slots { FullSlotsMeet }
{}

/// From the deed of a goroutine's innermost frame to the step of the machine.
pub fn law_of_deeds()
    ensures attempt { AttemptIsOfTheDeed }
    ensures step { DeedIsAStep }
    ensures machine { StepIsOfTheMachine }
    ensures choice { ChoiceIsRefused }
    ensures select { SelectWantsAChoice }
    ensures has_frame { ReadyHasAFrame }
    ensures has_deed { FrameHasADeed }
{}
