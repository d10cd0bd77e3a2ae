//! What goroutines of code do is what the rules do: laws, each the contract of a function that does nothing.

ghost use Rattle.std.specs.Prelude.{ℕ};
ghost use Rattle.gr_code.specs.Code.{Meanings};
ghost use Rattle.gr_code.specs.CodeFrames.{ProgramCode};
ghost use Rattle.gr_refine.specs.Tasks.{OfEachGoroutine, AttemptIsOfTheTask, TaskIsAStep, TaskIsSound, AttemptIsOfTheRule};
ghost use Rattle.gr_refine.specs.Tasks.{RuleIsAStep, RuleIsSound};
ghost use Rattle.gr_refine.specs.Tasks.{TaskHasNoChoice, TaskWantsAChoice, TaskIsThere, LocalStepIsThere, LocalStaysWithin};
ghost use Rattle.gr_refine.specs.Local.{LocalStepIsAStep};
ghost use Rattle.gr_refine.specs.Arriving.{OfEachStep, ValueArrives, ChannelArrives, CompletionArrives, ChildArrives};
ghost use Rattle.gr_refine.specs.Arriving.{PassingArrives};
ghost use Rattle.gr_refine.specs.Arriving.{ValueCanArrive, CompletionCanArrive, ChildCanArrive, PassingCanArrive};
ghost use Rattle.gr_refine.specs.Arriving.{SelectHasClauses};
ghost use Rattle.gr_refine.specs.Arriving.{ParkedIsRuled, FinishedIsRuled, FaultedIsRuled};
ghost use Rattle.gr_refine.specs.Arriving.{OfEachProgram, MeetingArrives, MeetingCanArrive, RetriedIsRuled, EnteredIsRuled};
ghost use Rattle.gr_refine.specs.Arriving.{CanBeEntered, StartedIsRuled};
ghost use Rattle.gr_refine.specs.CodeSteps.{MakeOfCode, MakeCanArrive, GoOfCode, GoIsNew, LenOfCode, CapOfCode};
ghost use Rattle.gr_refine.specs.CodeSteps.{CloseOfCode, CloseFindsWaiters, FinishOfCode, ExitOfCode};
ghost use Rattle.gr_refine.specs.CodeFaults.{MakeOfNegative, MakeOfGreat, MakeOfTooMany, GoTooDeep, GoTooMany, CloseNil};
ghost use Rattle.gr_refine.specs.CodeFaults.{CloseTwice};
ghost use Rattle.gr_refine.specs.CodeFaults.{LenOfNil, CapOfNil, LenCanArrive, CapCanArrive};
ghost use Rattle.gr_refine.specs.Starting.{BegunIsTheStart, BegunStands, MainIsEntered};
ghost use Rattle.gr_refine.specs.Standing.{OfEachCode, LocalStepKeepsStanding, ArrivalKeepsStanding, ChangeKeepsStanding};
ghost use Rattle.gr_refine.specs.Standing.{GoneKeepsStanding};
ghost use Rattle.gr_refine.specs.Standing.{WakingKeepsStanding, SameGoroutinesStand};

/// The attempt of a goroutine of code is that of the deed that its task means.
pub fn law_of_tasks()
    ensures attempt { OfEachGoroutine AttemptIsOfTheTask }
    ensures step { OfEachGoroutine TaskIsAStep }
    ensures sound { OfEachGoroutine TaskIsSound }
    ensures rule { OfEachGoroutine AttemptIsOfTheRule }
    ensures rule_step { OfEachGoroutine RuleIsAStep }
    ensures rule_sound { OfEachGoroutine RuleIsSound }
    ensures no_choice { OfEachGoroutine TaskHasNoChoice }
    ensures select { OfEachGoroutine TaskWantsAChoice }
    ensures is_there { OfEachGoroutine TaskIsThere }
{}

/// A local step of a goroutine of code is the step of the rules. Where the rules have such a step, code has one too.
pub fn law_of_local_steps()
    ensures step { OfEachGoroutine LocalStepIsAStep }
    ensures is_there { OfEachGoroutine LocalStepIsThere }
    ensures within { LocalStaysWithin }
{}

/// What arrives for a goroutine of code leaves it as the rules leave theirs; where the rules go on, so does code.
pub fn law_of_arrivals()
    ensures value { OfEachStep ValueArrives }
    ensures channel { OfEachStep ChannelArrives }
    ensures completion { OfEachStep CompletionArrives }
    ensures child { OfEachStep ChildArrives }
    ensures passing { OfEachStep PassingArrives }
    ensures meeting { OfEachProgram MeetingArrives }
    ensures value_can { OfEachStep ValueCanArrive }
    ensures completion_can { OfEachStep CompletionCanArrive }
    ensures child_can { OfEachStep ChildCanArrive }
    ensures passing_can { OfEachStep PassingCanArrive }
    ensures meeting_can { OfEachProgram MeetingCanArrive }
    ensures clauses { OfEachStep SelectHasClauses }
{}

/// A goroutine of code comes to wait, ends, faults, is ready again and starts as by the rules.
pub fn law_of_statuses()
    ensures parked { OfEachStep ParkedIsRuled }
    ensures finished { OfEachStep FinishedIsRuled }
    ensures faulted { OfEachStep FaultedIsRuled }
    ensures retried { OfEachProgram RetriedIsRuled }
    ensures started { OfEachProgram StartedIsRuled }
{}

/// A call of code begins as by the rules, and so does a program.
pub fn law_of_beginnings()
    ensures entered { OfEachProgram EnteredIsRuled }
    ensures can_be_entered { OfEachProgram CanBeEntered }
    ensures begun { OfEachProgram BegunIsTheStart }
    ensures stands { OfEachProgram BegunStands }
    ensures main { OfEachProgram MainIsEntered }
{}

/// The steps of goroutines of code that make channels, start goroutines, count, close and end. Where the rules have such a
/// step, code goes on, names are new, and the goroutines that wait are there.
pub fn law_of_code_steps()
    ensures makes { OfEachGoroutine MakeOfCode }
    ensures makes_on { OfEachGoroutine MakeCanArrive }
    ensures starts { OfEachGoroutine GoOfCode }
    ensures starts_on { OfEachGoroutine GoIsNew }
    ensures items { OfEachGoroutine LenOfCode }
    ensures places { OfEachGoroutine CapOfCode }
    ensures closes { OfEachGoroutine CloseOfCode }
    ensures closes_on { OfEachGoroutine CloseFindsWaiters }
    ensures finishes { OfEachGoroutine FinishOfCode }
    ensures exits { OfEachGoroutine ExitOfCode }
{}

/// The faults of goroutines of code that the rules find beyond the goroutine, and counts of nil. Where the count of a channel is
/// a step of the rules, code goes on with it.
pub fn law_of_code_faults()
    ensures negative { OfEachGoroutine MakeOfNegative }
    ensures great { OfEachGoroutine MakeOfGreat }
    ensures channels { OfEachGoroutine MakeOfTooMany }
    ensures deep { OfEachGoroutine GoTooDeep }
    ensures children { OfEachGoroutine GoTooMany }
    ensures nil { OfEachGoroutine CloseNil }
    ensures twice { OfEachGoroutine CloseTwice }
    ensures items_of_nil { OfEachGoroutine LenOfNil }
    ensures places_of_nil { OfEachGoroutine CapOfNil }
    ensures items_on { OfEachGoroutine LenCanArrive }
    ensures places_on { OfEachGoroutine CapCanArrive }
{}

/// The frames of goroutines of code stand at instructions, wherever they go.
pub fn law_of_standing()
    ensures locally { OfEachCode LocalStepKeepsStanding }
    ensures arriving { OfEachCode ArrivalKeepsStanding }
    ensures changing { OfEachCode ChangeKeepsStanding }
    ensures gone { OfEachCode GoneKeepsStanding }
    ensures waking { OfEachCode WakingKeepsStanding }
    ensures same { OfEachCode SameGoroutinesStand }
{}
