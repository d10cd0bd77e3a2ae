//! The rules of steps of a running program, as definitions: what each step of a goroutine does, and when there is none. Its
//! functions do nothing: their contracts are worked examples, which are computed.
#![tactic(auto)]

ghost use Rattle.gr_rules.specs.ExamplePoints.{PartsInOrder, WaysOut, TurnsInOrder};
ghost use Rattle.gr_rules.specs.ExampleSteps.{ItemsBeforeSenders, PartnersMove, OneClauseIsMet, ReadyOrDefault, AllThatIsWritten};
ghost use Rattle.gr_rules.specs.ExampleSteps.{StepsAreTheirGoroutines, AllAreWoken, FaultsStop, ChildrenAreCounted};
ghost use Rattle.gr_rules.specs.ExampleSteps.{NamesOfValues};
ghost use Rattle.gr_rules.specs.ExampleValues.{AtTheLimits, Quotients, Shifts, Zeros};

/// Results are what is left in 64 bits. Quotients are rounded toward zero. Shift counts have no upper limit. A zero divisor
/// or a negative count is a fault, unless it stands where nothing is evaluated.
pub fn examples_of_values()
    ensures limits { AtTheLimits }
    ensures quotients { Quotients }
    ensures shifts { Shifts }
    ensures zeros { Zeros }
{}

/// Parts are done from left to right, and operands before operators. The right operand of `&&` is not entered before the left
/// one is known. `break` and `continue` leave as many statements as they say. The post statement of a loop comes after each
/// of its turns.
pub fn examples_of_points()
    ensures parts { PartsInOrder }
    ensures ways { WaysOut }
    ensures turns { TurnsInOrder }
{}

/// A receive takes the item that is there before it meets a sender, which moves up. A goroutine that waits is met by a step
/// of the other goroutine alone, and the other clauses of its select are withdrawn. The default clause is taken where no
/// other is ready. What a step writes is in the table of touches, among it the goroutine that takes the step. Closing wakes
/// all that wait. A fault stops the program. Children are counted. Assignments and calls give values to names.
pub fn examples_of_steps()
    ensures items { ItemsBeforeSenders }
    ensures partners { PartnersMove }
    ensures clauses { OneClauseIsMet }
    ensures defaults { ReadyOrDefault }
    ensures writes { AllThatIsWritten }
    ensures steps { StepsAreTheirGoroutines }
    ensures closing { AllAreWoken }
    ensures faults { FaultsStop }
    ensures children { ChildrenAreCounted }
    ensures names { NamesOfValues }
{}
