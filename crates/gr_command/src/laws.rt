//! What the texts of commands and replies mean, each the contract of a function that does nothing.

ghost use Rattle.gr_command.specs.Examples.{CommandsAreRead, WaysBackAreRead, OrdersAreRead};
ghost use Rattle.gr_command.specs.Examples.{OthersAreRejected, OtherWaysAreRejected, OtherOrdersAreRejected, LinesAreBlank};
ghost use Rattle.gr_command.specs.Examples.{LinesAreWritten, StepsAreWritten, GoroutinesAreShown, ChannelsAreShown};
ghost use Rattle.gr_command.specs.Examples.{RowsAreWritten};
ghost use Rattle.gr_command.specs.Laws.{TellsAll};

/// What a reply holds of a goroutine is enough for the text of what the rules show of it.
#[tactic(auto, using(crate::proofs::Shown::tells_all))]
pub fn law_of_shown()
    ensures { TellsAll }
{}

/// Worked examples of lines of commands.
#[tactic(auto, unfolding(gr_scan::specs::Marks::keywords))]
pub fn examples_of_lines()
    ensures commands { CommandsAreRead }
    ensures ways_back { WaysBackAreRead }
    ensures orders { OrdersAreRead }
    ensures others { OthersAreRejected }
    ensures other_ways { OtherWaysAreRejected }
    ensures other_orders { OtherOrdersAreRejected }
    ensures blank { LinesAreBlank }
{}

/// Worked examples of the texts of replies.
pub fn examples_of_replies()
    ensures lines { LinesAreWritten }
    ensures steps { StepsAreWritten }
    ensures goroutines { GoroutinesAreShown }
    ensures channels { ChannelsAreShown }
    ensures rows { RowsAreWritten }
{}
