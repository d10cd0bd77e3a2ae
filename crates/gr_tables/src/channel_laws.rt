//! Laws of the channels of a store, each the contract of a function that does nothing.

ghost use Rattle.gr_tables.specs.NamedChannels.{ChangesJoin, ChangesGoBack, MadeIsRemoved};

/// Changes of channels made one after the other are one list of changes, and taking them back leads to where they began. So
/// steps that are taken back one after the other, the last one first, need no memory.
pub fn law_of_going_back()
    ensures joined { ChangesJoin }
    ensures back { ChangesGoBack }
    ensures made { MadeIsRemoved }
{}
