//! Laws of a channel's objects, each the contract of a function that does nothing.

ghost use Rattle.gr_channels.specs.Changes.{TakenBackInOrder};
ghost use Rattle.gr_channels.specs.Objects.{SlotsHoldItems, ObjectsMakeTheContent, EmptySlotMeansRoom, EmptySlotMeansNoItem};
ghost use Rattle.gr_channels.specs.Objects.{OnlyWrittenChanges, WrittenChanges, TakenBackAnywhere};

/// Number k stands in slot k mod capacity, and a slot holds nothing else.
pub fn law_of_slots()
    ensures { SlotsHoldItems }
{}

/// A channel's objects make its content.
pub fn law_of_objects()
    ensures { ObjectsMakeTheContent }
{}

/// The slots of tail and head tell whether there is room, and whether there is an item.
pub fn law_of_ends()
    ensures room { EmptySlotMeansRoom }
    ensures front { EmptySlotMeansNoItem }
{}

/// A change changes exactly the objects that it writes.
pub fn law_of_changes()
    ensures kept { OnlyWrittenChanges }
    ensures changed { WrittenChanges }
{}

/// A change can be taken back wherever what it wrote stands, whatever became of the rest. Then what it wrote is as before it,
/// and the rest stays.
pub fn law_of_undoing()
    ensures { TakenBackAnywhere }
{}

/// Changes made one after the other are taken back in the reverse order, with no memory. So a goroutine that is withdrawn
/// after one of its waiters was met comes back first, and then the waiter.
pub fn law_of_order()
    ensures { TakenBackInOrder }
{}
