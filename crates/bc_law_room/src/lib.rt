//! What never shrinks: objects keep their kinds and numbers of cells, and room that is used stays used.
#![tactic(auto)]

ghost use Rattle.bc_law_room.specs.Laws.{FailuresStay, HistoriesGrow, KeepsKinds, RoomIsOfSums, RoomStaysUsed};

/// A commit keeps the kind and the number of cells of each object, and all instances and output.
pub fn keeps_kinds()
    ensures { KeepsKinds }
{}

/// So does a history.
pub fn histories_grow()
    ensures { HistoriesGrow }
{}

/// A commit lacks room exactly where one of four sums passes its limit.
pub fn room_is_of_sums()
    ensures { RoomIsOfSums }
{}

/// Room that is used stays used, and what faults for want of it goes on to do so.
pub fn room_stays_used()
    ensures { RoomStaysUsed }
{}

/// A failure stays one while the objects that it touched stay as they are.
pub fn failures_stay()
    ensures { FailuresStay }
{}
