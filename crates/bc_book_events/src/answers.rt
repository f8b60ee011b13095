// What the events of the book answer.

use bc_data::list::List;
use bc_data::run::{Body, FaultKind, Invocation, Stop};

/// What a worker gets that asks for work: an invocation; nothing for now, as no pending one is of a task that it may run; or the
/// stop of a run that is over.
#[derive(Clone, Copy, Debug, PartialEq, Eq)]
pub enum Taken {
    Got(Invocation),
    Idle,
    Over(Stop),
}

/// What a worker gets that begins its invocation: the bodies of the parameters' objects, or nothing where the invocation
/// is not enabled any more.
#[derive(Debug, Drop)]
pub enum Begun {
    Ready(List<Body>),
    Stale,
}

/// What becomes of an invocation that exits: it is committed, and the history has this length; the store has no room for
/// it; the body of this object is not the one that it ran over; or the run is over.
#[derive(Clone, Copy, Debug, PartialEq, Eq)]
pub enum Commit {
    Committed(u32),
    NoRoom(FaultKind),
    Moved { id: u32 },
    Over(Stop),
}

/// What becomes of an invocation that faults: it is recorded, or the body of this object is not the one that it ran over.
#[derive(Clone, Copy, Debug, PartialEq, Eq)]
pub enum Failing {
    Recorded,
    Moved { id: u32 },
}
