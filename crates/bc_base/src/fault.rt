// The fault of a read or a write.

/// A read or a write that failed. The count of faults of its object says so too.
#[derive(Clone, Copy, Debug, PartialEq, Eq)]
pub struct Failed;
