//! How long a worker of a table of tags lives.

ghost use Rattle.live_tables.specs.tags.Live.{FewLeaveLife};

/// A worker that has done at most 2^24 operations has life left for another.
pub fn few_operations_leave_life()
    ensures { FewLeaveLife }
{}
