//! Each program has a serial run on each input: the run of one thread comes to an end.
#![tactic(auto)]

ghost use Rattle.bc_law_serial.specs.Laws.{RunsEnd, SerialRunsEnd, StepsUnstuck};

/// A run ends, from wherever it goes on: a step ends it, or commits, which the limit bounds, or leaves less pending.
pub fn runs_end()
    ensures { RunsEnd }
{}

/// There is a serial run of each program on each input with each limit. It is sound, and want of memory isn't its end.
pub fn serial_runs_end()
    ensures { SerialRunsEnd }
{}

/// No invocation that the serial run of a well-typed program runs is stuck.
pub fn steps_unstuck()
    ensures { StepsUnstuck }
{}
