//! What holds of finishing after every list of calls, over any instruction set: it ends with nothing waiting, after as
//! few islands as that takes.
//!
//! Each law is the contract of a function that does nothing. `specs/Laws` states them, and `specs/Islands` has islands
//! one after another as a relation, which counts them without a bound.
#![tactic(auto)]

ghost use Rattle.finish_laws.specs.Laws.{FinishedIsDone, IslandsBounded, RefusedFinishKeeps, BrokenFinish, IslandsReachEnd, PoolKeeps};

/// A finished buffer is done, whatever was called: no use waits, no trap is deferred and no constant requested.
pub fn finished_is_done()
    ensures { FinishedIsDone }
{}

/// Finishing makes as many islands as it answers: each where something waits or is pending, until nothing is, and at
/// most two more than the longest chain of veneers.
pub fn islands_bounded()
    ensures { IslandsBounded }
{}

/// No bound cuts finishing short: with a larger one it does the same.
pub fn islands_reach_end()
    ensures { IslandsReachEnd }
{}

/// Refused before any island, finishing changes nothing.
pub fn refused_finish_keeps()
    ensures { RefusedFinishKeeps }
{}

/// Refused later, finishing broke off in an island, and the buffer is broken off.
pub fn broken_finish()
    ensures { BrokenFinish }
{}

/// Copying the pool keeps the labels and the uses that wait.
pub fn pool_keeps()
    ensures { PoolKeeps }
{}
