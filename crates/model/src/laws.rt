// What holds of every list of calls, each law as a contract.
ghost use Rattle.model.specs.Laws.{NoUseLost, CapacitiesKept, UsesInPlace, UsesFit, BranchesStand, SimplificationEnds, SimplifyingTwice, CodeBeforeBranchesKept};

/// No use is lost, whatever is called: after every call, each use that was accepted or made is patched, removed or
/// waits.
pub fn no_use_lost()
    ensures { NoUseLost }
{}

/// No table outgrows its capacity, whatever is called.
pub fn capacities_kept()
    ensures { CapacitiesKept }
{}

/// Every use that waits stands whole and aligned within the code, and shares no byte with another, whatever is called
/// before the buffer is finished.
pub fn uses_in_place()
    ensures { UsesInPlace }
{}

/// Every use that waits fits its set, whatever is called before the buffer is finished: of one of its kinds, aligned, its
/// bytes such as may be patched, and its label, where it stands, at a multiple of the alignment.
pub fn uses_fit()
    ensures { UsesFit }
{}

/// The standing branches stand in order, within the code, each with a fixup that waits, whatever is called.
pub fn branches_stand()
    ensures { BranchesStand }
{}

/// Simplifying ends: after all its rounds no rule applies, whatever was called before.
pub fn simplification_ends()
    ensures { SimplificationEnds }
{}

/// Simplifying a second time, straight after the first, changes nothing.
pub fn simplifying_twice()
    ensures { SimplifyingTwice }
{}

/// Simplifying keeps the code before the first standing branch.
pub fn code_before_branches_kept()
    ensures { CodeBeforeBranchesKept }
{}
