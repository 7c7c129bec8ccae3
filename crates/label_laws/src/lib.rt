//! What holds of labels after every list of calls, over any instruction set: where they lead along their aliases, and
//! how they move.
//!
//! Each law is the contract of a function that does nothing. `specs/Laws` states them. `specs/Sound` has what holds of
//! labels, and of every table that names labels, after each call; the laws follow from it.
#![tactic(auto)]

ghost use Rattle.label_laws.specs.Laws.{AliasesEnd, LabelsNeverMoveForward};

/// Aliases have no cycle: after every list of calls, each label leads along its aliases to one label that is no alias,
/// and that is the one that the definitions find.
pub fn aliases_end()
    ensures { AliasesEnd }
{}

/// Labels never move forward: whatever is called, a label that stands at an offset stands at no larger one afterwards,
/// or has become an alias.
pub fn labels_never_move_forward()
    ensures { LabelsNeverMoveForward }
{}
