//! What holds of every island, over any instruction set that keeps the laws.
//!
//! Each law is the contract of a function that does nothing. `specs/Laws` states them, and `specs/Waiting` says what may
//! become of the uses that wait.
#![tactic(auto)]

ghost use Rattle.island_laws.specs.Laws.{IslandsMoveNoLabel, IslandsWriteInFieldsOnly, NoUseLostOrDoubled, PatchedUsesRead};

/// An island moves no label: one that stands at an offset, or is an alias, is after it as it was.
pub fn islands_move_no_label()
    ensures { IslandsMoveNoLabel }
{}

/// Of the code before it, an island writes only the fields of uses that wait.
pub fn islands_write_in_fields_only()
    ensures { IslandsWriteInFieldsOnly }
{}

/// A use that waits before an island waits after it as it was, or reads the displacement to its label or to a veneer
/// that stands whole behind the code and waits for the same label.
pub fn patched_uses_read()
    ensures { PatchedUsesRead }
{}

/// An island loses no use and doubles none.
pub fn no_use_lost_or_doubled()
    ensures { NoUseLostOrDoubled }
{}
