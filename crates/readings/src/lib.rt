//! Two readings of a list of calls, and that they agree.
//!
//! The problem: a buffer's calls say what a program does (put these bytes, branch to that label), and its code says it again, in bytes that
//! were cut, turned round, moved behind veneers and patched. The draft is the first reading: the calls' items in order, through which a
//! walk goes item by item and from label to label (`specs/Draft`, `specs/Drafting`). The code is the second: a walk goes from offset to
//! offset, by the branches and veneers that an instruction set finds there (`specs/Code`). Under one truth for every condition both are
//! systems of single steps that stop, go on, or run off (`specs/Walk`). They agree from two starts if both arrive at the same piece, trap or
//! constant, and circle together, unless the draft runs off (`specs/Agree`).
//!
//! The idea: every offset of the code means a position of the draft. A layout, which exists in proofs only, lists the cells of the code,
//! each with its meaning (`specs/Layout`), and grows call by call and rule by rule (`specs/Growth`). Meanings are positions of the whole
//! draft from the first call on, so nothing unfinished is compared. A step of the code at a cell is some steps of the draft from its
//! meaning; none at all only at a veneer, whose rank is above that of what it leads to, so that veneers cannot lead round for ever.
//!
//! What is proved where:
//!
//! - `Simulation`: if each step of one system is one or more steps of another, or none while a rank falls, walks end alike.
//! - `Ways`: walks of the draft that run off or come to a position, and how they compose.
//! - `Cells`, `Targets`: the offsets of cells, and how far fixed targets go.
//! - `Follows`: what it is that a layout follows its draft. `Carry`: how that is carried from one layout to the next.
//! - `Calls`, `Simplify`, `Islands`: it is kept by each call, each rule for branches, and each step of an island. `Grown` puts them together.
//! - `Pieces`, `Kept`: each piece has its cell; each trap or constant stands where its label is.
//! - `Placing`, `Aliases`, `Unplaced`: where the draft places a label; aliases end; a label without a place leads nowhere.
//! - `Steps`, `Stands`, `Meaning`: what a step in the code does at each cell, and what an offset means.
//! - `Agreement`, `EveryStart`: the two readings agree, from every start.
#![tactic(auto)]

ghost use Rattle.readings.specs.Layouts.{LayoutsAgree};

/// Code that is laid out as its draft grew does what the draft says, from every start.
pub fn layouts_agree()
    ensures { LayoutsAgree }
{}
