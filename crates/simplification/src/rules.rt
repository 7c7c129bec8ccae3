// The rules of simplification, in the order in which they are tried.

/// What may be done to the last standing branch.
#[derive(Clone, Copy)]
pub enum Rule {
    /// it leads to where it ends: cut it
    CutToNext,
    /// labels at its start become aliases of its target
    Redirect,
    /// nothing falls into it: cut it
    CutUnreached,
    /// the conditional before it only jumps over it: turn that round, and cut it
    TurnBefore,
}

/// What came of a rule.
// Three ways without a value: an Option or a ControlFlow over a flag would only lose their names.
#[derive(Clone, Copy)]
pub enum Outcome {
    /// it applied, and another round begins
    Applied,
    /// it says that the rounds are over
    Stopped,
    /// it does not apply
    Passed,
}
