// Calls and answers as values.
use model::Refusal;
use model::rows::Region;

/// A call of a buffer, with its arguments.
#[derive(Clone, Copy)]
pub enum Call<'a> {
    GetLabel,
    BindLabel {
        label: u32,
        skip: bool,
    },
    PutData {
        trap: u32,
        bytes: &'a [u8],
    },
    AlignTo {
        n: u32,
    },
    UseLabelAtOffset {
        label: u32,
        kind: u32,
        bytes: &'a [u8],
    },
    AddUncondBranch {
        label: u32,
        kind: u32,
        bytes: &'a [u8],
    },
    AddCondBranch {
        label: u32,
        kind: u32,
        bytes: &'a [u8],
        inverted: &'a [u8],
    },
    DeferTrap {
        trap: u32,
    },
    RegisterConstant {
        size: u32,
        align: u32,
    },
    GetLabelForConstant {
        number: u32,
    },
    OptimizeBranches {
        skip: bool,
    },
    StartPatchable,
    /// closes the open region
    EndPatchable,
    CurOffset,
    ResolveLabelOffset {
        label: u32,
    },
    IslandNeeded {
        distance: u32,
    },
}

/// What a granted call says.
#[derive(Clone, Copy)]
pub enum Reply {
    /// nothing more
    Granted,
    /// a label, an offset, a number
    Number(u32),
    /// where the closed region lies
    Closed(Region),
    /// yes or no, to a question
    YesNo(bool),
}

/// What a call answered.
pub type Answer = Result<Reply, Refusal>;
