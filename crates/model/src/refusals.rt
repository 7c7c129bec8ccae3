// Why a call is refused.
ghost use Rattle.std.specs.Prelude.{◌≡◌};
ghost use Rattle.model.specs.Refusals.{refusal_number};

/// Why a call is refused.
#[derive(Clone, Copy, Debug)]
pub enum Refusal {
    /// the buffer broke off earlier
    BrokenOff,
    /// a region is open; at closing, the region is not the open one
    RegionOpen,
    /// there is no label of that number
    NoSuchLabel,
    /// the label is bound, or reserved for a trap or a constant
    AlreadyBound,
    /// the current offset is no multiple of the alignment
    NotAligned,
    /// the set has no kind of that number
    NoSuchKind,
    /// the bytes or the trap code are not what the call takes
    BadBytes,
    /// the code would be longer than it may be
    CodeFull,
    /// there are as many labels as there may be
    LabelsFull,
    /// as many fixups wait as may
    FixupsFull,
    /// as many branches stand as may
    BranchesFull,
    /// there are as many traps as there may be
    TrapsFull,
    /// as many constants were registered, or requested, as may be
    ConstantsFull,
    /// the constant's size or alignment is not one that it may have
    BadConstant,
    /// there is no constant of that number
    NoSuchConstant,
    /// the pool is not as long as all constants together
    BadPool,
    /// a fixup waits for this label, which nothing will bind
    UnboundLabel(u32),
    /// a label or a veneer is out of a fixup's reach
    OutOfReach,
    /// the number is no power of two up to 64
    BadAlignment,
    /// there are as many regions as there may be
    RegionsFull,
    /// there is no region of that number
    NoSuchRegion,
}

/// The number that stands for the refusal wherever refusals are numbered.
impl From<Refusal> for u32 {
    ghost from_gives = { λ e r. r ≡ refusal_number e };

    fn from(refusal: Refusal) -> u32 {
        match refusal {
            Refusal::BrokenOff => 1,
            Refusal::RegionOpen => 2,
            Refusal::NoSuchLabel => 3,
            Refusal::AlreadyBound => 4,
            Refusal::NotAligned => 5,
            Refusal::NoSuchKind => 6,
            Refusal::BadBytes => 7,
            Refusal::CodeFull => 8,
            Refusal::LabelsFull => 9,
            Refusal::FixupsFull => 10,
            Refusal::BranchesFull => 11,
            Refusal::TrapsFull => 12,
            Refusal::ConstantsFull => 13,
            Refusal::BadConstant => 14,
            Refusal::NoSuchConstant => 15,
            Refusal::BadPool => 16,
            Refusal::UnboundLabel(_) => 17,
            Refusal::OutOfReach => 18,
            Refusal::BadAlignment => 19,
            Refusal::RegionsFull => 20,
            Refusal::NoSuchRegion => 21,
        }
    }
}
