// Why a displacement can't be written.
ghost use Rattle.std.specs.Prelude.{◌≡◌};
ghost use Rattle.isa.specs.Refusals.{refusal_number};

/// Why a patch is turned away, in the order of checking.
#[derive(Clone, Copy, PartialEq, Eq, Debug)]
pub enum PatchRefusal {
    /// the set has no kind of that number
    NoSuchKind,
    /// the bytes are not as many as the kind patches
    WrongLength,
    /// the kind adds, and the bytes do not read 0
    NotZero,
    /// the displacement is no multiple of the alignment
    NotAligned,
    /// the displacement is out of the kind's range
    OutOfReach,
}

/// The number that stands for the refusal wherever refusals are numbered.
impl From<PatchRefusal> for u32 {
    ghost from_gives = { λ e r. r ≡ refusal_number e };

    fn from(refusal: PatchRefusal) -> u32 {
        match refusal {
            PatchRefusal::NoSuchKind => 6,
            PatchRefusal::WrongLength => 7,
            PatchRefusal::NotZero => 7,
            PatchRefusal::NotAligned => 5,
            PatchRefusal::OutOfReach => 18,
        }
    }
}
