// An encoding of the table, and what can be wrong with one.
ghost use Rattle.std.specs.Prelude.{◌≡◌};
ghost use Rattle.vectors.specs.declared.vector.Fault.TheVariants.{OutOfMemory, Unread};
ghost use Rattle.vectors.specs.Judged.{Judged, from_hex, from_report, meaning_of};

use aarch64::AArch64;
use isa::{InstructionSet, PatchRefusal};
use jump_report::text::{Hex, HexError, SetName, parse_hex};
use jump_report::{JumpReport, ReportError, Request, RequestError, set_jump};
use riscv::RiscV;
use std::alloc::{AllocError, Global};
use std::fmt;
use thiserror::Error;

/// The bytes with displacement 0 and a displacement, and the bytes that hold it.
#[derive(Drop)]
pub struct Vector {
    pub request: Request,
    pub patched: Vec<u8>,
}

/// Why an encoding is not equal.
#[derive(Debug, Drop, Error)]
pub enum Fault {
    #[error("out of memory")]
    OutOfMemory,
    #[error("can't be read, too few words")]
    TooShort,
    /// one of the first four words can't be read
    #[error("can't be read, {0}")]
    Unread(RequestError),
    #[error("can't be read, the patched bytes are no pairs of hexadecimal digits")]
    NoBytes,
    /// the displacement can't be written
    #[error("turned away, {}", Reason(*.0))]
    TurnedAway(PatchRefusal),
    /// the patch gives other bytes
    #[error("the patch gives {}", Hex(.0))]
    Gives(Vec<u8>),
    /// the patched bytes read another displacement
    #[error("the patched bytes read {0}")]
    Reads(i64),
}

// Shows why a set turns a displacement away: only `isa` may write an impl of `Display` for its types, and it has no texts.
#[derive(Clone, Copy)]
struct Reason(PatchRefusal);

impl fmt::Display for Reason {
    fn fmt<W: fmt::Write>(&self, f: &mut fmt::Formatter<W>) -> fmt::Result {
        f.write_str(match self.0 {
            PatchRefusal::NoSuchKind => "no such kind",
            PatchRefusal::WrongLength => "wrong length",
            PatchRefusal::NotZero => "the bytes do not read 0",
            PatchRefusal::NotAligned => "no multiple of the alignment",
            PatchRefusal::OutOfReach => "out of range",
        })
    }
}

// By hand, since clauses name the error that `?` gives, and a derived `From` states none.
impl From<AllocError> for Fault {
    ghost from_gives = { λ _ r. r ≡ OutOfMemory };

    fn from(_e: AllocError) -> Fault {
        Fault::OutOfMemory
    }
}

impl From<RequestError> for Fault {
    ghost from_gives = { λ e r. r ≡ Unread e };

    fn from(e: RequestError) -> Fault {
        Fault::Unread(e)
    }
}

impl From<HexError> for Fault {
    ghost from_gives = { λ e r. r ≡ from_hex e };

    fn from(e: HexError) -> Fault {
        match e {
            HexError::OutOfMemory => Fault::OutOfMemory,
            HexError::NotHex => Fault::NoBytes,
        }
    }
}

impl From<ReportError> for Fault {
    ghost from_gives = { λ e r. r ≡ from_report e };

    fn from(e: ReportError) -> Fault {
        match e {
            ReportError::OutOfMemory => Fault::OutOfMemory,
            ReportError::Refused(refusal) => Fault::TurnedAway(refusal),
        }
    }
}

impl Vector {
    pub fn parse(heap: Global, line: &str) -> Result<Vector, Fault> {
        let words = line.split_whitespace().collect::<Vec<&str>>(heap)?;
        let [set, kind, unpatched, displacement, patched, ..] = words.as_slice() else {
            return Err(Fault::TooShort);
        };
        let request = Request::parse(heap, set, kind, unpatched, displacement)?;
        let patched = parse_hex(heap, patched)?;
        Ok(Vector { request, patched })
    }
}

// Whether a set patches as the table does, and reads the displacement back.
fn judge_by<S: InstructionSet>(heap: Global, set: &S, vector: &Vector) -> Result<(), Fault>
    ensures { Judged (S.meaning set.now) vector.now result }
{
    let kind = vector.request.kind;
    let displacement = vector.request.displacement;
    let JumpReport { patched, .. } = set_jump(
        heap,
        set,
        kind,
        &vector.request.bytes,
        displacement,
    )?;
    if patched.len() != vector.patched.len() {
        return Err(Fault::Gives(patched));
    }
    let reads = set.read(kind, &vector.patched);
    if reads != displacement {
        return Err(Fault::Reads(reads));
    }
    if patched != vector.patched {
        return Err(Fault::Gives(patched));
    }
    Ok(())
}

/// Holds the set that an encoding names to it.
pub fn judge(heap: Global, vector: &Vector) -> Result<(), Fault>
    ensures { Judged (meaning_of vector.now.request.set) vector.now result }
{
    // Each arm calls at a type of its own, so no plainer choice of one is to be had.
    match vector.request.set {
        SetName::AArch64 => judge_by(heap, &AArch64, vector),
        SetName::RiscV => judge_by(heap, &RiscV, vector),
    }
}
