// Lines, and what is wrong with one.
ghost use Rattle.std.specs.Prelude.{◌≡◌, ℕ, IfErr, ◌≢◌};
ghost use Rattle.isa.specs.Patches.{TurnedAway};
ghost use Rattle.fields.specs.declared.line.LineError.TheVariants.{OutOfMemory, Word, Words};
ghost use Rattle.fields.specs.Answers.{Done, explained, meaning_of};

use aarch64::AArch64;
use isa::{InstructionSet, PatchRefusal};
use jump_report::text::SetName;
use jump_report::{JumpReport, ReportError, Request, RequestError, set_jump};
use riscv::RiscV;
use std::alloc::{AllocError, Global};
use thiserror::Error;

/// Why a line is not done.
#[derive(Clone, Copy, Debug, Error)]
pub enum LineError {
    #[error("out of memory")]
    OutOfMemory,
    /// it has other than four words
    #[error("too {} words, {} in place of 4", if *.0 < 4 {"few"} else {"many"}, .0)]
    Words(usize),
    /// a word can't be read
    #[error(transparent)]
    Word(RequestError),
    #[error("no such kind; the set has {kinds}, numbered from 0")]
    NoSuchKind { kinds: u32 },
    #[error("wrong length; the kind wants {wanted} bytes")]
    WrongLength { wanted: u32 },
    #[error("the kind adds, and the bytes do not read 0")]
    NotZero,
    #[error("the displacement is no multiple of {align}")]
    NotAligned { align: u32 },
    #[error("out of range; the kind reaches from -{back} to {ahead}")]
    OutOfReach { back: u32, ahead: u32 },
}

// By hand, since clauses name the error that `?` gives, and a derived `From` states none.
impl From<AllocError> for LineError {
    ghost from_gives = { λ _ r. r ≡ OutOfMemory };

    fn from(_e: AllocError) -> LineError {
        LineError::OutOfMemory
    }
}

impl From<RequestError> for LineError {
    ghost from_gives = { λ e r. r ≡ Word e };

    fn from(e: RequestError) -> LineError {
        LineError::Word(e)
    }
}

pub fn parse_line(heap: Global, line: &str) -> Result<Request, LineError>
    ensures { IfErr result (λ e. (n : ℕ) → e ≡ Words n → n ≢ 4) }
{
    let words = line.split_whitespace().collect::<Vec<&str>>(heap)?;
    let [set, kind, bytes, displacement] = words.as_slice() else {
        return Err(LineError::Words(words.len()));
    };
    Ok(Request::parse(heap, set, kind, bytes, displacement)?)
}

// Why the set turns a request away, with the set's numbers.
fn explain<S: InstructionSet>(set: &S, request: &Request, refusal: PatchRefusal) -> LineError
    requires { TurnedAway (S.meaning set.now) request.now.kind request.now.bytes.items request.now.displacement refusal }
    ensures { result ≡ explained (S.meaning set.now) request.now.kind refusal }
{
    let kind = request.kind;
    match refusal {
        PatchRefusal::NoSuchKind => LineError::NoSuchKind { kinds: set.kinds() },
        PatchRefusal::WrongLength => LineError::WrongLength {
            wanted: set.patch_size(kind),
        },
        PatchRefusal::NotZero => LineError::NotZero,
        PatchRefusal::NotAligned => LineError::NotAligned { align: set.align() },
        PatchRefusal::OutOfReach => LineError::OutOfReach {
            back: set.max_neg_range(kind),
            ahead: set.max_pos_range(kind),
        },
    }
}

// A set's report on a request.
fn report_by<S: InstructionSet>(
    heap: Global,
    set: &S,
    request: &Request,
) -> Result<JumpReport, LineError>
    ensures { Done (S.meaning set.now) request.now result }
{
    set_jump(
        heap,
        set,
        request.kind,
        &request.bytes,
        request.displacement,
    )
    .map_err(|error| match error {
        ReportError::OutOfMemory => LineError::OutOfMemory,
        ReportError::Refused(refusal) => explain(set, request, refusal),
    })
}

/// The report of the set that a request names.
pub fn report_on(heap: Global, request: &Request) -> Result<JumpReport, LineError>
    ensures { Done (meaning_of request.now.set) request.now result }
{
    // Each arm calls at a type of its own, so no plainer choice of one is to be had.
    match request.set {
        SetName::AArch64 => report_by(heap, &AArch64, request),
        SetName::RiscV => report_by(heap, &RiscV, request),
    }
}
