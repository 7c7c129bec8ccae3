// What is told of one use.
ghost use Rattle.std.specs.Prelude.{◌≡◌};
ghost use Rattle.jump_report.specs.declared.report.ReportError.TheVariants.{OutOfMemory, Refused};

use isa::{Jump, PatchRefusal, Role};
use std::alloc::AllocError;

/// A kind's veneer: its bytes, the place of its own use in them, and that use's kind.
#[derive(Drop)]
pub struct VeneerReport {
    pub code: Vec<u8>,
    pub place: u32,
    pub own: u32,
}

/// What the set makes of a use's bytes once they hold a displacement.
#[derive(Drop)]
pub struct JumpReport {
    /// the bytes with the displacement
    pub patched: Vec<u8>,
    /// the displacement that they read
    pub reads: i64,
    /// their role, where they are a branch
    pub role: Option<Role>,
    /// the bytes with the other sense, where they are a conditional branch
    pub inverted: Option<Vec<u8>>,
    /// what jumps in the patched bytes, if the set finds anything
    pub found: Option<Jump>,
    /// the kind's veneer, where it has one
    pub veneer: Option<VeneerReport>,
}

/// Why there is no report.
#[derive(Clone, Copy)]
pub enum ReportError {
    OutOfMemory,
    Refused(PatchRefusal),
}

// By hand, since clauses name the error that `?` gives, and a derived `From` states none.
impl From<AllocError> for ReportError {
    ghost from_gives = { λ _ r. r ≡ OutOfMemory };

    fn from(_e: AllocError) -> ReportError {
        ReportError::OutOfMemory
    }
}

impl From<PatchRefusal> for ReportError {
    ghost from_gives = { λ e r. r ≡ Refused e };

    fn from(e: PatchRefusal) -> ReportError {
        ReportError::Refused(e)
    }
}
