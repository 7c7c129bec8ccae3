// Patches and inversions for callers who prove nothing.
ghost use Rattle.std.specs.Prelude.{◌≡◌, ◌%◌, ◌<◌, is_ok, if◌then◌else◌, MatchBool, MatchResult, ◌==◌, unsigned_abs};
ghost use Rattle.isa.specs.Isa.{Reaches, Patchable};
ghost use Rattle.isa.specs.Laws.{OfKind};
ghost use Rattle.isa.specs.Patches.{Fresh, TurnedAway, inversion};
ghost use Rattle.isa.specs.Roles.{opposite};

use crate::jumps::Role;
use crate::refusals::PatchRefusal;
use crate::set::InstructionSet;

// Whether the bytes may be patched as they are: an adding kind's must read 0.
fn is_fresh<S: InstructionSet>(set: &S, kind: u32, bytes: &[u8]) -> bool
    requires { OfKind (S.meaning set.now) kind bytes.now }
    ensures { MatchBool result (Fresh (S.meaning set.now) kind bytes.now) (Fresh (S.meaning set.now) kind bytes.now → ⊥) }
{
    !set.is_adding(kind) || set.read(kind, bytes) == 0
}

// Whether a displacement is a multiple of the alignment.
fn is_aligned<S: InstructionSet>(set: &S, displacement: i64) -> bool
    ensures { result ≡ (unsigned_abs displacement % (S.meaning set.now).align == 0) }
{
    displacement.unsigned_abs() % set.align() as u64 == 0
}

// Whether a multiple of the alignment is within the kind's range.
fn is_near<S: InstructionSet>(set: &S, kind: u32, displacement: i64) -> bool
    requires kind_bound { kind < (S.meaning set.now).kinds }
    requires whole { unsigned_abs displacement % (S.meaning set.now).align ≡ 0 }
    ensures { MatchBool result (Reaches (S.meaning set.now) kind displacement) (Reaches (S.meaning set.now) kind displacement → ⊥) }
{
    displacement <= set.max_pos_range(kind) as i64
        && -(set.max_neg_range(kind) as i64) <= displacement
}

/// Says whether a displacement can be written, or what is wrong first.
pub fn check_patch<S: InstructionSet>(
    set: &S,
    kind: u32,
    bytes: &[u8],
    displacement: i64,
) -> Result<(), PatchRefusal>
    ensures { MatchResult result (λ _. Patchable (S.meaning set.now) kind bytes.now displacement) (λ e. TurnedAway (S.meaning set.now) kind bytes.now displacement e) }
{
    if kind >= set.kinds() {
        return Err(PatchRefusal::NoSuchKind);
    }
    if bytes.len() != set.patch_size(kind) as usize {
        return Err(PatchRefusal::WrongLength);
    }
    if !is_fresh(set, kind, bytes) {
        return Err(PatchRefusal::NotZero);
    }
    if !is_aligned(set, displacement) {
        return Err(PatchRefusal::NotAligned);
    }
    if !is_near(set, kind, displacement) {
        return Err(PatchRefusal::OutOfReach);
    }
    Ok(())
}

/// Writes a displacement, or says why it can't be written and leaves the bytes as they are.
pub fn checked_patch<S: InstructionSet>(
    set: &S,
    kind: u32,
    bytes: &mut [u8],
    displacement: i64,
) -> Result<(), PatchRefusal>
    ensures verdict { MatchResult result (λ _. Patchable (S.meaning set.now) kind bytes.old displacement) (λ e. TurnedAway (S.meaning set.now) kind bytes.old displacement e) }
    ensures written { bytes.new ≡ (if is_ok result then (S.meaning set.now).patched kind bytes.old displacement else bytes.old) }
{
    check_patch(set, kind, bytes, displacement)?;
    set.patch(kind, bytes, displacement);
    Ok(())
}

// Two conditionals with one condition and two senses.
fn are_opposite(a: Option<Role>, b: Option<Role>) -> bool
    ensures { result ≡ opposite a b }
{
    match (a, b) {
        (
            Some(
                Role::Conditional {
                    condition: x,
                    sense: s,
                },
            ),
            Some(
                Role::Conditional {
                    condition: y,
                    sense: t,
                },
            ),
        ) => x == y && s != t,
        _ => false,
    }
}

/// Whether the second bytes are an inversion of the first: the same condition, the other sense, and all else
/// outside the field equal.
pub fn is_inversion<S: InstructionSet>(set: &S, kind: u32, bytes: &[u8], other: &[u8]) -> bool
    requires { kind < (S.meaning set.now).kinds }
    ensures { result ≡ inversion (S.meaning set.now) kind bytes.now other.now }
{
    let size = set.patch_size(kind) as usize;
    if bytes.len() != size || other.len() != size {
        return false;
    }
    if !are_opposite(set.role(kind, bytes), set.role(kind, other)) {
        return false;
    }
    set.same_rest(kind, bytes, other)
}
