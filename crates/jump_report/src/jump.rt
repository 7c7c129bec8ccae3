// The report on one use.
ghost use Rattle.std.specs.Prelude.{◌≡◌, IfOk, vec_items};
ghost use Rattle.std.specs.Option.{option_map};
ghost use Rattle.isa.specs.Isa.{Patchable};
ghost use Rattle.isa.specs.Laws.{OfKind};
ghost use Rattle.jump_report.specs.Report.{Answered, Told, VeneerTold, other_sense};

use crate::report::{JumpReport, ReportError, VeneerReport};
use isa::{InstructionSet, Role, check_patch};
use std::alloc::{AllocError, Global};

// A use: bytes of a kind of the set.
#[derive(Drop)]
struct Use<'a, S: InstructionSet> {
    heap: Global,
    set: &'a S,
    kind: u32,
    bytes: Vec<u8>,
    ghost of_kind: { OfKind (S.meaning set.now) kind bytes.items },
}

impl<'a, S: InstructionSet> Use<'a, S> {
    // The bytes with a displacement, which can be written into them.
    fn patched(
        heap: Global,
        set: &'a S,
        kind: u32,
        bytes: &[u8],
        displacement: i64,
    ) -> Result<Use<'a, S>, AllocError>
        requires { Patchable (S.meaning set.now) kind bytes.now displacement }
        ensures { IfOk result (λ u. (u.set.now ≡ set.now) × (u.kind ≡ kind) × (u.bytes.items ≡ (S.meaning set.now).patched kind bytes.now displacement)) }
    {
        let mut bytes = Vec::from_slice(heap, bytes)?;
        set.patch(kind, &mut bytes, displacement);
        Ok(Use {
            heap,
            set,
            kind,
            bytes,
        })
    }

    // The bytes with the other sense, where their role is conditional.
    fn other_sense(&self, role: Option<Role>) -> Result<Option<Vec<u8>>, AllocError>
        ensures { IfOk result (λ o. option_map vec_items o ≡ other_sense (S.meaning self.now.set.now) self.now.kind self.now.bytes.items role) }
    {
        let Some(Role::Conditional { .. }) = role else {
            return Ok(None);
        };
        let mut inverted = Vec::from_slice(self.heap, &self.bytes)?;
        self.set.invert(self.kind, &mut inverted);
        Ok(Some(inverted))
    }

    // The kind's veneer, where it has one.
    fn veneer(&self) -> Result<Option<VeneerReport>, AllocError>
        ensures { IfOk result (λ o. VeneerTold (S.meaning self.now.set.now) self.now.kind o) }
    {
        if !self.set.supports_veneer(self.kind) {
            return Ok(None);
        }
        let mut code = vec![in self.heap; 0; self.set.veneer_size(self.kind) as usize]?;
        let (place, own) = self.set.generate_veneer(self.kind, &mut code);
        Ok(Some(VeneerReport { code, place, own }))
    }

    // What there is to tell of the bytes.
    fn report(self) -> Result<JumpReport, AllocError>
        ensures { IfOk result (λ j. Told (S.meaning self.entry.set.now) self.entry.kind self.entry.bytes.items j) }
    {
        let role = self.set.role(self.kind, &self.bytes);
        let inverted = self.other_sense(role)?;
        let veneer = self.veneer()?;
        Ok(JumpReport {
            reads: self.set.read(self.kind, &self.bytes),
            role,
            inverted,
            found: self.set.find(&self.bytes, 0),
            veneer,
            patched: self.bytes,
        })
    }
}

/// Writes a displacement into the bytes of a use, and tells what the set makes of them then; or says why the set
/// turns the displacement away.
pub fn set_jump<S: InstructionSet>(
    heap: Global,
    set: &S,
    kind: u32,
    bytes: &[u8],
    displacement: i64,
) -> Result<JumpReport, ReportError>
    ensures { Answered (S.meaning set.now) kind bytes.now displacement result }
{
    check_patch(set, kind, bytes, displacement)?;
    let patched = Use::patched(heap, set, kind, bytes, displacement)?;
    Ok(patched.report()?)
}
