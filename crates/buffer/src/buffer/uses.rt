// Bytes that refer to a label, and branches.
ghost use Rattle.std.specs.Prelude.{◌≡◌, ◌+◌, ◌-◌, ◌<◌, ◌≤◌, length, IfSome, vec_len};
ghost use Rattle.std.specs.Option.{option_copied};
ghost use Rattle.model.specs.Calls.{is_use, is_jump, append_use, append_branch, use_label_at_offset, add_uncond_branch, add_cond_branch};
ghost use Rattle.model.specs.Fixups.{fixup_at};
ghost use Rattle.model.specs.State.{cur_offset};
ghost use Rattle.buffer.specs.Checks.{check_target, place_branch};
ghost use Rattle.buffer.specs.View.{view};

use super::MachBuffer;
use isa::{InstructionSet, Role, is_inversion};
use model::Refusal;
use model::rows::Fixup;
use table_questions::cur_offset;
use tables::capacities::MAX_BRANCHES;

// Whether bytes can be a use of a kind: as many as it patches, and reading 0 where it adds.
// Reading 0 as `is_fresh` of `isa` has it, which says so by `Fresh`, where the calls are defined by `is_use`.
// That the kind exists stands in no type: a value that is a kind of a set would borrow the set from the buffer, which
// changes itself while it has the kind.
fn can_be_use<S: InstructionSet>(set: &S, kind: u32, bytes: &[u8]) -> bool
    requires { kind < (S.meaning set.now).kinds }
    ensures { result ≡ is_use (S.meaning set.now) kind bytes.now }
{
    bytes.len() == set.patch_size(kind) as usize
        && (!set.is_adding(kind) || set.read(kind, bytes) == 0)
}

// Whether bytes are an unconditional branch of a kind.
fn can_be_jump<S: InstructionSet>(set: &S, kind: u32, bytes: &[u8]) -> bool
    requires { kind < (S.meaning set.now).kinds }
    ensures { result ≡ is_jump (S.meaning set.now) kind bytes.now }
{
    bytes.len() == set.patch_size(kind) as usize
        && matches!(set.role(kind, bytes), Some(Role::Unconditional))
}

impl<S: InstructionSet + Drop> MachBuffer<S> {
    // The fixup of a use of a kind at the current offset, and the fresh deadline that it brings, which is no part of the fixup:
    // it is the buffer's.
    fn use_here(&self, label: u32, kind: u32) -> (Fixup, u64)
        requires { kind < (S.meaning self.now.set).kinds }
        ensures fixup { result.0 ≡ fixup_at (S.meaning self.now.set) label (cur_offset (view self.now)) kind }
        ensures soon { result.1 ≡ (result.0).deadline - (S.meaning self.now.set).align }
    {
        let offset = cur_offset(&self.tables);
        let fixup = Fixup {
            label,
            offset,
            kind,
            deadline: offset as u64 + self.set.max_pos_range(kind) as u64,
        };
        let soon = fixup.deadline.saturating_sub(self.set.align() as u64);
        (fixup, soon)
    }

    // Appends bytes with a fixup for them.
    // That there is room is true of a moment, not of the buffer, so it stands in no type. A use needs no room for a branch,
    // so that this is not the function below with no branch.
    fn append(&mut self, label: u32, kind: u32, bytes: &[u8])
        requires kind { kind < (S.meaning self.old.set).kinds }
        requires fixups { vec_len self.old.tables.fresh.rows + vec_len self.old.tables.held.rows < 4096 }
        requires code { vec_len self.old.tables.code.rows + length bytes.now ≤ 65536 }
        ensures tables { view self.new ≡ append_use (S.meaning self.old.set) (view self.old) label kind bytes.now }
        ensures set { self.new.set ≡ self.old.set }
    {
        let (fixup, soon) = self.use_here(label, kind);
        self.tables.append_use(fixup, soon, bytes);
    }

    // The first checks of a use: whether the buffer takes one, and its label and kind exist.
    fn check_target(&self, label: u32, kind: u32) -> Result<(), Refusal>
        ensures { result ≡ check_target (S.meaning self.now.set) (view self.now) label kind }
    {
        self.tables.unbroken()?;
        self.tables.no_region_open()?;
        self.tables.label(label)?;
        if kind >= self.set.kinds() {
            return Err(Refusal::NoSuchKind);
        }
        Ok(())
    }

    /// Appends bytes that refer to a label. The answer is their offset.
    pub fn use_label_at_offset(
        &mut self,
        label: u32,
        kind: u32,
        bytes: &[u8],
    ) -> Result<u32, Refusal>
        ensures tables { (result, view self.new) ≡ use_label_at_offset (S.meaning self.old.set) (view self.old) label kind bytes.now }
        ensures set { self.new.set ≡ self.old.set }
    {
        self.check_target(label, kind)?;
        if !can_be_use(&self.set, kind, bytes) {
            return Err(Refusal::BadBytes);
        }
        self.aligned()?;
        self.tables.fixup_room()?;
        self.tables.code_room(bytes.len())?;
        let offset = cur_offset(&self.tables);
        self.append(label, kind, bytes);
        Ok(offset)
    }

    // Appends a branch whose bytes have the kind's length.
    fn append_branch(&mut self, label: u32, kind: u32, bytes: &[u8], inverted: Option<&[u8]>)
        requires kind { kind < (S.meaning self.old.set).kinds }
        requires long { length bytes.now ≡ (S.meaning self.old.set).size kind }
        requires inverted_long { IfSome inverted (λ x. length x.now ≡ (S.meaning self.old.set).size kind) }
        requires fixups { vec_len self.old.tables.fresh.rows + vec_len self.old.tables.held.rows < 4096 }
        requires branches { vec_len self.old.tables.branches.rows < 512 }
        requires code { vec_len self.old.tables.code.rows + length bytes.now ≤ 65536 }
        ensures tables { view self.new ≡ append_branch (S.meaning self.old.set) (view self.old) label kind bytes.now (option_copied inverted.entry) }
        ensures set { self.new.set ≡ self.old.set }
    {
        let (fixup, soon) = self.use_here(label, kind);
        self.tables.append_branch(fixup, soon, bytes, inverted);
    }

    // Appends a branch whose bytes have the kind's length, if there is a place for it.
    fn add_branch(
        &mut self,
        label: u32,
        kind: u32,
        bytes: &[u8],
        inverted: Option<&[u8]>,
    ) -> Result<u32, Refusal>
        requires kind { kind < (S.meaning self.old.set).kinds }
        requires long { length bytes.now ≡ (S.meaning self.old.set).size kind }
        requires inverted_long { IfSome inverted (λ x. length x.now ≡ (S.meaning self.old.set).size kind) }
        ensures tables { (result, view self.new) ≡ place_branch (S.meaning self.old.set) (view self.old) label kind bytes.now (option_copied inverted.entry) }
        ensures set { self.new.set ≡ self.old.set }
    {
        self.aligned()?;
        self.tables.fixup_room()?;
        if self.tables.branches.rows.len() >= MAX_BRANCHES {
            return Err(Refusal::BranchesFull);
        }
        self.tables.code_room(bytes.len())?;
        let offset = cur_offset(&self.tables);
        self.append_branch(label, kind, bytes, inverted);
        Ok(offset)
    }

    /// Appends an unconditional branch to a label. The answer is its offset.
    pub fn add_uncond_branch(&mut self, label: u32, kind: u32, bytes: &[u8]) -> Result<u32, Refusal>
        ensures tables { (result, view self.new) ≡ add_uncond_branch (S.meaning self.old.set) (view self.old) label kind bytes.now }
        ensures set { self.new.set ≡ self.old.set }
    {
        self.check_target(label, kind)?;
        if !can_be_jump(&self.set, kind, bytes) {
            return Err(Refusal::BadBytes);
        }
        self.add_branch(label, kind, bytes, None)
    }

    /// Appends a conditional branch to a label, with the bytes of its inversion. The answer is its offset.
    pub fn add_cond_branch(
        &mut self,
        label: u32,
        kind: u32,
        bytes: &[u8],
        inverted: &[u8],
    ) -> Result<u32, Refusal>
        ensures tables { (result, view self.new) ≡ add_cond_branch (S.meaning self.old.set) (view self.old) label kind bytes.now inverted.now }
        ensures set { self.new.set ≡ self.old.set }
    {
        self.check_target(label, kind)?;
        if !is_inversion(&self.set, kind, bytes, inverted) {
            return Err(Refusal::BadBytes);
        }
        self.add_branch(label, kind, bytes, Some(inverted))
    }
}
