// Branches that stand.
ghost use Rattle.std.specs.Prelude.{◌≡◌, ◌+◌, ◌-◌, ◌<◌, ◌≤◌, [], ◌∷◌, ◌++◌, length, take, if◌then◌else◌, Some, None, IfSome, vec_len, slice_index_or};
ghost use Rattle.std.specs.Option.{option_copied};
ghost use Rattle.model.specs.Simplify.{no_branch, last_branch, branch_before, adjoins, forgotten};
ghost use Rattle.model.specs.State.{with_branches};
ghost use Rattle.tables.specs.Edits.{with_branch, drop_last, turn_branch, retarget};
ghost use Rattle.tables.specs.Standing.{Within, Waiting};
ghost use Rattle.tables.specs.View.{view};

use super::Tables;
use model::rows::{Branch, Fixup};
use slices::bytes::widen;

impl Tables {
    /// The last standing branch.
    pub fn last_branch_of(&self) -> Branch
        // That a branch stands, or one of a number, is true of a moment, so that no type can hold it.
        requires { 0 < vec_len self.now.branches.rows }
        ensures { result ≡ last_branch (view self.now) }
    {
        *self.branches.rows.last().unwrap()
    }

    /// The branch before the last, where one ends where the last begins.
    pub fn adjoining_branch(&self) -> Option<Branch>
        ensures { result ≡ (if adjoins (view self.now) then Some (branch_before (view self.now)) else None) }
    {
        let [.., before, last] = self.branches.rows.as_slice() else {
            return None;
        };
        (before.end == last.start).then_some(*before)
    }

    /// A standing branch, with what is known of each.
    pub fn standing_branch(&self, n: usize) -> Branch
        requires { n < vec_len self.now.branches.rows }
        ensures row { result ≡ slice_index_or (view self.now).branches n no_branch }
        ensures begun { result.start < result.end }
        ensures short { result.end ≤ result.start + 8 }
        ensures within { result.end ≤ vec_len self.now.code.rows }
        ensures waiting { result.fixup < vec_len self.now.fresh.rows }
    {
        self.branches.rows[n]
    }

    // One standing branch more, after all the others.
    fn push_branch(&mut self, branch: Branch)
        requires room { vec_len self.old.branches.rows < 512 }
        requires begun { branch.start < branch.end }
        requires short { branch.end ≤ branch.start + 8 }
        requires within { branch.end ≤ vec_len self.old.code.rows }
        requires waiting { branch.fixup < vec_len self.old.fresh.rows }
        requires after { Within branch.start self.old.branches.rows.items }
        requires later { Waiting branch.fixup self.old.branches.rows.items }
        ensures { view self.new ≡ with_branches (view self.old) (self.old.branches.rows.items ++ branch ∷ []) }
    {
        self.branches.rows.push_reserved(branch);
    }

    /// Appends a branch and a fixup for it, where there is room for both. The fresh deadline becomes `soon` at the latest.
    pub fn append_branch(&mut self, fixup: Fixup, soon: u64, bytes: &[u8], inverted: Option<&[u8]>)
        requires some { 0 < length bytes.now }
        requires few { length bytes.now ≤ 8 }
        requires inverted_few { IfSome inverted (λ x. length x.now ≤ 8) }
        requires fixups { vec_len self.old.fresh.rows + vec_len self.old.held.rows < 4096 }
        requires branches { vec_len self.old.branches.rows < 512 }
        requires code { vec_len self.old.code.rows + length bytes.now ≤ 65536 }
        ensures { view self.new ≡ with_branch (view self.old) fixup soon bytes.now (option_copied inverted.entry) }
    {
        let start = self.code.rows.len() as u32;
        let number = self.fresh.rows.len() as u32;
        self.append_use(fixup, soon, bytes);
        self.push_branch(Branch {
            start,
            end: start + bytes.len() as u32,
            target: fixup.label,
            fixup: number,
            bytes: widen(bytes),
            inverted: inverted.map(widen),
        });
    }

    // The last branch stands no longer.
    fn pop_branch(&mut self) -> Branch
        requires { 0 < vec_len self.old.branches.rows }
        ensures branch { result ≡ last_branch (view self.old) }
        ensures rest { view self.new ≡ with_branches (view self.old) (take (length self.old.branches.rows.items - 1) self.old.branches.rows.items) }
        ensures within { result.start ≤ vec_len self.new.code.rows }
        ensures waiting { result.fixup < vec_len self.new.fresh.rows }
        ensures before { Within result.start self.new.branches.rows.items }
        ensures earlier { Waiting result.fixup self.new.branches.rows.items }
    {
        self.branches.rows.take_last()
    }

    /// The last branch goes, with its bytes and its fixup.
    pub fn drop_last_branch(&mut self)
        requires { 0 < vec_len self.old.branches.rows }
        ensures { view self.new ≡ drop_last (view self.old) }
    {
        let last = self.pop_branch();
        self.code.rows.truncate(last.start as usize);
        let _ = self.fresh.rows.pop();
    }

    /// A branch swaps its bytes with its inversion, where it has one, and leads to another label.
    pub fn invert_branch(&mut self, n: usize, label: u32)
        requires { n < vec_len self.old.branches.rows }
        ensures { view self.new ≡ turn_branch (view self.old) n label }
    {
        self.branches.rows[n] = self.branches.rows[n].turned(label);
    }

    /// A fixup takes another label.
    pub fn retarget_fixup(&mut self, n: usize, label: u32)
        requires { n < vec_len self.old.fresh.rows }
        ensures { view self.new ≡ retarget (view self.old) n label }
    {
        self.fresh.rows[n].label = label;
    }

    /// Branches that no longer end the code are forgotten.
    pub fn forget(&mut self)
        ensures { view self.new ≡ forgotten (view self.old) }
    {
        let Some(last) = self.branches.rows.last() else {
            return;
        };
        if (last.end as usize) < self.code.rows.len() {
            self.branches.rows.clear();
        }
    }
}
