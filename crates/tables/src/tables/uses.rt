// Bytes that refer to a label.
ghost use Rattle.std.specs.Prelude.{◌≡◌, ◌+◌, ◌<◌, ◌≤◌, length, vec_len};
ghost use Rattle.tables.specs.Edits.{with_use};
ghost use Rattle.tables.specs.View.{view};

use super::Tables;
use model::rows::Fixup;

impl Tables {
    /// Appends bytes with a fixup for them, where there is room for both. The fresh deadline becomes `soon` at the
    /// latest.
    pub fn append_use(&mut self, fixup: Fixup, soon: u64, bytes: &[u8])
        // That there is room is true of a moment, not of every value of the tables, so that no type can hold it.
        requires fixups { vec_len self.old.fresh.rows + vec_len self.old.held.rows < 4096 }
        requires code { vec_len self.old.code.rows + length bytes.now ≤ 65536 }
        ensures { view self.new ≡ with_use (view self.old) fixup soon bytes.now }
    {
        self.fresh.rows.push_reserved(fixup);
        self.deadline = self.deadline.min(soon);
        self.append_bytes(bytes);
    }
}
