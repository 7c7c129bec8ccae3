// Questions, which change nothing.
ghost use Rattle.std.specs.Prelude.{◌≡◌, length};
ghost use Rattle.model.specs.Fixups.{waiting};
ghost use Rattle.model.specs.Islands.{threshold};
ghost use Rattle.model.specs.Questions.{resolve_label_offset, island_needed};
ghost use Rattle.model.specs.State.{cur_offset};
ghost use Rattle.buffer.specs.View.{view};

use super::MachBuffer;
use isa::InstructionSet;
use model::Refusal;
use model::rows::{LATEST, PlacedConstant, Trap};
use table_questions::{
    code, cur_offset, held_deadline, labels_len, placed_constants, requested_room,
    resolve_label_offset, traps, waiting_len,
};

impl<S: InstructionSet + Drop> MachBuffer<S> {
    /// Where the next byte goes.
    pub fn cur_offset(&self) -> u32
        ensures { result ≡ cur_offset (view self.now) }
    {
        cur_offset(&self.tables)
    }

    /// The offset that a label resolves to along its aliases, or 4,294,967,295 where it is unbound.
    pub fn resolve_label_offset(&self, label: u32) -> Result<u32, Refusal>
        ensures { result ≡ resolve_label_offset (view self.now) label }
    {
        resolve_label_offset(&self.tables, label)
    }

    // How far the code can reach after so many bytes and an island, at most 4,294,967,295.
    fn threshold_after(&self, distance: u32) -> u64
        ensures { result ≡ threshold (S.meaning self.now.set) (view self.now) distance }
    {
        let veneers = waiting_len(&self.tables) as u64 * self.set.worst_case_veneer_size() as u64;
        let traps = self.tables.deferred.rows.len() as u64 * self.set.trap_opcode().len() as u64;
        let code = cur_offset(&self.tables) as u64 + distance as u64;
        (code + veneers + requested_room(&self.tables) + traps).min(LATEST)
    }

    /// Whether a fixup may come out of reach if so many bytes follow before the next island.
    pub fn island_needed(&self, distance: u32) -> bool
        ensures { result ≡ island_needed (S.meaning self.now.set) (view self.now) distance }
    {
        let least = self.tables.deadline.min(held_deadline(&self.tables));
        least < self.threshold_after(distance)
    }

    /// The code so far.
    pub fn code(&self) -> &[u8]
        ensures { result.now ≡ (view self.now).code }
    {
        code(&self.tables)
    }

    /// How many labels there are.
    pub fn labels_len(&self) -> u32
        ensures { result ≡ length (view self.now).labels }
    {
        labels_len(&self.tables)
    }

    /// The traps on record, in the order of their recording.
    pub fn traps(&self) -> &[Trap]
        ensures { result.now ≡ (view self.now).traps }
    {
        traps(&self.tables)
    }

    /// The constants placed, in the order of their placing.
    pub fn placed_constants(&self) -> &[PlacedConstant]
        ensures { result.now ≡ (view self.now).placed }
    {
        placed_constants(&self.tables)
    }

    /// How many fixups wait.
    pub fn waiting_len(&self) -> u32
        ensures { result ≡ waiting (view self.now) }
    {
        waiting_len(&self.tables)
    }
}
