// The buffer: a set and tables. The calls are in the modules below.
ghost use Rattle.std.specs.Prelude.{◌≡◌, cond};
ghost use Rattle.model.specs.Calls.{misaligned};
ghost use Rattle.buffer.specs.View.{view};

use isa::InstructionSet;
use model::Refusal;
use table_questions::cur_offset;
use tables::tables::Tables;

mod data;
mod deferred;
mod labels;
mod questions;
mod regions;
mod uses;

/// A code buffer of an instruction set.
#[derive(Drop)]
pub struct MachBuffer<S> {
    set: S,
    tables: Tables,
}

// Each call says that the set stays: no type can say of a call what it leaves as it was.
impl<S: InstructionSet + Drop> MachBuffer<S> {
    // The current offset is a multiple of the alignment.
    fn aligned(&self) -> Result<(), Refusal>
        ensures { result ≡ cond (misaligned (S.meaning self.now.set) (view self.now)) (Err Refusal.NotAligned) (Ok tt) }
    {
        if cur_offset(&self.tables) % self.set.align() != 0 {
            return Err(Refusal::NotAligned);
        }
        Ok(())
    }
}
