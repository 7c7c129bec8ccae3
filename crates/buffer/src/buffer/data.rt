// Bytes that refer to no label.
ghost use Rattle.std.specs.Prelude.{◌≡◌};
ghost use Rattle.model.specs.Calls.{put_data, align_to};
ghost use Rattle.buffer.specs.View.{view};

use super::MachBuffer;
use isa::InstructionSet;
use model::Refusal;
use table_calls::data::{align_to, put_data};

impl<S: InstructionSet + Drop> MachBuffer<S> {
    /// Appends bytes, which may trap if the trap code is not 0.
    pub fn put_data(&mut self, trap: u32, bytes: &[u8]) -> Result<u32, Refusal>
        ensures tables { (result, view self.new) ≡ put_data (view self.old) trap bytes.now }
        ensures set { self.new.set ≡ self.old.set }
    {
        put_data(&mut self.tables, trap, bytes)
    }

    /// Appends zeros up to a multiple of n.
    pub fn align_to(&mut self, n: u32) -> Result<(), Refusal>
        ensures tables { (result, view self.new) ≡ align_to (view self.old) n }
        ensures set { self.new.set ≡ self.old.set }
    {
        align_to(&mut self.tables, n)
    }
}
