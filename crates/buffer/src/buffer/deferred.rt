// Traps and constants that an island will write.
ghost use Rattle.std.specs.Prelude.{◌≡◌};
ghost use Rattle.model.specs.Calls.{defer_trap, register_constant, get_label_for_constant};
ghost use Rattle.buffer.specs.View.{view};

use super::MachBuffer;
use isa::InstructionSet;
use model::Refusal;
use model::rows::Constant;
use slices::bytes::is_alignment_number;
use table_calls::deferred::{defer_trap, get_label_for_constant};
use tables::capacities::MAX_CONSTANTS;

impl<S: InstructionSet + Drop> MachBuffer<S> {
    /// The next island writes a trap. The answer is its label.
    pub fn defer_trap(&mut self, trap: u32) -> Result<u32, Refusal>
        ensures tables { (result, view self.new) ≡ defer_trap (view self.old) trap }
        ensures set { self.new.set ≡ self.old.set }
    {
        defer_trap(&mut self.tables, trap)
    }

    /// Registers a constant, and answers its number.
    pub fn register_constant(&mut self, size: u32, align: u32) -> Result<u32, Refusal>
        ensures tables { (result, view self.new) ≡ register_constant (S.meaning self.old.set) (view self.old) size align }
        ensures set { self.new.set ≡ self.old.set }
    {
        self.tables.unbroken()?;
        if size == 0 || size > 256 || !is_alignment_number(align) || align < self.set.align() {
            return Err(Refusal::BadConstant);
        }
        let number = self.tables.constants.rows.len();
        if number >= MAX_CONSTANTS {
            return Err(Refusal::ConstantsFull);
        }
        self.tables.push_constant(Constant {
            size,
            align,
            label: None,
        });
        Ok(number as u32)
    }

    /// The next island places a constant. The answer is its label, the same for each request up to then.
    pub fn get_label_for_constant(&mut self, number: u32) -> Result<u32, Refusal>
        ensures tables { (result, view self.new) ≡ get_label_for_constant (view self.old) number }
        ensures set { self.new.set ≡ self.old.set }
    {
        get_label_for_constant(&mut self.tables, number)
    }
}
