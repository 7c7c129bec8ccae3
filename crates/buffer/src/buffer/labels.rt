// Making a buffer, its labels, and simplification.
ghost use Rattle.std.specs.Prelude.{◌≡◌, IfOk};
ghost use Rattle.model.specs.Calls.{get_label, bind_label, optimize_branches};
ghost use Rattle.model.specs.State.{empty};
ghost use Rattle.buffer.specs.View.{view};

use super::MachBuffer;
use isa::InstructionSet;
use model::Refusal;
use model::rows::Place;
use simplification::rounds::{optimize_branches, simplify};
use std::alloc::{AllocError, Global};
use table_calls::labels::get_label;
use tables::tables::Tables;

impl<S: InstructionSet + Drop> MachBuffer<S> {
    /// An empty buffer. All the memory that it will ever need is reserved here.
    pub fn new(heap: Global, set: S) -> Result<MachBuffer<S>, AllocError>
        ensures { IfOk result (λ b. (view b ≡ empty) × (b.set ≡ set)) }
    {
        Ok(MachBuffer {
            set,
            tables: Tables::new(heap)?,
        })
    }

    /// A new label, to be bound later.
    pub fn get_label(&mut self) -> Result<u32, Refusal>
        ensures tables { (result, view self.new) ≡ get_label (view self.old) }
        ensures set { self.new.set ≡ self.old.set }
    {
        get_label(&mut self.tables)
    }

    /// Binds a label at the current offset, and simplifies the branches unless that is to be skipped.
    pub fn bind_label(&mut self, label: u32, skip: bool) -> Result<(), Refusal>
        ensures tables { (result, view self.new) ≡ bind_label (S.meaning self.old.set) (view self.old) label skip }
        ensures set { self.new.set ≡ self.old.set }
    {
        self.tables.unbroken()?;
        self.tables.no_region_open()?;
        let row = self.tables.label(label)?;
        if row.place != Place::Nowhere || row.reserved {
            return Err(Refusal::AlreadyBound);
        }
        self.aligned()?;
        self.tables.bind_here(label);
        simplify(&mut self.tables, skip);
        Ok(())
    }

    /// Simplifies the branches at the end of the code, unless it is to be skipped.
    pub fn optimize_branches(&mut self, skip: bool) -> Result<(), Refusal>
        ensures tables { (result, view self.new) ≡ optimize_branches (view self.old) skip }
        ensures set { self.new.set ≡ self.old.set }
    {
        optimize_branches(&mut self.tables, skip)
    }
}
