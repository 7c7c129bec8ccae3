// Regions that are filled after finishing.
ghost use Rattle.std.specs.Prelude.{◌≡◌};
ghost use Rattle.model.specs.Calls.{start_patchable, end_patchable};
ghost use Rattle.table_calls.specs.Regions.{opened_number, closed_place, HandedBack};
ghost use Rattle.buffer.specs.View.{view};

use super::MachBuffer;
use isa::InstructionSet;
use model::Refusal;
use table_calls::regions::{end_patchable, start_patchable};
use table_calls::tokens::{OpenPatchRegion, PatchRegion};

impl<S: InstructionSet + Drop> MachBuffer<S> {
    /// Opens a region at the current offset.
    pub fn start_patchable(&mut self) -> Result<OpenPatchRegion, Refusal>
        ensures tables { (opened_number result, view self.new) ≡ start_patchable (view self.old) }
        ensures set { self.new.set ≡ self.old.set }
    {
        start_patchable(&mut self.tables)
    }

    /// Closes the open region, or hands it back where it isn't this buffer's open one.
    pub fn end_patchable(
        &mut self,
        region: OpenPatchRegion,
    ) -> Result<PatchRegion, (Refusal, OpenPatchRegion)>
        ensures tables { (closed_place result, view self.new) ≡ end_patchable (view self.old) region.number }
        ensures region { HandedBack result region }
        ensures set { self.new.set ≡ self.old.set }
    {
        end_patchable(&mut self.tables, region)
    }
}
