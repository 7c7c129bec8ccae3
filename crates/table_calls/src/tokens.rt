// Regions of the code that are filled after finishing.
ghost use Rattle.std.specs.Prelude.{◌≡◌};

use model::rows::Region;

/// A region that was opened and not closed yet. It can't be let go: closing takes it.
pub struct OpenPatchRegion {
    pub number: u32,
}

/// A closed region, by its number, and where it lies.
#[derive(Drop)]
pub struct PatchRegion {
    pub number: u32,
    pub place: Region,
}
