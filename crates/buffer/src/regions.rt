// Regions of the code that are filled after finishing.
pub use table_calls::tokens::{OpenPatchRegion, PatchRegion};
