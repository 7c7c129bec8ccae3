// Regions that are filled after finishing.
ghost use Rattle.std.specs.Prelude.{◌≡◌};
ghost use Rattle.model.specs.Calls.{start_patchable, end_patchable};
ghost use Rattle.table_calls.specs.Regions.{opened_number, closed_place, HandedBack};
ghost use Rattle.tables.specs.View.{view};

use crate::tokens::{OpenPatchRegion, PatchRegion};
use model::Refusal;
use model::rows::Region;
use tables::capacities::MAX_REGIONS;
use tables::tables::Tables;

/// Opens a region at the current offset.
pub fn start_patchable(tables: &mut Tables) -> Result<OpenPatchRegion, Refusal>
    ensures { (opened_number result, view tables.new) ≡ start_patchable (view tables.old) }
{
    tables.unbroken()?;
    tables.no_region_open()?;
    let number = tables.regions.rows.len();
    if number >= MAX_REGIONS {
        return Err(Refusal::RegionsFull);
    }
    tables.opened = Some(tables.code.rows.len() as u32);
    Ok(OpenPatchRegion {
        number: number as u32,
    })
}

/// Closes the open region, or hands it back where it isn't this buffer's open one.
pub fn end_patchable(
    tables: &mut Tables,
    region: OpenPatchRegion,
) -> Result<PatchRegion, (Refusal, OpenPatchRegion)>
    ensures tables { (closed_place result, view tables.new) ≡ end_patchable (view tables.old) region.number }
    ensures region { HandedBack result region }
{
    let Some(start) = tables.opened else {
        return Err((Refusal::RegionOpen, region));
    };
    if region.number as usize != tables.regions.rows.len() {
        return Err((Refusal::RegionOpen, region));
    }
    let OpenPatchRegion { number } = region;
    let end = tables.code.rows.len() as u32;
    let place = Region {
        start,
        len: end.saturating_sub(start),
    };
    tables.regions.rows.push_reserved(place);
    tables.opened = None;
    Ok(PatchRegion { number, place })
}
