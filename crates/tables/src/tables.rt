// The tables of a buffer. What is done to them is in the modules below.
ghost use Rattle.std.specs.Prelude.{◌≡◌, ◌+◌, ◌<◌, ◌≤◌, true, is_some, vec_len};
ghost use Rattle.tables.specs.Standing.{Begun, Short, Within, Waiting, InOrder, FixupsInOrder};

use crate::capacities::{
    MAX_BRANCHES, MAX_CODE, MAX_CONSTANTS, MAX_FIXUPS, MAX_LABELS, MAX_REGIONS, MAX_REQUESTS,
    MAX_TRAPS,
};
use crate::table::Table;
use model::rows::{Branch, Constant, DeferredTrap, Fixup, Label, PlacedConstant, Region, Trap};

mod branches;
mod checks;
mod constants;
mod data;
mod labels;
mod uses;

/// The tables of a code buffer, without its instruction set.
#[derive(Drop)]
pub struct Tables {
    pub code: Table<u8, MAX_CODE>,
    pub labels: Table<Label, MAX_LABELS>,
    pub fresh: Table<Fixup, MAX_FIXUPS>,
    pub held: Table<Fixup, MAX_FIXUPS>,
    pub deadline: u64,
    pub branches: Table<Branch, MAX_BRANCHES>,
    pub deferred: Table<DeferredTrap, MAX_TRAPS>,
    pub traps: Table<Trap, MAX_TRAPS>,
    pub constants: Table<Constant, MAX_CONSTANTS>,
    pub requested: Table<u32, MAX_REQUESTS>,
    pub placed: Table<PlacedConstant, MAX_REQUESTS>,
    pub regions: Table<Region, MAX_REGIONS>,
    pub opened: Option<u32>,
    pub broken: bool,
    ghost begun: { Begun branches.rows.items },
    ghost short: { Short branches.rows.items },
    ghost within: { Within (vec_len code.rows) branches.rows.items },
    ghost waiting: { Waiting (vec_len fresh.rows) branches.rows.items },
    ghost in_order: { InOrder branches.rows.items },
    ghost fixups_in_order: { FixupsInOrder branches.rows.items },
    ghost fixups_room: { vec_len fresh.rows + vec_len held.rows ≤ 4096 },
    ghost traps_room: { vec_len traps.rows + vec_len deferred.rows ≤ 512 },
    ghost requests_room: { vec_len requested.rows + vec_len placed.rows ≤ 512 },
    ghost regions_room: { (is_some opened ≡ true → vec_len regions.rows < 64) },
}
