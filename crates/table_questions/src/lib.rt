//! What may be asked of the tables at any time. Nothing changes by asking.
#![tactic(auto)]

ghost use Rattle.std.specs.Prelude.{◌≡◌, ℕ, ◌+◌, ◌*◌, ◌≤◌, length, sum_by};
ghost use Rattle.model.specs.Constants.{constant_row};
ghost use Rattle.model.specs.Fixups.{least_deadline, waiting};
ghost use Rattle.model.specs.Questions.{resolve_label_offset};
ghost use Rattle.model.specs.State.{cur_offset};
ghost use Rattle.tables.specs.View.{view};

use model::Refusal;
use model::rows::{PlacedConstant, Trap};
use slices::constants::constants_room;
use slices::fixups::least_of;
use slices::labels::resolve;
use tables::tables::Tables;

/// Where the next byte goes.
pub fn cur_offset(tables: &Tables) -> u32
    ensures { result ≡ cur_offset (view tables.now) }
{
    tables.code.rows.len() as u32
}

/// The offset that a label resolves to along its aliases, or 4,294,967,295 where it is unbound.
// The number is the source's answer, so that this is no Option.
pub fn resolve_label_offset(tables: &Tables, label: u32) -> Result<u32, Refusal>
    ensures { result ≡ resolve_label_offset (view tables.now) label }
{
    tables.label(label)?;
    Ok(resolve(tables.labels.rows.as_slice(), label))
}

/// The most bytes that the constants requested can take, with padding.
pub fn requested_room(tables: &Tables) -> u64
    ensures value { result ≡ sum_by (λ (n : ℕ). (constant_row (view tables.now) n).size + (constant_row (view tables.now) n).align) (view tables.now).requested }
    ensures small { result ≤ 512 * 8589934592 }
{
    constants_room(
        tables.constants.rows.as_slice(),
        tables.requested.rows.as_slice(),
    )
}

/// The least deadline of the held fixups.
pub fn held_deadline(tables: &Tables) -> u64
    ensures { result ≡ least_deadline (view tables.now).held }
{
    least_of(tables.held.rows.as_slice())
}

/// The code so far.
pub fn code(tables: &Tables) -> &[u8]
    ensures { result.now ≡ (view tables.now).code }
{
    tables.code.rows.as_slice()
}

/// How many labels there are.
pub fn labels_len(tables: &Tables) -> u32
    ensures { result ≡ length (view tables.now).labels }
{
    tables.labels.rows.len() as u32
}

/// The traps on record, in the order of their recording.
pub fn traps(tables: &Tables) -> &[Trap]
    ensures { result.now ≡ (view tables.now).traps }
{
    tables.traps.rows.as_slice()
}

/// The constants placed, in the order of their placing.
pub fn placed_constants(tables: &Tables) -> &[PlacedConstant]
    ensures { result.now ≡ (view tables.now).placed }
{
    tables.placed.rows.as_slice()
}

/// How many fixups wait.
pub fn waiting_len(tables: &Tables) -> u32
    ensures { result ≡ waiting (view tables.now) }
{
    (tables.fresh.rows.len() + tables.held.rows.len()) as u32
}
