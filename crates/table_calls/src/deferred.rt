// Traps and constants that an island will write.
ghost use Rattle.std.specs.Prelude.{◌≡◌};
ghost use Rattle.model.specs.Calls.{defer_trap, get_label_for_constant};
ghost use Rattle.tables.specs.View.{view};

use model::Refusal;
use model::rows::DeferredTrap;
use tables::capacities::MAX_REQUESTS;
use tables::tables::Tables;

/// The next island writes a trap. The answer is its label.
pub fn defer_trap(tables: &mut Tables, trap: u32) -> Result<u32, Refusal>
    ensures { (result, view tables.new) ≡ defer_trap (view tables.old) trap }
{
    tables.unbroken()?;
    if trap == 0 || trap > 255 {
        return Err(Refusal::BadBytes);
    }
    tables.trap_room()?;
    let label = tables.new_label(true)?;
    tables
        .deferred
        .rows
        .push_reserved(DeferredTrap { label, code: trap });
    Ok(label)
}

/// The next island places a constant. The answer is its label, the same for each request up to then.
pub fn get_label_for_constant(tables: &mut Tables, number: u32) -> Result<u32, Refusal>
    ensures { (result, view tables.new) ≡ get_label_for_constant (view tables.old) number }
{
    tables.unbroken()?;
    let n = number as usize;
    let constant = tables.constants.rows.get(n).copied();
    if let Some(label) = constant.ok_or(Refusal::NoSuchConstant)?.label {
        return Ok(label);
    }
    if tables.requested.rows.len() + tables.placed.rows.len() >= MAX_REQUESTS {
        return Err(Refusal::ConstantsFull);
    }
    let label = tables.new_label(true)?;
    tables.constants.rows[n].label = Some(label);
    tables.requested.rows.push_reserved(number);
    Ok(label)
}
