// Bytes that refer to no label.
ghost use Rattle.std.specs.Prelude.{◌≡◌};
ghost use Rattle.model.specs.Calls.{put_data, align_to};
ghost use Rattle.tables.specs.View.{view};

use model::Refusal;
use model::rows::Trap;
use slices::bytes::{is_alignment_number, padding_of};
use tables::tables::Tables;

/// Appends bytes, which may trap if the trap code is not 0.
// A trap code of 0 is the source's word for no trap, and one over 255 is refused: so it is no Option, and no u8.
pub fn put_data(tables: &mut Tables, trap: u32, bytes: &[u8]) -> Result<u32, Refusal>
    ensures { (result, view tables.new) ≡ put_data (view tables.old) trap bytes.now }
{
    tables.unbroken()?;
    if trap > 255 || (trap > 0 && bytes.len() == 0) {
        return Err(Refusal::BadBytes);
    }
    if trap > 0 {
        tables.trap_room()?;
    }
    let offset = tables.code.rows.len();
    tables.code_room(bytes.len())?;
    if trap > 0 {
        tables.traps.rows.push_reserved(Trap {
            offset: offset as u32,
            code: trap,
        });
    }
    tables.append_bytes(bytes);
    Ok(offset as u32)
}

/// Appends zeros up to a multiple of n.
pub fn align_to(tables: &mut Tables, n: u32) -> Result<(), Refusal>
    ensures { (result, view tables.new) ≡ align_to (view tables.old) n }
{
    tables.unbroken()?;
    if !is_alignment_number(n) {
        return Err(Refusal::BadAlignment);
    }
    let offset = tables.code.rows.len();
    let missing = padding_of(n, offset as u32) as usize;
    tables.code_room(missing)?;
    tables.append_zeros(missing);
    Ok(())
}
