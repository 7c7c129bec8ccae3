// Labels.
ghost use Rattle.std.specs.Prelude.{◌≡◌};
ghost use Rattle.model.specs.Calls.{get_label};
ghost use Rattle.tables.specs.View.{view};

use model::Refusal;
use tables::tables::Tables;

/// A new label, to be bound later.
pub fn get_label(tables: &mut Tables) -> Result<u32, Refusal>
    ensures { (result, view tables.new) ≡ get_label (view tables.old) }
{
    tables.unbroken()?;
    tables.new_label(false)
}
