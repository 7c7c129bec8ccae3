// Functions over tables of fixups.
ghost use Rattle.std.specs.Prelude.{◌≡◌};
ghost use Rattle.model.specs.Fixups.{least_deadline};

use model::rows::{Fixup, LATEST};

/// The least deadline of some fixups, at most 4,294,967,295.
pub fn least_of(fixups: &[Fixup]) -> u64
    ensures { result ≡ least_deadline fixups.now }
{
    fixups
        .iter()
        .map(|fixup| fixup.deadline)
        .fold(LATEST, |least, deadline| least.min(deadline))
}
