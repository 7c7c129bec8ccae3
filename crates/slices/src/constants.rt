// Functions over the table of constants.
ghost use Rattle.std.specs.Prelude.{◌≡◌, ℕ, ◌+◌, ◌*◌, ◌≤◌, length, sum_by, slice_index_or};
ghost use Rattle.slices.specs.Constants.{no_constant};

use model::rows::Constant;

// The most bytes that a constant can take, with padding.
fn constant_room(constants: &[Constant], number: u32) -> u64
    ensures value { result ≡ (slice_index_or constants.now number no_constant).size + (slice_index_or constants.now number no_constant).align }
    ensures small { result ≤ 8589934592 }
{
    match constants.get(number as usize) {
        Some(constant) => constant.size as u64 + constant.align as u64,
        None => 1,
    }
}

/// The most bytes that some constants can take, with padding.
pub fn constants_room(constants: &[Constant], numbers: &[u32]) -> u64
    requires { length numbers.now ≤ 512 }
    ensures value { result ≡ sum_by (λ (n : ℕ). (slice_index_or constants.now n no_constant).size + (slice_index_or constants.now n no_constant).align) numbers.now }
    ensures small { result ≤ 512 * 8589934592 }
{
    numbers
        .iter()
        .map(|number| constant_room(constants, *number))
        .sum()
}
