// Functions over bytes, and numbers of bytes.
ghost use Rattle.std.specs.Prelude.{◌≡◌, ◌+◌, ◌<◌, ◌≤◌, length};
ghost use Rattle.model.specs.Calls.{widened};
ghost use Rattle.model.specs.Code.{overwritten, padding, is_alignment};

/// Whether a number is a power of two up to 64.
// By its seven values, as the definition has it.
pub fn is_alignment_number(n: u32) -> bool
    ensures { result ≡ is_alignment n }
{
    matches!(n, 1 | 2 | 4 | 8 | 16 | 32 | 64)
}

/// How many bytes an offset lacks to a multiple of n.
pub fn padding_of(n: u32, at: u32) -> u32
    requires { 0 < n }
    ensures value { result ≡ padding n at }
    ensures small { result < n }
{
    (n - at % n) % n
}

/// Writes bytes over a part of the code.
pub fn overwrite(code: &mut [u8], at: usize, bytes: &[u8])
    requires { at + length bytes.now ≤ length code.old }
    ensures { code.new ≡ overwritten code.old at bytes.now }
{
    code[at..at + bytes.len()].copy_from_slice(bytes);
}

/// A few bytes in eight, with zeros after them.
pub fn widen(bytes: &[u8]) -> [u8; 8]
    requires { length bytes.now ≤ 8 }
    ensures { result ≡ widened bytes.now }
{
    let mut all = [0u8; 8];
    all[0..bytes.len()].copy_from_slice(bytes);
    all
}
