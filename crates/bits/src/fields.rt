// One field of a word.
ghost use Rattle.std.specs.Prelude.{◌≡◌, ◌+◌, ◌^◌, ◌<◌, ◌≤◌};
ghost use Rattle.bits.specs.Fields.{get, put, flip};

/// The `width` bits of a word from bit `lo`.
pub fn get_field(code: u32, lo: u32, width: u32) -> u32
    requires { lo + width ≤ 32 }
    ensures value { result ≡ get lo width code }
    ensures small { result < 2 ^ width }
{
    (((code as u64) >> lo) & ((1u64 << width) - 1)) as u32
}

/// The word with a value in the `width` bits from bit `lo`, the others unchanged.
pub fn put_field(code: u32, lo: u32, width: u32, value: u32) -> u32
    requires field_in { lo + width ≤ 32 }
    requires value_fits { value < 2 ^ width }
    ensures { result ≡ put lo width code value }
{
    let end = lo + width;
    let high = ((code as u64) >> end) << end;
    let low = (code as u64) & ((1u64 << lo) - 1);
    (high | ((value as u64) << lo) | low) as u32
}

/// The word with a bit turned round.
pub fn flip_bit(code: u32, bit: u32) -> u32
    requires { bit < 32 }
    ensures { result ≡ flip bit code }
{
    put_field(code, bit, 1, 1 - get_field(code, bit, 1))
}
