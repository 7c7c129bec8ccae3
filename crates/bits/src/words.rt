// Words as bytes.
ghost use Rattle.std.specs.Prelude.{◌≡◌, ◌^◌, ◌<◌, length};
ghost use Rattle.std.specs.Int.Signed.{mag};
ghost use Rattle.std.specs.Int.{cast_unsigned, w32};
ghost use Rattle.bits.specs.Words.{word, to_bytes};

/// Four bytes as a word, little-endian.
// A slice with its length in a clause, no array: sets are lent slices, and would make an array in each method.
pub fn read_word(bytes: &[u8]) -> u32
    requires { length bytes.now ≡ 4 }
    ensures { result ≡ word 4 bytes.now }
{
    u32::from_le_bytes([bytes[0], bytes[1], bytes[2], bytes[3]])
}

/// Writes a word over four bytes.
pub fn write_word(bytes: &mut [u8], value: u32)
    requires { length bytes.old ≡ 4 }
    ensures { bytes.new ≡ to_bytes 4 value }
{
    bytes.copy_from_slice(&value.to_le_bytes());
}

/// The low 32 bits of a displacement, in two's complement.
pub fn low_bits(displacement: i64) -> u32
    requires { mag displacement < 2 ^ 31 }
    ensures { result ≡ cast_unsigned w32 displacement }
{
    (displacement as i32).cast_unsigned()
}
