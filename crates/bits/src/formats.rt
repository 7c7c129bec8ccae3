// Where a displacement stands in a word.
ghost use Rattle.std.specs.Prelude.{◌≡◌, length, IsTrue};
ghost use Rattle.bits.specs.Formats.{format_of, good, reading, rewriting, clear_field};

use crate::pieces::{Piece, gathered, scattered, sign_extend};
use crate::words::read_word;

/// Where a displacement stands in a word of four bytes.
#[derive(Clone, Copy, Debug)]
pub enum Format {
    /// in pieces, with its sign at a bit of the displacement
    Pieces { pieces: &'static [Piece], sign: u32 },
    /// in the whole word, which the displacement is added to
    Whole,
}

// That a format is good is asked by each method: an enum has no ghost field, and in a struct it would be taken out each time.
impl Format {
    /// The word with a displacement's bits in the field, or added.
    pub fn rewrite(&self, code: u32, bits: u32) -> u32
        requires { IsTrue (good 32 (format_of self.now)) }
        ensures { result ≡ rewriting (format_of self.now) code bits }
    {
        match self {
            Format::Pieces { pieces, .. } => scattered(pieces, code, bits),
            Format::Whole => code.wrapping_add(bits),
        }
    }

    /// The word with the field cleared.
    pub fn clear(&self, code: u32) -> u32
        requires { IsTrue (good 32 (format_of self.now)) }
        ensures { result ≡ clear_field (format_of self.now) code }
    {
        match self {
            Format::Pieces { pieces, .. } => scattered(pieces, code, 0),
            Format::Whole => 0,
        }
    }

    /// The displacement that the bytes of a word hold.
    pub fn read(&self, bytes: &[u8]) -> i64
        requires good { IsTrue (good 32 (format_of self.now)) }
        requires word_long { length bytes.now ≡ 4 }
        ensures { result ≡ reading (format_of self.now) bytes.now }
    {
        let code = read_word(bytes);
        match self {
            Format::Pieces { pieces, sign } => sign_extend(gathered(pieces, code), *sign),
            Format::Whole => sign_extend(code, 31),
        }
    }
}
