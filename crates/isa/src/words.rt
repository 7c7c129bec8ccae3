// Sets whose uses are words of four bytes.
//
// Such a set says where displacements stand in its words, which words are branches, and which bit is a
// conditional's sense. What its methods do to bytes follows from that, and is written here once for all of them.
ghost use Rattle.std.specs.Prelude.{◌≡◌, ◌^◌, ◌<◌, length, drop, IsTrue};
ghost use Rattle.std.specs.List.{All};
ghost use Rattle.std.specs.Int.Signed.{mag};
ghost use Rattle.bits.specs.Formats.{format_of, good};
ghost use Rattle.isa.specs.Finding.{branch_at};
ghost use Rattle.isa.specs.Roles.{same};
ghost use Rattle.isa.specs.Words.{Encoding, reads, patched, role, turned, inverted, rest_word, rest, branch_at_head};

use crate::jumps::{Jump, Role};
use bits::{Format, flip_bit, low_bits, put_field, read_word, write_word};

/// What is particular to a set of words.
pub trait WordSet {
    // Where displacements stand, which words are branches, and which bit is the sense.
    ghost encoding: { Self → Encoding };

    /// Where a kind's displacement stands.
    fn format(&self, kind: u32) -> Format
        requires { kind < (encoding self.now).kinds }
        ensures value { format_of result ≡ (encoding self.now).format kind }
        ensures good { IsTrue (good 32 (format_of result)) };

    /// The role of a word as a use of a kind, if it is a branch.
    fn role_of_word(&self, kind: u32, code: u32) -> Option<Role>
        ensures { result ≡ (encoding self.now).role kind code };

    /// The bit that holds the sense.
    fn sense_bit(&self, code: u32) -> u32
        ensures value { result ≡ (encoding self.now).sense code }
        ensures within { result < 32 };
}

/// The displacement that the bytes hold.
pub fn read<S: WordSet>(set: &S, kind: u32, bytes: &[u8]) -> i64
    requires kind_bound { kind < (S.encoding set.now).kinds }
    requires word_long { length bytes.now ≡ 4 }
    ensures { result ≡ reads (S.encoding set.now) kind bytes.now }
{
    set.format(kind).read(bytes)
}

/// Writes a displacement.
pub fn patch<S: WordSet>(set: &S, kind: u32, bytes: &mut [u8], displacement: i64)
    requires kind_bound { kind < (S.encoding set.now).kinds }
    requires word_long { length bytes.old ≡ 4 }
    requires small { mag displacement < 2 ^ 31 }
    ensures { bytes.new ≡ patched (S.encoding set.now) kind bytes.old displacement }
{
    let patched = set
        .format(kind)
        .rewrite(read_word(bytes), low_bits(displacement));
    write_word(bytes, patched);
}

/// The role of the bytes, if they are a branch.
pub fn role<S: WordSet>(set: &S, kind: u32, bytes: &[u8]) -> Option<Role>
    requires { length bytes.now ≡ 4 }
    ensures { result ≡ role (S.encoding set.now) kind bytes.now }
{
    set.role_of_word(kind, read_word(bytes))
}

// The word of a conditional with its field and its sense cleared.
fn rest_of_word<S: WordSet>(set: &S, kind: u32, code: u32) -> u32
    requires { kind < (S.encoding set.now).kinds }
    ensures { result ≡ rest_word (S.encoding set.now) kind code }
{
    put_field(set.format(kind).clear(code), set.sense_bit(code), 1, 0)
}

/// Whether the bytes of two conditionals are equal but for the field and the sense.
pub fn same_rest<S: WordSet>(set: &S, kind: u32, bytes: &[u8], other: &[u8]) -> bool
    requires kind_bound { kind < (S.encoding set.now).kinds }
    requires word_long { length bytes.now ≡ 4 }
    requires other_word_long { length other.now ≡ 4 }
    ensures { result ≡ same (rest (S.encoding set.now) kind bytes.now) (rest (S.encoding set.now) kind other.now) }
{
    rest_of_word(set, kind, read_word(bytes)) == rest_of_word(set, kind, read_word(other))
}

/// Turns the sense of a conditional's bytes round.
pub fn invert<S: WordSet>(set: &S, bytes: &mut [u8])
    requires { length bytes.old ≡ 4 }
    ensures { bytes.new ≡ inverted (S.encoding set.now) bytes.old }
{
    let code = read_word(bytes);
    write_word(bytes, flip_bit(code, set.sense_bit(code)));
}

/// The code from an offset on, which is empty past the end.
pub fn code_from(code: &[u8], offset: usize) -> &[u8]
    ensures { result.now ≡ drop offset code.now }
{
    &code[offset.min(code.len())..]
}

// The branch at the head of the code, as a use of a kind.
fn branch_of<S: WordSet>(set: &S, kind: u32, code: &[u8]) -> Option<Jump>
    requires { kind < (S.encoding set.now).kinds }
    ensures { result ≡ branch_at 4 (role (S.encoding set.now) kind) (reads (S.encoding set.now) kind) code.now }
{
    let head = code.get(..4)?;
    Some(Jump::Branch {
        role: role(set, kind, head)?,
        size: 4,
        displacement: read(set, kind, head),
    })
}

// The branch at the head of the code, of the first of some kinds that it is one of.
fn branch_at_head<S: WordSet>(set: &S, kinds: &[u32], code: &[u8]) -> Option<Jump>
    requires { All (λ k. k < (S.encoding set.now).kinds) kinds.now }
    ensures { result ≡ branch_at_head (S.encoding set.now) kinds.now code.now }
{
    // A loop: by `find_map` it was not shown which branch is found.
    for kind in kinds {
        let branch = branch_of(set, *kind, code);
        if branch.is_some() {
            return branch;
        }
    }
    None
}

/// The branch at an offset of the code, of the first of some kinds that it is one of.
pub fn find<S: WordSet>(set: &S, kinds: &[u32], code: &[u8], offset: usize) -> Option<Jump>
    requires { All (λ k. k < (S.encoding set.now).kinds) kinds.now }
    ensures { result ≡ branch_at_head (S.encoding set.now) kinds.now (drop offset code.now) }
{
    branch_at_head(set, kinds, code_from(code, offset))
}
