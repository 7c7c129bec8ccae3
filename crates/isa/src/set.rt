// The trait of instruction sets.
ghost use Rattle.std.specs.Prelude.{◌≡◌, ◌<◌, true, length};
ghost use Rattle.isa.specs.Isa.{Isa, Patchable};
ghost use Rattle.isa.specs.Laws.{Lawful, OfKind};
ghost use Rattle.isa.specs.Roles.{same};

use crate::jumps::{Jump, Role};

pub trait InstructionSet {
    // The meaning, which says what each method answers.
    ghost meaning: { Self → Isa };

    /// Uses, veneers, traps and labels stand at multiples of it.
    fn align(&self) -> u32
        ensures { result ≡ (meaning self.now).align };

    /// How many kinds of use there are.
    fn kinds(&self) -> u32
        ensures { result ≡ (meaning self.now).kinds };

    // That a kind is one of the set's stands in no type: kinds are numbers at the interface, by a rule of the project.
    /// The farthest that a use reaches ahead.
    fn max_pos_range(&self, kind: u32) -> u32
        requires { kind < (meaning self.now).kinds }
        ensures { result ≡ (meaning self.now).max_pos kind };

    /// The farthest that a use reaches back.
    fn max_neg_range(&self, kind: u32) -> u32
        requires { kind < (meaning self.now).kinds }
        ensures { result ≡ (meaning self.now).max_neg kind };

    /// How many bytes a patch takes.
    fn patch_size(&self, kind: u32) -> u32
        requires { kind < (meaning self.now).kinds }
        ensures { result ≡ (meaning self.now).size kind };

    /// Whether a patch adds to what the bytes hold.
    fn is_adding(&self, kind: u32) -> bool
        requires { kind < (meaning self.now).kinds }
        ensures { result ≡ (meaning self.now).adds kind };

    /// The displacement that the bytes hold.
    fn read(&self, kind: u32, bytes: &[u8]) -> i64
        requires { OfKind (meaning self.now) kind bytes.now }
        ensures { result ≡ (meaning self.now).reads kind bytes.now };

    /// Writes a displacement.
    fn patch(&self, kind: u32, bytes: &mut [u8], displacement: i64)
        requires { Patchable (meaning self.now) kind bytes.old displacement }
        ensures { bytes.new ≡ (meaning self.now).patched kind bytes.old displacement };

    /// The role of the bytes, if they are a branch.
    fn role(&self, kind: u32, bytes: &[u8]) -> Option<Role>
        requires { OfKind (meaning self.now) kind bytes.now }
        ensures { result ≡ (meaning self.now).role kind bytes.now };

    /// Whether the bytes of two conditionals are equal but for the field and the sense.
    fn same_rest(&self, kind: u32, bytes: &[u8], other: &[u8]) -> bool
        requires of_kind { OfKind (meaning self.now) kind bytes.now }
        requires other_of_kind { OfKind (meaning self.now) kind other.now }
        ensures { result ≡ same ((meaning self.now).rest kind bytes.now) ((meaning self.now).rest kind other.now) };

    /// Turns the sense of a conditional's bytes round.
    fn invert(&self, kind: u32, bytes: &mut [u8])
        requires { OfKind (meaning self.now) kind bytes.old }
        ensures { bytes.new ≡ (meaning self.now).inverted kind bytes.old };

    // A question and a size, no Option: the methods are those of the source's trait.
    /// Whether the kind has a veneer.
    fn supports_veneer(&self, kind: u32) -> bool
        requires { kind < (meaning self.now).kinds }
        ensures { result ≡ (meaning self.now).supports kind };

    /// How many bytes the veneer has.
    fn veneer_size(&self, kind: u32) -> u32
        requires kind_bound { kind < (meaning self.now).kinds }
        requires has_veneer { (meaning self.now).supports kind ≡ true }
        ensures { result ≡ length ((meaning self.now).veneer kind).code };

    /// How many bytes the longest veneer has.
    fn worst_case_veneer_size(&self) -> u32
        ensures { result ≡ (meaning self.now).worst };

    // A pair of numbers, by a rule of the project.
    /// Writes the veneer, and answers the place of its own use in it and that use's kind.
    fn generate_veneer(&self, kind: u32, buffer: &mut [u8]) -> (u32, u32)
        requires kind_bound { kind < (meaning self.now).kinds }
        requires has_veneer { (meaning self.now).supports kind ≡ true }
        requires buffer_len { length buffer.old ≡ length ((meaning self.now).veneer kind).code }
        ensures code { buffer.new ≡ ((meaning self.now).veneer kind).code }
        ensures place { result.0 ≡ ((meaning self.now).veneer kind).place }
        ensures own { result.1 ≡ ((meaning self.now).veneer kind).own };

    /// The bytes of a trap.
    fn trap_opcode(&self) -> &[u8]
        ensures { result.now ≡ (meaning self.now).trap };

    /// What jumps at an offset of some code, if anything does.
    fn find(&self, code: &[u8], offset: usize) -> Option<Jump>
        ensures { result ≡ (meaning self.now).find code.now offset };

    ghost lawful: { (s : Self) → Lawful (meaning s) };
}
