// Where displacements and senses stand, and which words are branches.
ghost use Rattle.short_set.specs.Meaning.{short_words};

use crate::set::{BRANCH, JUMP, LOAD, Short};
use bits::{Format, Piece, get_field};
use isa::words::WordSet;
use isa::{Condition, Role};

// Bits 15 to 12, times 2, of branches and loads.
const NEAR: Format = Format::Pieces {
    pieces: &[Piece {
        at: 12,
        wide: 4,
        from: 1,
    }],
    sign: 4,
};

// Bits 17 to 12, times 2, of jumps.
const MIDDLE: Format = Format::Pieces {
    pieces: &[Piece {
        at: 12,
        wide: 6,
        from: 1,
    }],
    sign: 6,
};

// Bits 31 to 12, times 2, of far jumps.
const FAR_REACHING: Format = Format::Pieces {
    pieces: &[Piece {
        at: 12,
        wide: 20,
        from: 1,
    }],
    sign: 20,
};

impl WordSet for Short {
    ghost encoding = { λ _. short_words };

    fn format(&self, kind: u32) -> Format {
        match kind {
            BRANCH | LOAD => NEAR,
            JUMP => MIDDLE,
            _ => FAR_REACHING,
        }
    }

    fn role_of_word(&self, kind: u32, code: u32) -> Option<Role> {
        if kind < LOAD && get_field(code, 0, 8) == kind + 1 {
            Some(if kind == BRANCH {
                Role::Conditional {
                    condition: Condition::Flags {
                        test: get_field(code, 9, 3),
                    },
                    sense: get_field(code, 8, 1) == 1,
                }
            } else {
                Role::Unconditional
            })
        } else {
            None
        }
    }

    fn sense_bit(&self, _code: u32) -> u32 {
        8
    }
}
