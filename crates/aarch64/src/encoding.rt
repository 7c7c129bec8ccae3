// Where displacements and senses stand, as the manual draws them.
ghost use Rattle.aarch64.specs.Meaning.{aarch64_words};

use crate::roles::{branch19_role_of, jump_role_of, sense_bit_of, test_role_of};
use crate::set::{AArch64, ADR21, BRANCH14, BRANCH19, BRANCH26, LDR19};
use bits::{Format, Piece};
use isa::Role;
use isa::words::WordSet;

// A quarter of the displacement, in one piece.
const IMM14: Format = Format::Pieces {
    pieces: &[Piece {
        at: 5,
        wide: 14,
        from: 2,
    }],
    sign: 15,
};

const IMM19: Format = Format::Pieces {
    pieces: &[Piece {
        at: 5,
        wide: 19,
        from: 2,
    }],
    sign: 20,
};

const IMM26: Format = Format::Pieces {
    pieces: &[Piece {
        at: 0,
        wide: 26,
        from: 2,
    }],
    sign: 27,
};

// The lowest two bits of the displacement, immlo, and the others, immhi.
const IMM_LO_HI: Format = Format::Pieces {
    pieces: &[
        Piece {
            at: 29,
            wide: 2,
            from: 0,
        },
        Piece {
            at: 5,
            wide: 19,
            from: 2,
        },
    ],
    sign: 20,
};

impl WordSet for AArch64 {
    ghost encoding = { λ _. aarch64_words };

    fn format(&self, kind: u32) -> Format {
        match kind {
            BRANCH14 => IMM14,
            BRANCH19 | LDR19 => IMM19,
            BRANCH26 => IMM26,
            ADR21 => IMM_LO_HI,
            _ => Format::Whole,
        }
    }

    fn role_of_word(&self, kind: u32, code: u32) -> Option<Role> {
        match kind {
            BRANCH14 => test_role_of(code),
            BRANCH19 => branch19_role_of(code),
            BRANCH26 => jump_role_of(code),
            _ => None,
        }
    }

    fn sense_bit(&self, code: u32) -> u32 {
        sense_bit_of(code)
    }
}
