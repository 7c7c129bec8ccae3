// Where displacements and senses stand, as the manual draws them.
ghost use Rattle.riscv.specs.Meaning.{riscv_words};

use crate::roles::{branch_role_of, jump_role_of};
use crate::set::{B12, J20, RiscV};
use bits::{Format, Piece};
use isa::Role;
use isa::words::WordSet;

const B_TYPE: Format = Format::Pieces {
    pieces: &[
        Piece {
            at: 8,
            wide: 4,
            from: 1,
        },
        Piece {
            at: 25,
            wide: 6,
            from: 5,
        },
        Piece {
            at: 7,
            wide: 1,
            from: 11,
        },
        Piece {
            at: 31,
            wide: 1,
            from: 12,
        },
    ],
    sign: 12,
};

const J_TYPE: Format = Format::Pieces {
    pieces: &[
        Piece {
            at: 21,
            wide: 10,
            from: 1,
        },
        Piece {
            at: 20,
            wide: 1,
            from: 11,
        },
        Piece {
            at: 12,
            wide: 8,
            from: 12,
        },
        Piece {
            at: 31,
            wide: 1,
            from: 20,
        },
    ],
    sign: 20,
};

impl WordSet for RiscV {
    ghost encoding = { λ _. riscv_words };

    fn format(&self, kind: u32) -> Format {
        if kind == B12 { B_TYPE } else { J_TYPE }
    }

    fn role_of_word(&self, kind: u32, code: u32) -> Option<Role> {
        match kind {
            B12 => branch_role_of(code),
            J20 => jump_role_of(code),
            _ => None,
        }
    }

    fn sense_bit(&self, _code: u32) -> u32 {
        12
    }
}
