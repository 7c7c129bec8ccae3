// What bytes do when they are run: the words in which a set says it.

/// The condition of a branch: the way in which a processor tests, which of its tests, and the registers tested. Each
/// condition has one truth, so a set gives two branches one condition only where it means them to jump together.
#[derive(Clone, Copy, PartialEq, Eq, Debug)]
pub enum Condition {
    /// the flags, as B.cond
    Flags { test: u32 },
    /// a register against zero, as CBZ and CBNZ
    Zero { test: u32, register: u32 },
    /// one bit of a register, as TBZ and TBNZ
    Bit { test: u32, register: u32 },
    /// two registers against each other, as BEQ and BLT
    Compare { test: u32, first: u32, second: u32 },
}

/// The role of a branch. A use's bytes have one exactly where they are a branch that the buffer may move or remove.
#[derive(Clone, Copy, PartialEq, Eq, Debug)]
pub enum Role {
    /// it always jumps
    Unconditional,
    /// it jumps where its condition's truth equals its sense
    Conditional { condition: Condition, sense: bool },
}

/// What jumps at an offset of some code. A displacement counts from that offset.
#[derive(Clone, Copy, PartialEq, Eq, Debug)]
pub enum Jump {
    /// a branch of `size` bytes
    Branch {
        role: Role,
        size: u32,
        displacement: i64,
    },
    /// a veneer, which leads on
    Veneer {
        displacement: i64,
    },
}
