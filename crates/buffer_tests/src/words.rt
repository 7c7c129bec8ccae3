// Words that the tests append.

/// b
pub const GOTO: u32 = 0x1400_0000;
/// b.eq
pub const BEQ: u32 = 0x5400_0000;
/// b.ne
pub const BNE: u32 = 0x5400_0001;
/// cbz x0
pub const CBZ: u32 = 0xb400_0000;
/// cbnz x0
pub const CBNZ: u32 = 0xb500_0000;
/// tbz w0, 0
pub const TBZ: u32 = 0x3600_0000;
/// tbnz w0, 0
pub const TBNZ: u32 = 0x3700_0000;
/// bl
pub const BL: u32 = 0x9400_0000;
/// ldr x0, from a literal
pub const LDR: u32 = 0x5800_0000;
/// adr x0
pub const ADR: u32 = 0x1000_0000;
/// nop
pub const NOP: u32 = 0xd503_201f;

/// beq x0, x0, of RISC-V
pub const RV_BEQ: u32 = 0x63;
/// bne x0, x0
pub const RV_BNE: u32 = 0x1063;
/// jal x0
pub const RV_JAL: u32 = 0x6f;
