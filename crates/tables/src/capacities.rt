// How much a buffer can hold.

/// bytes of code
pub const MAX_CODE: usize = 65536;
/// labels
pub const MAX_LABELS: usize = 4096;
/// fixups that wait
pub const MAX_FIXUPS: usize = 4096;
/// standing branches
pub const MAX_BRANCHES: usize = 512;
/// traps, deferred or on record
pub const MAX_TRAPS: usize = 512;
/// registered constants
pub const MAX_CONSTANTS: usize = 512;
/// requests of constants
pub const MAX_REQUESTS: usize = 512;
/// regions
pub const MAX_REGIONS: usize = 64;
