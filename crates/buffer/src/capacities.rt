// How much a buffer can hold.
pub use simplification::rounds::MAX_LABELS_AT_BRANCH;
pub use tables::capacities::{
    MAX_BRANCHES, MAX_CODE, MAX_CONSTANTS, MAX_FIXUPS, MAX_LABELS, MAX_REGIONS, MAX_REQUESTS,
    MAX_TRAPS,
};
