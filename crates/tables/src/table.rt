// A table whose room was reserved when it was made, so that no row is ever refused for want of memory.
ghost use Rattle.std.specs.Prelude.{◌≡◌, ◌≤◌, [], IfOk, vec_len, vec_capacity};

use std::alloc::{AllocError, Global};

/// At most `ROOM` rows.
#[derive(Drop)]
pub struct Table<T, const ROOM: usize> {
    pub rows: Vec<T>,
    ghost short: { vec_len rows ≤ ROOM },
    ghost room: { ROOM ≤ vec_capacity rows },
}

impl<T: Drop, const ROOM: usize> Table<T, ROOM> {
    /// An empty table with all its room.
    pub fn new(heap: Global) -> Result<Table<T, ROOM>, AllocError>
        ensures { IfOk result (λ t. t.rows.items ≡ []) }
    {
        let rows = Vec::with_capacity(heap, ROOM)?;
        Ok(Table { rows })
    }
}
