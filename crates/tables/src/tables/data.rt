// Bytes of code.
ghost use Rattle.std.specs.Prelude.{◌≡◌, ◌+◌, ◌≤◌, ◌++◌, length, vec_len};
ghost use Rattle.model.specs.Code.{zeros, overwritten};
ghost use Rattle.model.specs.State.{with_code};
ghost use Rattle.tables.specs.View.{view};

use super::Tables;
use slices::bytes::overwrite;

impl Tables {
    /// Appends zeros, where there is room for them.
    pub fn append_zeros(&mut self, n: usize)
        requires { vec_len self.old.code.rows + n ≤ 65536 }
        ensures { view self.new ≡ with_code (view self.old) ((view self.old).code ++ zeros n) }
    {
        let _ = self.code.rows.resize(self.code.rows.len() + n, 0);
    }

    /// Appends bytes, where there is room for them.
    pub fn append_bytes(&mut self, bytes: &[u8])
        requires { vec_len self.old.code.rows + length bytes.now ≤ 65536 }
        ensures { view self.new ≡ with_code (view self.old) ((view self.old).code ++ bytes.now) }
    {
        let _ = self.code.rows.extend_from_slice(bytes);
    }

    /// Writes bytes over a part of the code.
    pub fn overwrite_code(&mut self, at: usize, bytes: &[u8])
        requires { at + length bytes.now ≤ vec_len self.old.code.rows }
        ensures { view self.new ≡ with_code (view self.old) (overwritten (view self.old).code at bytes.now) }
    {
        overwrite(&mut self.code.rows, at, bytes);
    }
}
