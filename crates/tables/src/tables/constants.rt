// Constants that an island will write.
ghost use Rattle.std.specs.Prelude.{◌≡◌, ◌<◌, [], ◌∷◌, ◌++◌, vec_len};
ghost use Rattle.model.specs.State.{with_constants};
ghost use Rattle.tables.specs.View.{view};

use super::Tables;
use model::rows::Constant;

impl Tables {
    /// One constant more, where there is room for it.
    pub fn push_constant(&mut self, constant: Constant)
        requires { vec_len self.old.constants.rows < 512 }
        ensures { view self.new ≡ with_constants (view self.old) ((view self.old).constants ++ constant ∷ []) }
    {
        self.constants.rows.push_reserved(constant);
    }
}
