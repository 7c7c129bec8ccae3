// Making the tables, and the labels.
ghost use Rattle.std.specs.Prelude.{◌≡◌, ◌<◌, map, IfOk, vec_len};
ghost use Rattle.model.specs.Calls.{add_label, new_label, bind};
ghost use Rattle.model.specs.Labels.{moved, aliased};
ghost use Rattle.model.specs.State.{empty, with_labels};
ghost use Rattle.tables.specs.View.{view};

use super::Tables;
use crate::capacities::MAX_LABELS;
use crate::table::Table;
use model::Refusal;
use model::rows::{LATEST, Label, Place};
use slices::labels::{alias_labels, move_labels};
use std::alloc::{AllocError, Global};

impl Tables {
    /// Empty tables. All the memory that they will ever need is reserved here.
    pub fn new(heap: Global) -> Result<Tables, AllocError>
        ensures { IfOk result (λ b. view b ≡ empty) }
    {
        Ok(Tables {
            code: Table::new(heap)?,
            labels: Table::new(heap)?,
            fresh: Table::new(heap)?,
            held: Table::new(heap)?,
            deadline: LATEST,
            branches: Table::new(heap)?,
            deferred: Table::new(heap)?,
            traps: Table::new(heap)?,
            constants: Table::new(heap)?,
            requested: Table::new(heap)?,
            placed: Table::new(heap)?,
            regions: Table::new(heap)?,
            opened: None,
            broken: false,
        })
    }

    /// One label more, where there is room for it. A reserved one is bound by islands alone.
    pub fn push_label(&mut self, reserved: bool)
        requires { vec_len self.old.labels.rows < 4096 }
        ensures { view self.new ≡ add_label (view self.old) reserved }
    {
        self.labels.rows.push_reserved(Label::unbound(reserved));
    }

    /// A new label, if there is room for it. The answer is its number. A reserved one is bound by islands alone.
    pub fn new_label(&mut self, reserved: bool) -> Result<u32, Refusal>
        ensures { (result, view self.new) ≡ new_label (view self.old) reserved }
    {
        let number = self.labels.rows.len();
        if number >= MAX_LABELS {
            return Err(Refusal::LabelsFull);
        }
        self.push_label(reserved);
        Ok(number as u32)
    }

    /// Binds a label at the current offset.
    pub fn bind_here(&mut self, label: u32)
        requires { label < vec_len self.old.labels.rows }
        ensures { view self.new ≡ bind (view self.old) label }
    {
        self.labels.rows[label as usize].place = Place::At(self.code.rows.len() as u32);
    }

    /// Moves each label that stands at one offset to another.
    pub fn move_labels_at(&mut self, from: u32, to: u32)
        ensures { view self.new ≡ with_labels (view self.old) (map (moved from to) (view self.old).labels) }
    {
        move_labels(&mut self.labels.rows, from, to);
    }

    /// Each label that stands at an offset becomes an alias of another label.
    pub fn alias_labels_at(&mut self, from: u32, target: u32)
        ensures { view self.new ≡ with_labels (view self.old) (map (aliased from target) (view self.old).labels) }
    {
        alias_labels(&mut self.labels.rows, from, target);
    }
}
