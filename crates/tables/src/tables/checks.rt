// What refuses a call before anything is done.
ghost use Rattle.std.specs.Prelude.{◌≡◌, cond};
ghost use Rattle.model.specs.Calls.{no_label};
ghost use Rattle.model.specs.Full.{no_room, fixups_full, traps_full};
ghost use Rattle.model.specs.Labels.{label_row};
ghost use Rattle.model.specs.State.{is_open};
ghost use Rattle.tables.specs.View.{view};

use super::Tables;
use crate::capacities::{MAX_CODE, MAX_FIXUPS, MAX_TRAPS};
use model::Refusal;
use model::rows::Label;

impl Tables {
    /// Nothing more is built once an island has failed.
    pub fn unbroken(&self) -> Result<(), Refusal>
        ensures { result ≡ cond (view self.now).broken (Err Refusal.BrokenOff) (Ok tt) }
    {
        if self.broken {
            return Err(Refusal::BrokenOff);
        }
        Ok(())
    }

    /// No region is open.
    pub fn no_region_open(&self) -> Result<(), Refusal>
        ensures { result ≡ cond (is_open (view self.now)) (Err Refusal.RegionOpen) (Ok tt) }
    {
        if self.opened.is_some() {
            return Err(Refusal::RegionOpen);
        }
        Ok(())
    }

    /// The row of a label, if there is one of that number.
    pub fn label(&self, label: u32) -> Result<Label, Refusal>
        ensures { result ≡ cond (no_label (view self.now) label) (Err Refusal.NoSuchLabel) (Ok (label_row (view self.now).labels label)) }
    {
        self.labels
            .rows
            .get(label as usize)
            .copied()
            .ok_or(Refusal::NoSuchLabel)
    }

    /// There is room for so many bytes of code more.
    pub fn code_room(&self, n: usize) -> Result<(), Refusal>
        ensures { result ≡ cond (no_room (view self.now) n) (Err Refusal.CodeFull) (Ok tt) }
    {
        if n > MAX_CODE - self.code.rows.len() {
            return Err(Refusal::CodeFull);
        }
        Ok(())
    }

    /// There is room for one fixup more.
    pub fn fixup_room(&self) -> Result<(), Refusal>
        ensures { result ≡ cond (fixups_full (view self.now)) (Err Refusal.FixupsFull) (Ok tt) }
    {
        if self.fresh.rows.len() + self.held.rows.len() >= MAX_FIXUPS {
            return Err(Refusal::FixupsFull);
        }
        Ok(())
    }

    /// There is room for one trap more, on record or deferred.
    pub fn trap_room(&self) -> Result<(), Refusal>
        ensures { result ≡ cond (traps_full (view self.now)) (Err Refusal.TrapsFull) (Ok tt) }
    {
        if self.traps.rows.len() + self.deferred.rows.len() >= MAX_TRAPS {
            return Err(Refusal::TrapsFull);
        }
        Ok(())
    }
}
