// How many encodings are equal.
ghost use Rattle.std.specs.Prelude.{◌≡◌, false};
ghost use Rattle.vectors.specs.Counts.{added};

use crate::vector::Vector;
use jump_report::text::SetName;
use std::alloc::{AllocError, Global};
use std::collections::BTreeMap;
use std::fmt;

#[derive(Clone, Copy, PartialEq, Eq, PartialOrd, Ord)]
struct Kind {
    set: SetName,
    number: u32,
}

#[derive(Clone, Copy)]
struct Count {
    all: u64,
    equal: u64,
}

impl Count {
    const NONE: Count = Count { all: 0, equal: 0 };

    fn add(&mut self, is_equal: bool)
        ensures { self.new ≡ added self.old is_equal }
    {
        self.all = self.all.saturating_add(1);
        if is_equal {
            self.equal = self.equal.saturating_add(1);
        }
    }
}

/// The encodings of each kind, and all of them.
#[derive(Drop)]
pub struct Tally {
    kinds: BTreeMap<Kind, Count>,
    whole: Count,
}

impl Tally {
    pub fn new(heap: Global) -> Tally
        ensures { (result.whole.all ≡ 0) × (result.whole.equal ≡ 0) }
    {
        Tally {
            kinds: BTreeMap::new(heap),
            whole: Count::NONE,
        }
    }

    /// Counts an encoding of a kind.
    // A yes or no with no value beside it: what went wrong is printed, not counted.
    pub fn count(&mut self, vector: &Vector, is_equal: bool) -> Result<(), AllocError>
        ensures { self.new.whole ≡ added self.old.whole is_equal }
    {
        self.whole.add(is_equal);
        let kind = Kind {
            set: vector.request.set,
            number: vector.request.kind,
        };
        self.kinds.entry(kind)?.or_insert(Count::NONE).add(is_equal);
        Ok(())
    }

    /// Counts an encoding that can't be read.
    pub fn count_unread(&mut self)
        ensures { self.new.whole ≡ added self.old.whole false }
    {
        self.whole.add(false);
    }
}

impl fmt::Display for Tally {
    fn fmt<W: fmt::Write>(&self, f: &mut fmt::Formatter<W>) -> fmt::Result {
        for (kind, count) in self.kinds.iter() {
            let Kind { set, number } = *kind;
            let Count { all, equal } = *count;
            writeln!(f, "{set} kind {number}: {equal} equal of {all}")?;
        }
        let Count { all, equal } = self.whole;
        write!(f, "{all} encodings, {equal} equal")
    }
}
