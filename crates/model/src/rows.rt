// The rows of a buffer's tables.
ghost use Rattle.std.specs.Prelude.{◌≡◌};
ghost use Rattle.model.specs.Labels.{unbound};
ghost use Rattle.model.specs.Simplify.{is_conditional, turned};

/// Where a label is that stands nowhere: the number is the source's.
pub const UNKNOWN: u32 = 4294967295;

/// No deadline counts as later, and no threshold is higher.
pub const LATEST: u64 = 4294967295;

/// Where a label is.
#[derive(Clone, Copy, PartialEq, Eq, Debug)]
pub enum Place {
    /// it is unbound
    Nowhere,
    /// it stands at an offset
    At(u32),
    /// it is an alias of another label
    AliasOf(u32),
}

/// A label.
#[derive(Clone, Copy)]
pub struct Label {
    pub place: Place,
    /// it is the label of a trap or a constant, which an island binds
    pub reserved: bool,
}

impl Label {
    /// A new label.
    pub fn unbound(reserved: bool) -> Label
        ensures { result ≡ unbound reserved }
    {
        Label {
            place: Place::Nowhere,
            reserved,
        }
    }
}

/// A use of a label that waits to be patched.
#[derive(Clone, Copy)]
pub struct Fixup {
    pub label: u32,
    /// where its bytes begin
    pub offset: u32,
    /// its kind, a number of the instruction set
    pub kind: u32,
    /// the furthest offset that it reaches
    pub deadline: u64,
}

/// A branch that may still be cut or turned round.
#[derive(Clone, Copy)]
pub struct Branch {
    pub start: u32,
    pub end: u32,
    /// the label that it leads to
    pub target: u32,
    /// the index of its fixup among the fresh ones
    pub fixup: u32,
    // Bytes and inversion are arrays of the largest size with zeros behind, not slices with a length: a branch owns small
    // arrays by value, which are copied and swapped.
    /// its bytes, with zeros after them
    pub bytes: [u8; 8],
    /// the bytes of its inversion, with zeros after them, if it is conditional
    pub inverted: Option<[u8; 8]>,
}

impl Branch {
    /// Whether a condition decides if it jumps: exactly where it has an inversion.
    pub fn is_conditional(&self) -> bool
        ensures { result ≡ is_conditional self.now }
    {
        self.inverted.is_some()
    }

    /// A branch to another label, with its bytes and its inversion swapped where it has one.
    pub fn turned(self, label: u32) -> Branch
        ensures { result ≡ turned self label }
    {
        match self.inverted {
            Some(inverted) => Branch {
                target: label,
                bytes: inverted,
                inverted: Some(self.bytes),
                ..self
            },
            None => Branch {
                target: label,
                ..self
            },
        }
    }
}

/// A trap that the next island writes.
#[derive(Clone, Copy)]
pub struct DeferredTrap {
    pub label: u32,
    pub code: u32,
}

/// A trap on record: code at the offset may trap.
#[derive(Clone, Copy)]
pub struct Trap {
    pub offset: u32,
    pub code: u32,
}

/// A constant that was registered. It has a label while a request of it is pending.
#[derive(Clone, Copy)]
pub struct Constant {
    pub size: u32,
    pub align: u32,
    pub label: Option<u32>,
}

/// A constant that an island has placed.
#[derive(Clone, Copy)]
pub struct PlacedConstant {
    pub offset: u32,
    /// which of the constants
    pub number: u32,
}

/// A stretch of code that may be filled after finishing.
#[derive(Clone, Copy)]
pub struct Region {
    pub start: u32,
    pub len: u32,
}

/// What an island does with a fixup whose turn has come, unless it breaks off.
#[derive(Clone, Copy)]
pub enum Fate {
    /// it is patched to its label's offset
    ToLabel(u32),
    /// it is patched to a veneer, which is written at the offset
    ToVeneer(u32),
}
