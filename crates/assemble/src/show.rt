// Answers and tables as text.
ghost use Rattle.std.specs.Prelude.{◌<◌, length};
ghost use Rattle.std.specs.Iterator.{IsFinite};
ghost use Rattle.buffer.specs.View.{view};

use buffer::buffer::MachBuffer;
use isa::InstructionSet;
use jump_report::text::Hex;
use model::Refusal;
use model::rows::{PlacedConstant, Region, Trap};
use replay::{Answer, Call, Counts, Reply};
use std::fmt;

/// What a call answered.
#[derive(Clone, Copy)]
pub struct Answered<'a> {
    pub call: Call<'a>,
    pub answer: Answer,
}

impl fmt::Display for Answered<'_> {
    fn fmt<W: fmt::Write>(&self, f: &mut fmt::Formatter<W>) -> fmt::Result {
        match self.answer {
            Ok(Reply::Granted) => f.write_str("granted"),
            Ok(Reply::Number(number)) => match self.call {
                Call::CurOffset | Call::ResolveLabelOffset { .. } => write!(f, "{number}"),
                Call::StartPatchable => f.write_str("granted"),
                _ => write!(f, "granted {number}"),
            },
            Ok(Reply::Closed(Region { start, len })) => write!(f, "granted {start} {len}"),
            Ok(Reply::YesNo(yes)) => write!(f, "{}", u8::from(yes)),
            Err(refusal) => write!(f, "refused {}", Numbered(refusal)),
        }
    }
}

// A refusal by its number, with the label where it has one: as scripts print it, which `model` doesn't know.
#[derive(Clone, Copy)]
struct Numbered(Refusal);

impl fmt::Display for Numbered {
    fn fmt<W: fmt::Write>(&self, f: &mut fmt::Formatter<W>) -> fmt::Result {
        let number = u32::from(self.0);
        match self.0 {
            Refusal::UnboundLabel(label) => write!(f, "{number} {label}"),
            _ => write!(f, "{number}"),
        }
    }
}

/// Bytes, or `-` for none.
#[derive(Clone, Copy)]
pub struct Code<'a>(pub &'a [u8]);

impl fmt::Display for Code<'_> {
    fn fmt<W: fmt::Write>(&self, f: &mut fmt::Formatter<W>) -> fmt::Result {
        if self.0.is_empty() {
            return f.write_str("-");
        }
        write!(f, "{}", Hex(self.0))
    }
}

// Items with a space between each two, or `-` for none.
fn write_joined<W: fmt::Write, T: fmt::Display + Drop, I: Iterator<Item = T> + Drop>(
    f: &mut fmt::Formatter<W>,
    mut items: I,
) -> fmt::Result
    requires { I.can_next items × IsFinite (I.remaining items) }
{
    let Some(first) = items.next() else {
        return f.write_str("-");
    };
    write!(f, "{first}")?;
    for item in items {
        write!(f, " {item}")?;
    }
    Ok(())
}

/// Where the labels of a buffer are, or `-` where it has none.
#[derive(Drop)]
pub struct Labels<'a, S>(pub &'a MachBuffer<S>);

impl<S: InstructionSet + Drop> fmt::Display for Labels<'_, S> {
    fn fmt<W: fmt::Write>(&self, f: &mut fmt::Formatter<W>) -> fmt::Result {
        let buffer = self.0;
        write_joined(
            f,
            (0..buffer.labels_len()).map(
                |label|
                    requires { label < length (view buffer.now).labels }
                { buffer.resolve_label_offset(label).unwrap() },
            ),
        )
    }
}

/// A row of a table as an offset and a number.
#[derive(Clone, Copy)]
pub struct Row {
    offset: u32,
    number: u32,
}

impl From<Trap> for Row {
    fn from(trap: Trap) -> Row {
        Row {
            offset: trap.offset,
            number: trap.code,
        }
    }
}

impl From<PlacedConstant> for Row {
    fn from(constant: PlacedConstant) -> Row {
        Row {
            offset: constant.offset,
            number: constant.number,
        }
    }
}

impl fmt::Display for Row {
    fn fmt<W: fmt::Write>(&self, f: &mut fmt::Formatter<W>) -> fmt::Result {
        let Row { offset, number } = *self;
        write!(f, "{offset}:{number}")
    }
}

/// The rows of a table, or `-` for none.
#[derive(Drop)]
pub struct Rows<'a, T>(pub &'a [T]);

impl<T: Copy> fmt::Display for Rows<'_, T>
where
    Row: From<T>,
{
    fn fmt<W: fmt::Write>(&self, f: &mut fmt::Formatter<W>) -> fmt::Result {
        write_joined(f, self.0.iter().map(|row| Row::from(*row)))
    }
}

/// The counts of a list of calls, and how many uses wait.
#[derive(Clone, Copy)]
pub struct Balance {
    pub counts: Counts,
    pub waiting: u32,
}

impl fmt::Display for Balance {
    fn fmt<W: fmt::Write>(&self, f: &mut fmt::Formatter<W>) -> fmt::Result {
        let Counts {
            accepted,
            made,
            patched,
            removed,
        } = self.counts;
        let waiting = self.waiting;
        write!(
            f,
            "accepted {accepted} made {made} patched {patched} removed {removed} waiting {waiting}"
        )
    }
}
