// Reports as text.
use crate::report::{JumpReport, VeneerReport};
use crate::text::Hex;
use isa::{Condition, Jump, Role};
use std::fmt;

// Shows what is of `isa`: only a crate itself may write an impl of `Display` for its types.
#[derive(Clone, Copy)]
struct Shown<T>(T);

// The test has its number in the set.
impl fmt::Display for Shown<Condition> {
    fn fmt<W: fmt::Write>(&self, f: &mut fmt::Formatter<W>) -> fmt::Result {
        match self.0 {
            Condition::Flags { test } => write!(f, "flags {test}"),
            Condition::Zero { test, register } => write!(
                f,
                "nonzero {test} of register {register}"
            ),
            Condition::Bit { test, register } => write!(f, "bit {test} of register {register}"),
            Condition::Compare {
                test,
                first,
                second,
            } => { write!(f, "compare {test} of registers {first} and {second}") }
        }
    }
}

impl fmt::Display for Shown<Role> {
    fn fmt<W: fmt::Write>(&self, f: &mut fmt::Formatter<W>) -> fmt::Result {
        match self.0 {
            Role::Unconditional => f.write_str("always"),
            Role::Conditional { condition, sense } => write!(
                f,
                "when {} is {sense}",
                Shown(condition)
            ),
        }
    }
}

impl fmt::Display for Shown<Jump> {
    fn fmt<W: fmt::Write>(&self, f: &mut fmt::Formatter<W>) -> fmt::Result {
        match self.0 {
            Jump::Branch {
                role,
                size,
                displacement,
            } => {
                write!(
                    f,
                    "a branch of {size} bytes by {displacement}, {}",
                    Shown(role)
                )
            }
            Jump::Veneer { displacement } => write!(f, "a veneer by {displacement}"),
        }
    }
}

impl fmt::Display for VeneerReport {
    fn fmt<W: fmt::Write>(&self, f: &mut fmt::Formatter<W>) -> fmt::Result {
        let VeneerReport { code, place, own } = self;
        write!(
            f,
            "veneer {}, with its own use of kind {own} at {place}",
            Hex(code)
        )
    }
}

// One line for each part, indented.
impl fmt::Display for JumpReport {
    fn fmt<W: fmt::Write>(&self, f: &mut fmt::Formatter<W>) -> fmt::Result {
        let reads = self.reads;
        writeln!(f, "  patched {}", Hex(&self.patched))?;
        writeln!(f, "  reads {reads}")?;
        match self.role {
            Some(role) => writeln!(f, "  role {}", Shown(role))?,
            None => writeln!(f, "  role none")?,
        }
        if let Some(inverted) = &self.inverted {
            writeln!(f, "  inverted {}", Hex(inverted))?;
        }
        match self.found {
            Some(jump) => writeln!(f, "  finds {}", Shown(jump))?,
            None => writeln!(f, "  finds no jump")?,
        }
        match &self.veneer {
            Some(veneer) => write!(f, "  {veneer}"),
            None => f.write_str("  no veneer"),
        }
    }
}
