// Reading a script.
ghost use Rattle.std.specs.Prelude.{◌≡◌, map, IfOk};
ghost use Rattle.replay.specs.Calls.{call_of};
ghost use Rattle.assemble.specs.Meant.{calls_meant};

use crate::error::{LineError, LineFault};
use crate::line::{Line, ScriptCall, parse_line};
use jump_report::text::SetName;
use replay::Call;
use std::alloc::{AllocError, Global};
use std::io;
use std::io::{BufRead, ErrorKind};

/// A line that is a call.
#[derive(Drop)]
pub struct ScriptLine {
    pub text: String,
    pub call: ScriptCall,
}

/// A script, up to the first line that can't be read.
#[derive(Drop)]
pub struct Script {
    pub set: SetName,
    pub lines: Vec<ScriptLine>,
    pub fault: Option<LineFault>,
}

// Takes a line among the calls. The first line that asks for anything settles the set.
fn take_line(
    heap: Global,
    text: String,
    set: &mut Option<SetName>,
    lines: &mut Vec<ScriptLine>,
) -> Result<(), LineError> {
    match parse_line(heap, text.as_str())? {
        None => {}
        Some(Line::Set(_)) if set.is_some() => return Err(LineError::SetTooLate),
        Some(Line::Set(chosen)) => *set = Some(chosen),
        Some(Line::Call(call)) => {
            set.get_or_insert(SetName::AArch64);
            lines.push(ScriptLine { text, call })?;
        }
    }
    Ok(())
}

impl Script {
    /// Reads a script. Only a failing input is an error; a line that can't be read ends the script.
    pub fn read<R: BufRead + Drop>(heap: Global, input: R) -> io::Result<Script> {
        let mut set = None;
        let mut lines = Vec::new(heap);
        let mut fault = None;
        for (number, line) in (1..).zip(input.lines(heap)) {
            let taken = match line {
                Ok(text) => take_line(heap, text, &mut set, &mut lines),
                Err(e) if e.kind() == ErrorKind::InvalidData => Err(LineError::NotText),
                Err(e) => return Err(e),
            };
            if let Err(error) = taken {
                fault = Some(LineFault { number, error });
                break;
            }
        }
        Ok(Script {
            set: set.unwrap_or(SetName::AArch64),
            lines,
            fault,
        })
    }

    /// The calls, with their bytes lent.
    pub fn calls(&self, heap: Global) -> Result<Vec<Call<'_>>, AllocError>
        ensures { IfOk result (λ v. map call_of v.items ≡ calls_meant self.now) }
    {
        self.lines
            .iter()
            .map(|line| line.call.as_call())
            .collect(heap)
    }
}
