// Reading a line.
ghost use Rattle.std.specs.Prelude.{◌≡◌, ◌==◌, ◌||◌, length, slice_index, is_none, IfOk, true, Ok, None};
ghost use Rattle.replay.specs.Calls.{call_of};
ghost use Rattle.assemble.specs.Meant.{call_meant};

use crate::error::LineError;
use crate::words::Words;
use jump_report::text::{SetName, is_comment};
use replay::Call;
use std::alloc::Global;

/// A call as a script has it, with bytes of its own.
// The calls with bytes once more, owned: a call generic in its bytes would be matched over all its cases to lend them.
#[derive(Drop)]
pub enum ScriptCall {
    /// a call that takes no bytes
    Plain(Call<'static>),
    PutData {
        trap: u32,
        bytes: Vec<u8>,
    },
    UseLabelAtOffset {
        label: u32,
        kind: u32,
        bytes: Vec<u8>,
    },
    AddUncondBranch {
        label: u32,
        kind: u32,
        bytes: Vec<u8>,
    },
    AddCondBranch {
        label: u32,
        kind: u32,
        bytes: Vec<u8>,
        inverted: Vec<u8>,
    },
}

impl ScriptCall {
    /// The call, with its bytes lent.
    pub fn as_call(&self) -> Call<'_>
        ensures { call_of result ≡ call_meant self.now }
    {
        match self {
            ScriptCall::Plain(call) => *call,
            ScriptCall::PutData { trap, bytes } => Call::PutData { trap: *trap, bytes },
            ScriptCall::UseLabelAtOffset { label, kind, bytes } => Call::UseLabelAtOffset {
                label: *label,
                kind: *kind,
                bytes,
            },
            ScriptCall::AddUncondBranch { label, kind, bytes } => Call::AddUncondBranch {
                label: *label,
                kind: *kind,
                bytes,
            },
            ScriptCall::AddCondBranch {
                label,
                kind,
                bytes,
                inverted,
            } => Call::AddCondBranch {
                label: *label,
                kind: *kind,
                bytes,
                inverted,
            },
        }
    }
}

/// What a line says.
#[derive(Drop)]
pub enum Line {
    Set(SetName),
    Call(ScriptCall),
}

// Calls of the buffer that are still to come, and questions about finished code.
const LATER: [&str; 6] = [
    "emit_island",
    "finish",
    "patch_region",
    "trap_at",
    "constant_at",
    "label_at",
];

fn unknown(name: &str) -> LineError {
    LATER
        .into_iter()
        .find(|later| *later == name)
        .map_or(LineError::NoSuchCall, LineError::NotBuiltYet)
}

fn parse_question(name: &str, words: &mut Words) -> Result<Call<'static>, LineError> {
    Ok(match name {
        "cur_offset" => Call::CurOffset,
        "resolve_label_offset" => Call::ResolveLabelOffset {
            label: words.number("L")?,
        },
        "island_needed" => Call::IslandNeeded {
            distance: words.number("DISTANCE")?,
        },
        _ => return Err(unknown(name)),
    })
}

// The calls that take no bytes.
fn parse_plain(name: &str, words: &mut Words) -> Result<Call<'static>, LineError> {
    Ok(match name {
        "get_label" => Call::GetLabel,
        "bind_label" => Call::BindLabel {
            label: words.number("L")?,
            skip: words.flag("SKIP")?,
        },
        "align_to" => Call::AlignTo {
            n: words.number("N")?,
        },
        "defer_trap" => Call::DeferTrap {
            trap: words.number("CODE")?,
        },
        "register_constant" => Call::RegisterConstant {
            size: words.number("SIZE")?,
            align: words.number("ALIGN")?,
        },
        "get_label_for_constant" => Call::GetLabelForConstant {
            number: words.number("N")?,
        },
        "optimize_branches" => Call::OptimizeBranches {
            skip: words.flag("SKIP")?,
        },
        "start_patchable" => Call::StartPatchable,
        "end_patchable" => Call::EndPatchable,
        _ => return parse_question(name, words),
    })
}

// A label, a kind and bytes: what each use of a label has, which a branch is too.
fn parse_use(words: &mut Words) -> Result<(u32, u32, Vec<u8>), LineError> {
    Ok((
        words.number("L")?,
        words.number("KIND")?,
        words.bytes("BYTES")?,
    ))
}

fn parse_call(name: &str, words: &mut Words) -> Result<ScriptCall, LineError> {
    Ok(match name {
        "put_data" => ScriptCall::PutData {
            trap: words.number("CODE")?,
            bytes: words.bytes("BYTES")?,
        },
        "use_label_at_offset" => {
            let (label, kind, bytes) = parse_use(words)?;
            ScriptCall::UseLabelAtOffset { label, kind, bytes }
        }
        "add_uncond_branch" => {
            let (label, kind, bytes) = parse_use(words)?;
            ScriptCall::AddUncondBranch { label, kind, bytes }
        }
        "add_cond_branch" => {
            let (label, kind, bytes) = parse_use(words)?;
            ScriptCall::AddCondBranch {
                label,
                kind,
                bytes,
                inverted: words.bytes("INVERTED")?,
            }
        }
        _ => ScriptCall::Plain(parse_plain(name, words)?),
    })
}

/// Reads a line. One that is empty or begins with `#`, of code 35, asks nothing.
pub fn parse_line(heap: Global, text: &str) -> Result<Option<Line>, LineError>
    ensures passed_over { (length text.now == 0 || slice_index text.now 0 == 35) ≡ true → result ≡ Ok None }
    ensures asks { IfOk result (λ line. is_none line ≡ (length text.now == 0 || slice_index text.now 0 == 35)) }
{
    if is_comment(text) {
        return Ok(None);
    }
    let mut words = Words::new(heap, text);
    let line = match words.word("the call")? {
        "set" => Line::Set(words.word("SET")?.parse()?),
        name => Line::Call(parse_call(name, &mut words)?),
    };
    words.end()?;
    Ok(Some(line))
}
