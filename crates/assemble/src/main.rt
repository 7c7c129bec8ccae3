//! Makes the calls of a script on a new buffer, and prints what they answered and the tables that they left.
//!
//! The standard input has one call a line, and `docs/SCRIPT.md` has the lines and what is printed for them. A line that
//! can't be read as a call ends the script, and the program with status 1; the calls before it are made, and what they
//! answered is printed.
#![tactic(auto)]

ghost use Rattle.std.specs.Prelude.{IfOk};
ghost use Rattle.replay.specs.Replays.{Replayed};
ghost use Rattle.assemble.specs.Meant.{calls_meant};

mod error;
mod line;
mod script;
mod show;
mod words;

use crate::script::Script;
use crate::show::{Answered, Balance, Code, Labels, Rows};
use aarch64::AArch64;
use anyhow::anyhow;
use isa::InstructionSet;
use jump_report::text::SetName;
use replay::{Answer, Replay, replay_calls};
use riscv::RiscV;
use std::alloc::{AllocError, Global};
use std::io;
use std::io::BufReader;

fn print_answers(rt: &impl Print, script: &Script, answers: &[Answer]) -> io::Result<()> {
    // Answers stand beside the lines, not in them: who makes calls knows no lines.
    for (line, answer) in script.lines.iter().zip(answers.iter()) {
        let text = line.text.as_str();
        let answered = Answered {
            call: line.call.as_call(),
            answer: *answer,
        };
        println!(rt; "{text} => {answered}")?;
    }
    if let Some(fault) = &script.fault {
        println!(rt; "{fault}")?;
    }
    Ok(())
}

fn print_tables<S: InstructionSet + Drop>(rt: &impl Print, replay: &Replay<S>) -> io::Result<()> {
    let buffer = &replay.session.buffer;
    println!(rt; "code {}", Code(buffer.code()))?;
    println!(rt; "labels {}", Labels(buffer))?;
    println!(rt; "traps {}", Rows(buffer.traps()))?;
    println!(rt; "constants {}", Rows(buffer.placed_constants()))?;
    let balance = Balance {
        counts: replay.counts,
        waiting: buffer.waiting_len(),
    };
    println!(rt; "counts {balance}")
}

fn print_replay<S: InstructionSet + Drop>(
    rt: &impl Print,
    script: &Script,
    replay: &Replay<S>,
) -> io::Result<()> {
    print_answers(rt, script, &replay.answers)?;
    print_tables(rt, replay)
}

// Makes the calls of a script on a new buffer.
fn replay_script<S: InstructionSet + Drop>(
    heap: Global,
    set: S,
    script: &Script,
) -> Result<Replay<S>, AllocError>
    ensures { IfOk result (λ p. Replayed (S.meaning set) (calls_meant script.now) p) }
{
    let calls = script.calls(heap)?;
    replay_calls(heap, set, calls.as_slice())
}

fn run<S: InstructionSet + Drop>(rt: &HostRuntime, set: S, script: &Script) -> io::Result<()> {
    let replay = replay_script(rt.alloc(), set, script)?;
    let printed = print_replay(rt, script, &replay);
    let Replay {
        session,
        answers: _,
        counts: _,
    } = replay;
    session.let_go();
    printed
}

fn assemble(rt: &HostRuntime) -> anyhow::Result<()> {
    let script = Script::read(rt.alloc(), BufReader::new(rt.alloc(), rt.stdin())?)?;
    // Each arm calls at a type of its own, so no plainer choice of one is to be had.
    match script.set {
        SetName::AArch64 => run(rt, AArch64, &script)?,
        SetName::RiscV => run(rt, RiscV, &script)?,
    }
    if script.fault.is_some() {
        return Err(anyhow!("a line of the script can't be read as a call"));
    }
    Ok(())
}

fn main(rt: HostRuntime) -> anyhow::Result<()> {
    assemble(&rt)
}
