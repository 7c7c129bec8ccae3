//! Holds the sets to a table of encodings that an assembler made.
//!
//! A line of the standard input is `SET KIND UNPATCHED DISPLACEMENT PATCHED INSTRUCTION`: the bytes of an instruction
//! with displacement 0 and with the one that stands between them. The program patches the former, compares with the
//! latter, and reads the displacement back from them. It prints each line for which that fails, and then how many
//! encodings are equal.
#![tactic(auto)]

mod tally;
mod vector;

use crate::tally::Tally;
use crate::vector::{Vector, judge};
use std::alloc::Global;
use std::io;
use std::io::{BufRead, BufReader};

// Counts an encoding, and prints it if it is not equal.
fn judge_line(rt: &impl Print, heap: Global, tally: &mut Tally, line: &str) -> io::Result<()> {
    let vector = match Vector::parse(heap, line) {
        Ok(vector) => vector,
        Err(fault) => {
            tally.count_unread();
            return println!(rt; "{fault}: {line}");
        }
    };
    let judged = judge(heap, &vector);
    tally.count(&vector, judged.is_ok())?;
    if let Err(fault) = judged {
        println!(rt; "{fault}: {line}")?;
    }
    Ok(())
}

fn main(rt: HostRuntime) -> io::Result<()> {
    let heap = rt.alloc();
    let mut tally = Tally::new(heap);
    for line in BufReader::new(heap, rt.stdin())?.lines(heap) {
        let line = line?;
        judge_line(&rt, heap, &mut tally, line.as_str())?;
    }
    rt.println(&tally)
}
