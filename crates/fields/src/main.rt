//! Sets jumps, one to a line of the standard input.
//!
//! A line is `SET KIND BYTES DISPLACEMENT`: `aarch64` or `riscv`, the number of a kind of use, the bytes of a use as
//! hexadecimal pairs with the lowest address first, and the displacement to write into them. For each the program
//! prints the line and, indented, what the set makes of it, or one line that says why it is not done. An empty line
//! and one that begins with `#` are passed over.
#![tactic(auto)]

mod line;

use crate::line::{LineError, parse_line, report_on};
use jump_report::JumpReport;
use jump_report::text::is_comment;
use std::alloc::Global;
use std::io;
use std::io::{BufRead, BufReader};

// What the set that a line names makes of it.
fn answer(heap: Global, line: &str) -> Result<JumpReport, LineError> {
    let request = parse_line(heap, line)?;
    report_on(heap, &request)
}

fn print_answer(rt: &impl Print, heap: Global, line: &str) -> io::Result<()> {
    println!(rt; "{line}")?;
    match answer(heap, line) {
        Ok(report) => println!(rt; "{report}"),
        Err(error) => println!(rt; "  not done: {error}"),
    }
}

fn main(rt: HostRuntime) -> io::Result<()> {
    let heap = rt.alloc();
    for line in BufReader::new(heap, rt.stdin())?.lines(heap) {
        let line = line?;
        if !is_comment(line.as_str()) {
            print_answer(&rt, heap, line.as_str())?;
        }
    }
    Ok(())
}
