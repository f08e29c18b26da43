// Runs the vectors of standard input. `vectors` says what a line holds. In order: K1 to K13; the slips, against S1 to S5 of docs/RULES.md; kinds 1
// to 11 in each state, each refusal, and records; kinds 12 to 17 in each state, overflow, conflicts, the order of refusals, and machines that are
// not valid; rfid and mtmsrd from each state to each that can be asked for, what an interrupt saves, SRR0 and SRR1; tlbie from each state, each
// page, the other threads and its own; accesses of one, two and four bytes at each byte place and in each state, merged in the log and committed.
#![tactic(auto)]

mod vectors;

use std::io;
use std::io::{BufWriter, Read, Write};

fn main(rt: HostRuntime) -> io::Result<()> {
    // To the heap: a check of an array that holds them all, 524,288 bytes, ends without stack.
    let mut text = Vec::new(rt.alloc());
    rt.stdin().read_to_end(&mut text)?;
    let mut out = BufWriter::new(rt.alloc(), io::writer(&rt))?;
    vectors::lines(&mut out, text.as_slice())?;
    out.flush()
}
