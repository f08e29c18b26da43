// What is written of a machine and its memory: each field that is not as in a fresh machine, as NAME=HEX. A thread's fields are
//
//     r0 .. r31, cr0 .. cr7             live registers and CR fields
//     saved_r0 .., saved_cr1 ..         the checkpoint
//     nia pr tm state doomed            state: 0 is N, 1 T, 2 S
//     tfhar tfiar texasr srr0 srr1
//     reads0 .. reads3, writes0 ..      the words of the line sets
//     used, index0, marks0, value0 ..   the log; marks where not all bytes of a place are marked that is not all zero
//
// Memory follows as mem[I]=HEX, and the thread count as count=HEX.
#![tactic(auto)]

use base::THREADS;
use machine::Machine;
use std::fmt;
use thread::{Control, Thread};
use transaction::{Entry, Transaction};

// A machine, and the memory beside it.
#[derive(Clone, Copy)]
pub struct Shown<'a> {
    pub machine: &'a Machine,
    pub memory: &'a [u64],
}

impl fmt::Display for Shown<'_> {
    fn fmt<W: fmt::Write>(&self, f: &mut fmt::Formatter<W>) -> fmt::Result {
        for (w, t) in self.machine.threads.iter().enumerate() {
            thread(f, w, t)?;
        }
        for (i, v) in self.memory.iter().enumerate() {
            if *v != 0 {
                write!(f, " mem[{i}]={v:x}")?;
            }
        }
        if self.machine.count != THREADS {
            write!(f, " count={:x}", self.machine.count)?;
        }
        Ok(())
    }
}

// A field of thread w, where it is not as in a fresh thread. It and `place` are one `write!` each: one function of both would take an Option of a
// place and a fresh value besides.
fn field<W: fmt::Write>(
    f: &mut fmt::Formatter<W>,
    w: usize,
    name: &str,
    v: u64,
    fresh: u64,
) -> fmt::Result {
    if v == fresh {
        return Ok(());
    }
    write!(f, " t{w}.{name}={v:x}")
}

// The same with the place behind the name, where it is not 0.
fn place<W: fmt::Write>(
    f: &mut fmt::Formatter<W>,
    w: usize,
    name: &str,
    i: usize,
    v: u64,
) -> fmt::Result {
    if v == 0 {
        return Ok(());
    }
    write!(f, " t{w}.{name}{i}={v:x}")
}

// General registers, or the words of a line set.
fn places<W: fmt::Write>(
    f: &mut fmt::Formatter<W>,
    w: usize,
    name: &str,
    values: &[u64],
) -> fmt::Result {
    for (i, v) in values.iter().enumerate() {
        place(f, w, name, i, *v)?;
    }
    Ok(())
}

// CR fields 1 to 7: bytes, and counted from 1. One function of these and `places` would take the first number and a closure to u64.
fn crs<W: fmt::Write>(
    f: &mut fmt::Formatter<W>,
    w: usize,
    name: &str,
    fields: &[u8; 7],
) -> fmt::Result {
    for (i, v) in fields.iter().enumerate() {
        place(f, w, name, i + 1, u64::from(*v))?;
    }
    Ok(())
}

fn control<W: fmt::Write>(f: &mut fmt::Formatter<W>, w: usize, k: &Control) -> fmt::Result {
    field(f, w, "nia", k.nia, 0)?;
    field(f, w, "pr", u64::from(k.msr.pr), 1)?;
    field(f, w, "tm", u64::from(k.msr.tm), 1)?;
    field(f, w, "state", k.msr.state as u64, 0)?;
    field(f, w, "doomed", u64::from(k.msr.doomed), 0)?;
    field(f, w, "tfhar", k.failure.tfhar, 0)?;
    field(f, w, "tfiar", k.failure.tfiar, 0)?;
    field(f, w, "texasr", k.failure.texasr, 0)?;
    field(f, w, "srr0", k.saved.srr0, 0)?;
    field(f, w, "srr1", k.saved.srr1, 0)
}

// The marks of a place, unless all bytes are marked. Marks that are 0 are shown where the place holds anything else.
fn marks<W: fmt::Write>(f: &mut fmt::Formatter<W>, w: usize, i: usize, e: &Entry) -> fmt::Result {
    if e.marks == 255 || e.marks == 0 && e.index == 0 && e.value == 0 {
        return Ok(());
    }
    write!(f, " t{w}.marks{i}={:x}", e.marks)
}

fn transaction<W: fmt::Write>(f: &mut fmt::Formatter<W>, w: usize, x: &Transaction) -> fmt::Result {
    places(f, w, "reads", &x.reads.words)?;
    places(f, w, "writes", &x.writes.words)?;
    field(f, w, "used", x.count as u64, 0)?;
    for (i, e) in x.log.iter().enumerate() {
        place(f, w, "index", i, u64::from(e.index))?;
        marks(f, w, i, e)?;
        place(f, w, "value", i, e.value)?;
    }
    Ok(())
}

fn thread<W: fmt::Write>(f: &mut fmt::Formatter<W>, w: usize, t: &Thread) -> fmt::Result {
    places(f, w, "r", &t.live.gpr)?;
    field(f, w, "cr0", u64::from(t.cr0), 0)?;
    crs(f, w, "cr", &t.live.cr)?;
    places(f, w, "saved_r", &t.checkpoint.gpr)?;
    crs(f, w, "saved_cr", &t.checkpoint.cr)?;
    control(f, w, &t.control)?;
    transaction(f, w, &t.transaction)
}
