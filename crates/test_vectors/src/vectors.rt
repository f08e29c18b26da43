// Vectors: lines of text, each with a rule and the events that show it, run on the proved machine.
//
// A line is `RULE: ITEM ITEM ..`. The rule is any text without a colon. An item is 16 bytes in 32 hexadecimal digits. One that begins
// with e3 is a record of the tape: it is read, and its thread steps its event by the public entry. Any other item is a poke, which
// sets up the machine before or between events (crate `test_poke` has the list). Each line starts on the fresh machine with memory all
// zero, of which 64 doublewords are lent to the step.
//
// For each line a line is written: the rule, a colon, the answers of its records in decimal, and then what is not as in the fresh
// machine, as NAME=HEX in a fixed order (crate `test_show`). A wrong line so names its rule and shows all that the machine holds.
use std::io;
use std::io::Write;
use tape::Read;
use test_poke::World;
use test_show::Shown;

// The doublewords that can be lent: a line more than a memory may have. An array, lent to the step as a host lends it.
pub const MEMORY: usize = 4112;

// The digits of an item.
const ITEM: usize = 32;

// A record read and its event stepped, on the part of memory that is lent. No event is done where more is lent than there is.
// By `write!` and `Display`, here and in `items`: a line is the vectors' own form, and no value's.
fn record<W: Write>(out: &mut W, w: &mut World, mem: &mut [u64], b: &[u8; 16]) -> io::Result<()> {
    let found = tape::reader::read(b);
    let Read::Record { thread, event } = found else {
        return write!(out, " {}", tape::number(found));
    };
    if mem.len() < w.lent {
        return Ok(());
    }
    let done = step::step(w.machine, &mut mem[..w.lent], thread, event);
    w.machine = done.machine;
    write!(out, " {}", done.answer)
}

fn item<W: Write>(out: &mut W, w: &mut World, mem: &mut [u64], s: &[u8]) -> io::Result<()> {
    let b = test_poke::text::bytes(s);
    if b[0] == tape::FIRST_BYTE {
        return record(out, w, mem, &b);
    }
    test_poke::poke(w, mem, &b);
    Ok(())
}

// The items, each with a space behind it but the last.
fn items<W: Write>(out: &mut W, s: &[u8]) -> io::Result<()> {
    let mut mem = [0u64; MEMORY];
    let mut w = World {
        machine: machine::fresh(),
        lent: 64,
    };
    for chunk in s.chunks(ITEM + 1) {
        if let Some(digits) = chunk.get(..ITEM) {
            item(out, &mut w, &mut mem, digits)?;
        }
    }
    let shown = Shown {
        machine: &w.machine,
        memory: &mem,
    };
    write!(out, "{shown}")
}

fn line<W: Write>(out: &mut W, s: &[u8]) -> io::Result<()> {
    let colon = s.iter().position(|byte| *byte == b':').unwrap_or(s.len());
    let (rule, behind) = s.split_at(colon);
    out.write_all(rule)?;
    out.write_all(b":")?;
    items(out, behind.get(2..).unwrap_or(b""))?;
    out.write_all(b"\n")
}

// No closure: in a generic function the loop over it gets no proof.
fn ends_line(byte: &u8) -> bool {
    *byte == b'\n'
}

// Every line of a text.
pub fn lines<W: Write>(out: &mut W, text: &[u8]) -> io::Result<()> {
    for s in text.split_inclusive(ends_line) {
        line(out, s.strip_suffix(b"\n").unwrap_or(s))?;
    }
    Ok(())
}
