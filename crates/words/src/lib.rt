// Why the run stopped, in one line on standard error (rule P7). An event is written as the tapes' texts and Rust hosts write it.
#![tactic(auto)]

use base::answer::Refusal;
use event::Event;
use run_rules::Ended;
use std::{fmt, io};
use tape::{FIRST_BYTE, RECORD_SIZE, Read};
use text_lines::LONGEST;

// The refusals, in the order of their numbers.
const REFUSALS: [Refusal; 13] = [
    Refusal::Size,
    Refusal::NoMachine,
    Refusal::NoThread,
    Refusal::Operand,
    Refusal::HostInT,
    Refusal::TapeLength,
    Refusal::BadFirstByte,
    Refusal::NoKind,
    Refusal::Field,
    Refusal::ShortBuffer,
    Refusal::FacilityOff,
    Refusal::Privileged,
    Refusal::BadThing,
];

// A refusal by its number and its words.
#[derive(Clone, Copy)]
struct Why(Refusal);

impl Why {
    // The refusal of a number: 0, 20 and 21 are none. By number, as `Ended` has it.
    fn of(number: u8) -> Option<Why> {
        REFUSALS
            .into_iter()
            .find(|refusal| refusal.number() == number)
            .map(Why)
    }

    // As README's table of numbers has them.
    fn words(self) -> &'static str {
        match self.0 {
            Refusal::Size => "memory length or thread count",
            Refusal::NoMachine => "the machine is not valid",
            Refusal::NoThread => "no such thread",
            Refusal::Operand => "an operand out of range",
            Refusal::HostInT => "PR and TM set by the host in Transactional state",
            Refusal::TapeLength => "tape length",
            Refusal::BadFirstByte => "a record's first byte",
            Refusal::NoKind => "a record's kind",
            Refusal::Field => "an unused field or a fixed byte that is not 0, or flags too big",
            Refusal::ShortBuffer => "the writer's or the converter's buffer is too short",
            Refusal::FacilityOff => "the facility is off",
            Refusal::Privileged => "a privileged instruction in problem state",
            Refusal::BadThing => "TM Bad Thing",
        }
    }
}

impl fmt::Display for Why {
    fn fmt<W: fmt::Write>(&self, f: &mut fmt::Formatter<W>) -> fmt::Result {
        write!(f, "{}, {}", self.0.number(), self.words())
    }
}

// A register, or the value 0 where none is named (rule E0.8).
#[derive(Clone, Copy)]
struct OrZero(u8);

impl fmt::Display for OrZero {
    fn fmt<W: fmt::Write>(&self, f: &mut fmt::Formatter<W>) -> fmt::Result {
        match self.0 {
            0 => write!(f, "0"),
            r => write!(f, "r{r}"),
        }
    }
}

// Each kind by its name and its operands.
#[derive(Clone, Copy)]
struct Shown(Event);

impl fmt::Display for Shown {
    fn fmt<W: fmt::Write>(&self, f: &mut fmt::Formatter<W>) -> fmt::Result {
        match self.0 {
            Event::Tbegin { r } => write!(f, "tbegin. R={}", u8::from(r)),
            Event::Tend { a } => write!(f, "tend. A={}", u8::from(a)),
            Event::Tabort { ra } => write!(f, "tabort. {}", OrZero(ra)),
            Event::Tabortwc { to, ra, rb } => write!(f, "tabortwc. {to}, r{ra}, r{rb}"),
            Event::Tabortdc { to, ra, rb } => write!(f, "tabortdc. {to}, r{ra}, r{rb}"),
            Event::Tsr { l } => write!(f, "tsr. L={}", u8::from(l)),
            Event::Tcheck { bf } => write!(f, "tcheck cr{bf}"),
            Event::Treclaim { ra } => write!(f, "treclaim. {}", OrZero(ra)),
            Event::Trechkpt => write!(f, "trechkpt."),
            Event::Mtspr { spr, ra } => write!(f, "mtspr {spr}, r{ra}"),
            Event::Mfspr { rt, spr } => write!(f, "mfspr r{rt}, {spr}"),
            Event::Ld { rt, index } => write!(f, "ld r{rt}, {index}"),
            Event::Std { ra, index } => write!(f, "std r{ra}, {index}"),
            Event::Lbz { rt, address } => write!(f, "lbz r{rt}, address {address}"),
            Event::Lhz { rt, address } => write!(f, "lhz r{rt}, address {address}"),
            Event::Lwz { rt, address } => write!(f, "lwz r{rt}, address {address}"),
            Event::Stb { ra, address } => write!(f, "stb r{ra}, address {address}"),
            Event::Sth { ra, address } => write!(f, "sth r{ra}, address {address}"),
            Event::Stw { ra, address } => write!(f, "stw r{ra}, address {address}"),
            // An immediate is signed.
            Event::Addi { rt, ra, si } => {
                write!(f, "addi r{rt}, {}, {}", OrZero(ra), si.cast_signed())
            }
            Event::Disallowed => write!(f, "disallowed"),
            Event::Interrupt => write!(f, "interrupt"),
            Event::Host { pr, tm } => { write!(f, "host PR={}, TM={}", u8::from(pr), u8::from(tm)) }
            Event::Rfid => write!(f, "rfid"),
            Event::Mtmsrd { t, s, tm, pr } => write!(
                f,
                "mtmsrd TS={}{}, TM={}, PR={}",
                u8::from(t),
                u8::from(s),
                u8::from(tm),
                u8::from(pr)
            ),
            Event::Tlbie { page } => write!(f, "tlbie page {page}"),
        }
    }
}

// The record that stopped the run, or the bad one, by what it was refused for: a thread is named where there is none such, and of a record that
// is no event what stands in its first two bytes, and what may stand there.
#[derive(Clone, Copy)]
struct Record<'a> {
    bytes: &'a [u8],
    refusal: Refusal,
}

impl fmt::Display for Record<'_> {
    fn fmt<W: fmt::Write>(&self, f: &mut fmt::Formatter<W>) -> fmt::Result {
        if let Read::Record { thread, event } = tape::reader::read(self.bytes) {
            if self.refusal == Refusal::NoThread {
                write!(f, "thread {thread}, ")?;
            }
            return write!(f, "{}", Shown(event));
        }
        let [first, kind, ..] = self.bytes else {
            return Ok(());
        };
        match self.refusal {
            Refusal::BadFirstByte => write!(f, "0x{first:02x}, not 0x{FIRST_BYTE:02x}"),
            Refusal::NoKind => write!(f, "kind {kind}, not 1 to 26"),
            _ => write!(f, "kind {kind}"),
        }
    }
}

// Nothing where the tape ended, else one line. Input that nothing ended was too long to be run (rule P2).
pub fn tell<E: Eprint>(to: &E, input: &[u8], ended: Option<&Ended>) -> io::Result<()> {
    let Some(ended) = ended else {
        return eprintln!(to; "naszeptan: tape: long, more than {LONGEST} bytes");
    };
    let Some(why) = Why::of(ended.answer) else {
        return Ok(());
    };
    let refusal = why.0;
    if refusal == Refusal::TapeLength {
        let n = input.len();
        return eprintln!(to; "naszeptan: tape: {why} ({n} bytes, not a multiple of 16)");
    }
    let k = ended.index;
    // It stands on the tape: the test is there since no contract says so.
    match input.chunks_exact(RECORD_SIZE).nth(k) {
        Some(bytes) => {
            eprintln!(to;
                "naszeptan: record {k}: {why} ({})",
                Record { bytes, refusal }
            )
        }
        None => Ok(()),
    }
}
