// What a host calls. No contract asks anything of the caller but that a pointer and its length are true.
ghost use Rattle.std.specs.Prelude.{◌≡◌, []};
ghost use Rattle.machine.specs.Machine.{fresh};
ghost use Rattle.crossing.specs.Crossing.{raw_machine};
ghost use Rattle.host_rules.specs.Host.{version, number, outcome, step, run, read, write_answer, write};
ghost use Rattle.host.specs.Inner.{lone};

use crate::VERSION;
use base::answer;
use crossing::RawMachine;
use event::Fields;
use host_rules::{RawDone, RawEnded, RawRecord};
use machine::Machine;
use step_rules::Done;
use tape::Read;

// The version of the rules.
pub fn naszeptan_version() -> u32
    ensures { result ≡ version }
{
    VERSION
}

pub fn naszeptan_fresh() -> RawMachine
    ensures { result ≡ raw_machine fresh }
{
    RawMachine::from(&machine::fresh())
}

// The tests 1 and 2 of any bits.
pub fn naszeptan_valid(m: RawMachine, len: usize) -> u8
    ensures { result ≡ number m len }
{
    answer::judgement(host_parts::judged(&m, len))
}

// Nothing was done, and no one failed. The answer is C's number.
fn untouched(answer: u8, m: RawMachine) -> RawDone
    ensures { result ≡ (outcome answer m []).done }
{
    RawDone {
        answer,
        failed: 0,
        machine: m,
    }
}

// An event is run as a tape of one record: the archive then has one caller of the step, the run (docs/PERFORMANCE.md). The one
// answer has its place here: no heap.
fn lone(m: Machine, mem: &mut [u64], e: Fields) -> Done
    ensures value { result ≡ (lone m mem.old e).done }
    ensures mem_after { mem.new ≡ (lone m mem.old e).memory }
{
    let record = tape_writer::bytes(e);
    let mut answers = [0; 1];
    let ended = run::run(m, mem, &record, &mut answers);
    let answer = if ended.answer == answer::DONE {
        answers[0]
    } else {
        ended.answer
    };
    Done {
        answer,
        machine: ended.machine,
    }
}

// One event. Fields that are no event are refused after 1 and 2.
#[tactic(auto, using(crate::proofs::Laws::run_of_one), unfolding(host_rules::specs::Host::step))]
pub fn naszeptan_step(m: RawMachine, mem: &mut [u64], e: Fields) -> RawDone
    ensures value { result ≡ (step m mem.old e).done }
    ensures mem_after { mem.new ≡ (step m mem.old e).memory }
{
    // Fields have no fixed bytes: those count as 0.
    if let Read::Refused(refused) = tape::reader::of_kind(e, true) {
        let answer = match host_parts::judged(&m, mem.len()) {
            Ok(()) => refused,
            Err(refusal) => refusal.number(),
        };
        return untouched(answer, m);
    }
    let Ok(before) = Machine::try_from(&m) else {
        return untouched(naszeptan_valid(m, mem.len()), m);
    };
    let done = lone(before, mem, e);
    RawDone {
        answer: done.answer,
        failed: host_parts::failed::failed(e, &before, &done),
        machine: RawMachine::from(&done.machine),
    }
}

// A tape: the whole of it read first, then record by record. The answers of the records have no place here.
#[tactic(auto, unfolding(host_rules::specs::Host::run))]
pub fn naszeptan_run(m: RawMachine, mem: &mut [u64], tape: &[u8]) -> RawEnded
    ensures value { result ≡ (run m mem.old tape.now).ended }
    ensures mem_after { mem.new ≡ (run m mem.old tape.now).memory }
{
    let Ok(machine) = Machine::try_from(&m) else {
        return RawEnded {
            answer: naszeptan_valid(m, mem.len()),
            count: 0,
            index: 0,
            machine: m,
        };
    };
    let ended = run::run(machine, mem, tape, &mut []);
    RawEnded {
        answer: ended.answer,
        count: ended.count,
        index: ended.index,
        machine: RawMachine::from(&ended.machine),
    }
}

// One record as fields.
#[tactic(auto, unfolding(host_rules::specs::Host::read))]
pub fn naszeptan_read(bytes: &[u8]) -> RawRecord
    ensures { result ≡ read bytes.now }
{
    RawRecord::from(tape::reader::read(bytes))
}

// Fields as one record.
#[tactic(auto, unfolding(host_rules::specs::Host::write_answer, host_rules::specs::Host::write))]
pub fn naszeptan_write(e: Fields, buf: &mut [u8]) -> u8
    ensures value { result ≡ write_answer e buf.old }
    ensures buf_after { buf.new ≡ write e buf.old }
{
    // Fields have no fixed bytes: those count as 0.
    match tape::reader::of_kind(e, true) {
        Read::Record { thread, event } => tape_writer::write(thread, event, buf),
        Read::Refused(answer) => answer,
    }
}
