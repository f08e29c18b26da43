// A tape run on a machine: the whole tape read first, then record by record (rules R1 to R5).
#![tactic(auto)]

ghost use Rattle.std.specs.Prelude.{◌≡◌, true, ◌/◌, length};
ghost use Rattle.std.proofs.lemmas.List.Edits.{sets};
ghost use Rattle.machine.specs.Valid.{valid};
ghost use Rattle.tape.specs.Tape.{record_size};
ghost use Rattle.tape.specs.FirstBad.{read_number, first_bad};
ghost use Rattle.run_rules.specs.Inner.{filled};
ghost use Rattle.run_rules.specs.Run.{reads, play, run};

use base::answer;
use buffer::put;
use machine::Machine;
use run_rules::Ended;
use step::step_in_place;
use tape::{RECORD_SIZE, Read, reader};

// A tape without a bad record on a machine that is valid: it stays so, and is not tested again.
// Answers are numbers, here and below, as in `Ended` and `Found`. Machine, memory, tape and answers stand apart, as `play` and `run` are defined, and
// as C lends them. The machine comes and goes by value: `run` gives it back in `Ended`.
#[tactic(auto, using(crate::proofs::Turns::turns))]
fn run_valid(m: Machine, mem: &mut [u64], tape: &[u8], answers: &mut [u8]) -> Ended
    requires mem_value { valid m (length mem.old) ≡ true }
    requires record_size_value { (first_bad read_number tape.now 0 (length tape.now / record_size)).answer ≡ 0 }
    ensures { record { ended = result; memory = mem.new; answers = answers.new }
        ≡ filled answers.old 0 (play (reads tape.now 0 (length tape.now / record_size)) 0 m mem.old) }
{
    let mut machine = m;
    let (records, _) = tape.as_chunks::<RECORD_SIZE>();
    for (k, record) in records.iter().enumerate() {
        let found = reader::read_judged(record);
        // The reader has judged the record, so its refusal cannot come.
        let Read::Record { thread, event } = found else {
            return Ended {
                answer: tape::number(found),
                count: k,
                index: k,
                machine,
            };
        };
        match step_in_place(&mut machine, mem, thread, event) {
            Ok(completion) => put(answers, k, completion.number()),
            Err(refusal) => {
                put(answers, k, refusal.number());
                return Ended {
                    answer: refusal.number(),
                    count: k,
                    index: k,
                    machine,
                };
            }
        }
    }
    Ended {
        answer: answer::DONE,
        count: records.len(),
        index: records.len(),
        machine,
    }
}

// The whole records of a tape on a machine that is valid, each read as it is reached: a bad one stops it where it stands (rule Q6). They are judged
// first all the same, up to the first bad one, so that they are run as a tape is.
#[tactic(auto, using(crate::proofs::Prefix::prefix))]
pub fn play(m: Machine, mem: &mut [u64], tape: &[u8], answers: &mut [u8]) -> Ended
    requires { valid m (length mem.old) ≡ true }
    ensures value { result ≡ (play (reads tape.now 0 (length tape.now / record_size)) 0 m mem.old).ended }
    ensures mem_after { mem.new ≡ (play (reads tape.now 0 (length tape.now / record_size)) 0 m mem.old).memory }
    ensures answers_after { answers.new ≡ sets answers.old 0 (play (reads tape.now 0 (length tape.now / record_size)) 0 m mem.old).answers }
{
    let found = tape_whole::first_bad(tape);
    let ended = run_valid(m, mem, &tape[..found.index * RECORD_SIZE], answers);
    if ended.count != found.index || found.answer == answer::DONE {
        return ended;
    }
    put(answers, found.index, found.answer);
    Ended {
        answer: found.answer,
        count: found.index,
        index: found.index,
        machine: ended.machine,
    }
}

// Any machine, memory and bytes may be handed in. The tests 1 and 2 come first, and then the whole tape is read, also an empty one. A bad record
// keeps all of it from being run. The answer of record k goes to place k of answers, the stopping record's too; no other place changes.
#[tactic(auto, using(machine::proofs::Validity::passes_valid, tape::proofs::FirstBad::all_judged), unfolding(run_rules::specs::Run::run))]
pub fn run(m: Machine, mem: &mut [u64], tape: &[u8], answers: &mut [u8]) -> Ended
    ensures value { result ≡ (run m mem.old tape.now).ended }
    ensures mem_after { mem.new ≡ (run m mem.old tape.now).memory }
    ensures answers_after { answers.new ≡ sets answers.old 0 (run m mem.old tape.now).answers }
{
    if let Err(refusal) = validity::judged(&m, mem.len()) {
        return Ended {
            answer: refusal.number(),
            count: 0,
            index: 0,
            machine: m,
        };
    }
    let found = tape_whole::bad_record(tape);
    if found.answer != answer::DONE {
        return Ended {
            answer: found.answer,
            count: 0,
            index: found.index,
            machine: m,
        };
    }
    run_valid(m, mem, tape, answers)
}
