// A whole tape, read before any of it is run (rule R1).
#![tactic(auto)]

ghost use Rattle.std.specs.Prelude.{◌≡◌, ◌/◌, length};
ghost use Rattle.tape.specs.Tape.{record_size};
ghost use Rattle.tape.specs.FirstBad.{read_number, first_bad, bad_record};

use base::answer;
use tape::{Found, RECORD_SIZE, reader, records};
use tape_limits::{KINDS, Limits};

// The largest value of each byte of a record, by the fields that its kind uses: any value where a byte is used, the largest flags of the row, and 0
// where nothing may stand. First byte, kind and thread are judged elsewhere.
const U: u8 = 255;

const PLAIN: [u8; RECORD_SIZE] = [U, U, U, 0, 0, 0, 0, 0, 0, 0, 0, 0, 0, 0, 0, 0];

const FLAG: [u8; RECORD_SIZE] = [U, U, U, 0, 0, 0, 1, 0, 0, 0, 0, 0, 0, 0, 0, 0];

const FLAGS: [u8; RECORD_SIZE] = [U, U, U, 0, 0, 0, 3, 0, 0, 0, 0, 0, 0, 0, 0, 0];

const MSR: [u8; RECORD_SIZE] = [U, U, U, 0, 0, 0, 15, 0, 0, 0, 0, 0, 0, 0, 0, 0];

const RA: [u8; RECORD_SIZE] = [U, U, U, 0, U, 0, 0, 0, 0, 0, 0, 0, 0, 0, 0, 0];

const X: [u8; RECORD_SIZE] = [U, U, U, U, 0, 0, 0, 0, 0, 0, 0, 0, 0, 0, 0, 0];

const X_RA: [u8; RECORD_SIZE] = [U, U, U, U, U, 0, 0, 0, 0, 0, 0, 0, 0, 0, 0, 0];

const X_RA_RB: [u8; RECORD_SIZE] = [U, U, U, U, U, U, 0, 0, 0, 0, 0, 0, 0, 0, 0, 0];

const INDEX: [u8; RECORD_SIZE] = [U, U, U, 0, 0, 0, 0, 0, U, U, U, U, 0, 0, 0, 0];

const X_INDEX: [u8; RECORD_SIZE] = [U, U, U, U, 0, 0, 0, 0, U, U, U, U, 0, 0, 0, 0];

const RA_INDEX: [u8; RECORD_SIZE] = [U, U, U, 0, U, 0, 0, 0, U, U, U, U, 0, 0, 0, 0];

const X_RA_SI: [u8; RECORD_SIZE] = [U, U, U, U, U, 0, 0, 0, 0, 0, 0, 0, U, U, 0, 0];

// The limits of each kind, kind 1 first: what the rows say (tape_limits/specs/Inner.antt).
const LIMITS: [[u8; RECORD_SIZE]; KINDS] = [
    FLAG, FLAG, RA, X_RA_RB, X_RA_RB, FLAG, X, RA, PLAIN, X_RA, X_RA, X_INDEX, RA_INDEX, X_RA_SI,
    PLAIN, PLAIN, FLAGS, PLAIN, MSR, X_INDEX, X_INDEX, X_INDEX, RA_INDEX, RA_INDEX, RA_INDEX,
    INDEX,
];

// The first record that the reader refuses. Answers are numbers, as in `Found`.
#[tactic(auto, unfolding(tape_limits::specs::Inner::table, tape_limits::specs::Inner::limits, kinds::specs::Rows::rows))]
pub fn first_bad(tape: &[u8]) -> Found
    ensures { result ≡ first_bad read_number tape.now 0 (length tape.now / record_size) }
{
    // The table is laid out once: where a constant is read by an index it is laid out anew.
    let limits = Limits { table: LIMITS };
    records::first_bad(tape, |record| {
        if limits.good(record) {
            answer::DONE
        } else {
            tape::number(reader::read(record))
        }
    })
}

// Number 6 with the number of whole records, or the first record that is refused, or 0 and the number of records.
#[tactic(auto, unfolding(tape::specs::FirstBad::bad_record))]
pub fn bad_record(tape: &[u8]) -> Found
    ensures { result ≡ bad_record tape.now }
{
    if tape.len() % RECORD_SIZE != 0 {
        return Found {
            answer: answer::TAPE_LENGTH,
            index: tape.len() / RECORD_SIZE,
        };
    }
    first_bad(tape)
}
