// Tapes of edition two: what a host calls (rule H9).
ghost use Rattle.std.specs.Prelude.{◌≡◌};
ghost use Rattle.editions.specs.Editions.{convert_answer, convert};
ghost use Rattle.editions.specs.declared.Edition.TheVariants.{Two, Three};
ghost use Rattle.host_rules.specs.Two.{read, write_answer, write};

use editions::{Edition, converter};
use event::Fields;
use host_rules::RawRecord;
use tape::{Found, Read};

// One record as fields.
#[tactic(auto, unfolding(host_rules::specs::Two::read))]
pub fn naszeptan_read_two(bytes: &[u8]) -> RawRecord
    ensures { result ≡ read bytes.now }
{
    RawRecord::from(editions::read(Edition::Two, bytes))
}

// Fields as one record.
#[tactic(auto, unfolding(host_rules::specs::Two::write_answer, host_rules::specs::Two::write))]
pub fn naszeptan_write_two(e: Fields, buf: &mut [u8]) -> u8
    ensures value { result ≡ write_answer e buf.old }
    ensures buf_after { buf.new ≡ write e buf.old }
{
    // Fields have no fixed bytes: those count as 0.
    match tape::reader::of_kind(e, true) {
        Read::Record { thread, event } => editions::write(Edition::Two, thread, event, buf),
        Read::Refused(answer) => answer,
    }
}

// A tape of edition two as one of edition three, and back: C has a name for each way.
pub fn naszeptan_two_to_three(tape: &[u8], buf: &mut [u8]) -> Found
    ensures value { result ≡ convert_answer Two tape.now buf.old }
    ensures buf_after { buf.new ≡ convert Two tape.now buf.old }
{
    converter::convert(Edition::Two, tape, buf)
}

pub fn naszeptan_three_to_two(tape: &[u8], buf: &mut [u8]) -> Found
    ensures value { result ≡ convert_answer Three tape.now buf.old }
    ensures buf_after { buf.new ≡ convert Three tape.now buf.old }
{
    converter::convert(Edition::Three, tape, buf)
}
