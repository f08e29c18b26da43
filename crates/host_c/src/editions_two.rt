// Tapes of edition two: what a host calls (rule H9).
ghost use Rattle.std.specs.Prelude.{◌≡◌};
ghost use Rattle.editions.specs.Editions.{convert_answer, convert};
ghost use Rattle.editions.specs.declared.Edition.TheVariants.{Two, Three};
ghost use Rattle.host_rules.specs.Two.{read, write_answer, write};

use event::Fields;
use host_rules::RawRecord;
use tape::Found;

// One record as fields.
#[unsafe(no_mangle)]
pub extern "C" fn naszeptan_read_two(bytes: &[u8]) -> RawRecord
    ensures { result ≡ read bytes.now }
{
    host::editions_two::naszeptan_read_two(bytes)
}

// Fields as one record.
#[unsafe(no_mangle)]
pub extern "C" fn naszeptan_write_two(e: Fields, buf: &mut [u8]) -> u8
    ensures value { result ≡ write_answer e buf.old }
    ensures buf_after { buf.new ≡ write e buf.old }
{
    host::editions_two::naszeptan_write_two(e, buf)
}

// A tape of edition two as one of edition three, and back.
#[unsafe(no_mangle)]
pub extern "C" fn naszeptan_two_to_three(tape: &[u8], buf: &mut [u8]) -> Found
    ensures value { result ≡ convert_answer Two tape.now buf.old }
    ensures buf_after { buf.new ≡ convert Two tape.now buf.old }
{
    host::editions_two::naszeptan_two_to_three(tape, buf)
}

#[unsafe(no_mangle)]
pub extern "C" fn naszeptan_three_to_two(tape: &[u8], buf: &mut [u8]) -> Found
    ensures value { result ≡ convert_answer Three tape.now buf.old }
    ensures buf_after { buf.new ≡ convert Three tape.now buf.old }
{
    host::editions_two::naszeptan_three_to_two(tape, buf)
}
