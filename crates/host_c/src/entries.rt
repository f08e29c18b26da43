// What a host calls. No contract asks anything of the caller but that a pointer and its length are true.
ghost use Rattle.std.specs.Prelude.{◌≡◌};
ghost use Rattle.machine.specs.Machine.{fresh};
ghost use Rattle.crossing.specs.Crossing.{raw_machine};
ghost use Rattle.host_rules.specs.Host.{version, number, step, run, read, write_answer, write};

use crossing::RawMachine;
use event::Fields;
use host_rules::{RawDone, RawEnded, RawRecord};

// The version of the rules.
#[unsafe(no_mangle)]
pub extern "C" fn naszeptan_version() -> u32
    ensures { result ≡ version }
{
    host::entries::naszeptan_version()
}

#[unsafe(no_mangle)]
pub extern "C" fn naszeptan_fresh() -> RawMachine
    ensures { result ≡ raw_machine fresh }
{
    host::entries::naszeptan_fresh()
}

// The tests 1 and 2 of any bits.
#[unsafe(no_mangle)]
pub extern "C" fn naszeptan_valid(m: RawMachine, len: usize) -> u8
    ensures { result ≡ number m len }
{
    host::entries::naszeptan_valid(m, len)
}

// One event. Fields that are no event are refused after 1 and 2.
#[unsafe(no_mangle)]
pub extern "C" fn naszeptan_step(m: RawMachine, mem: &mut [u64], e: Fields) -> RawDone
    ensures value { result ≡ (step m mem.old e).done }
    ensures mem_after { mem.new ≡ (step m mem.old e).memory }
{
    host::entries::naszeptan_step(m, mem, e)
}

// A tape: the whole of it read first, then record by record. The answers of the records have no place here.
#[unsafe(no_mangle)]
pub extern "C" fn naszeptan_run(m: RawMachine, mem: &mut [u64], tape: &[u8]) -> RawEnded
    ensures value { result ≡ (run m mem.old tape.now).ended }
    ensures mem_after { mem.new ≡ (run m mem.old tape.now).memory }
{
    host::entries::naszeptan_run(m, mem, tape)
}

// One record as fields.
#[unsafe(no_mangle)]
pub extern "C" fn naszeptan_read(bytes: &[u8]) -> RawRecord
    ensures { result ≡ read bytes.now }
{
    host::entries::naszeptan_read(bytes)
}

// Fields as one record.
#[unsafe(no_mangle)]
pub extern "C" fn naszeptan_write(e: Fields, buf: &mut [u8]) -> u8
    ensures value { result ≡ write_answer e buf.old }
    ensures buf_after { buf.new ≡ write e buf.old }
{
    host::entries::naszeptan_write(e, buf)
}
