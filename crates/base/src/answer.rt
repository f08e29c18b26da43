// The numbers given back (rule N1). specs/Answers.antt has the same numbers for the definitions: change both together.
// C, the program's text and the definitions have these numbers (rule N1); where an answer is made and judged it is an enum.
ghost use Rattle.std.specs.Prelude.{◌≡◌};
ghost use Rattle.base.specs.Answers.{completion_number, refusal_number, answer_of, judgement_number};

// How an event that is not refused was done: as its rule says, with its thread's own failure handled, or with it recorded in S.
#[derive(Clone, Copy, PartialEq, Eq)]
pub enum Completion {
    Done,
    Handled,
    Recorded,
}

// Why an event, a machine, a tape or a record is refused.
#[derive(Clone, Copy, PartialEq, Eq)]
pub enum Refusal {
    Size,
    NoMachine,
    NoThread,
    Operand,
    HostInT,
    TapeLength,
    BadFirstByte,
    NoKind,
    Field,
    ShortBuffer,
    FacilityOff,
    Privileged,
    BadThing,
}

impl Completion {
    // 0, 20 or 21.
    pub fn number(self) -> u8
        ensures { result ≡ completion_number self }
    {
        match self {
            Completion::Done => DONE,
            Completion::Handled => HANDLED,
            Completion::Recorded => RECORDED,
        }
    }
}

impl Refusal {
    // 1 to 13.
    pub fn number(self) -> u8
        ensures { result ≡ refusal_number self }
    {
        match self {
            Refusal::Size => SIZE,
            Refusal::NoMachine => NO_MACHINE,
            Refusal::NoThread => NO_THREAD,
            Refusal::Operand => OPERAND,
            Refusal::HostInT => HOST_IN_T,
            Refusal::TapeLength => TAPE_LENGTH,
            Refusal::BadFirstByte => BAD_FIRST_BYTE,
            Refusal::NoKind => NO_KIND,
            Refusal::Field => FIELD,
            Refusal::ShortBuffer => SHORT_BUFFER,
            Refusal::FacilityOff => FACILITY_OFF,
            Refusal::Privileged => PRIVILEGED,
            Refusal::BadThing => BAD_THING,
        }
    }
}

// The number of an answer.
pub fn number(answer: Result<Completion, Refusal>) -> u8
    ensures { result ≡ answer_of answer }
{
    match answer {
        Ok(completion) => completion.number(),
        Err(refusal) => refusal.number(),
    }
}

// The number of what is refused or not.
pub fn judgement(judged: Result<(), Refusal>) -> u8
    ensures { result ≡ judgement_number judged }
{
    match judged {
        Ok(()) => DONE,
        Err(refusal) => refusal.number(),
    }
}

// Done.
pub const DONE: u8 = 0;

// Memory length or thread count.
pub const SIZE: u8 = 1;

// The machine is not valid.
pub const NO_MACHINE: u8 = 2;

// No such thread.
pub const NO_THREAD: u8 = 3;

// An operand out of range.
pub const OPERAND: u8 = 4;

// The host's event in Transactional state.
pub const HOST_IN_T: u8 = 5;

// A length that is no multiple of 16.
pub const TAPE_LENGTH: u8 = 6;

// A record's first byte.
pub const BAD_FIRST_BYTE: u8 = 7;

// A record's kind.
pub const NO_KIND: u8 = 8;

// An unused field or a fixed byte that is not 0, or flags too big.
pub const FIELD: u8 = 9;

// The writer's buffer.
pub const SHORT_BUFFER: u8 = 10;

// A TM instruction with TM = 0.
pub const FACILITY_OFF: u8 = 11;

// A privileged one with PR = 1.
pub const PRIVILEGED: u8 = 12;

// TM Bad Thing.
pub const BAD_THING: u8 = 13;

// Done, own failure handled.
pub const HANDLED: u8 = 20;

// Done, own failure recorded in S.
pub const RECORDED: u8 = 21;
