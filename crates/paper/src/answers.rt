// The answers: refusals of the house, conditions, and the sense bytes of each.
ghost use Rattle.std.specs.Prelude.{◌≡◌};
ghost use Rattle.paper.specs.Answers.{number_of, coded, code_of, sense_of, status_of, number_for, sense_for, values_of, answer_of};

// The house refusals, in the order in which they are tested.
#[derive(Clone, Copy)]
pub enum Refusal {
    BadSetup,
    BadState,
    NoInitiator,
    BadCdb,
    BadParameters,
    ShortBuffer,
}

// What a CHECK CONDITION tells, in the order of the paper's table.
#[derive(Clone, Copy)]
pub enum Condition {
    OtherOperation,
    InvalidField,
    WrongLength,
    WrongKey,
    BadList,
    PendingEnrolled,
    NoAce,
    EnrolledElsewhere,
    BadLun,
    DeadToken,
    Clash,
    NoRoom,
    OpensNothing,
}

// A code and its qualifier.
#[derive(Clone, Copy)]
pub struct Code {
    pub code: u8,
    pub qualifier: u8,
}

#[derive(Clone, Copy)]
pub enum Answer {
    Good,
    Check(Condition),
    Refused(Refusal),
}

// What a LUN opens.
#[derive(Clone, Copy)]
pub enum Opened {
    Opens(u8),
    Closed(Condition),
    Barred(Refusal),
}

// The paper's values for an answer: its status, which a refusal has not, the number of its refusal, 0 if it is none, and its sense.
#[derive(Clone, Copy)]
pub struct Values {
    pub status: Option<u8>,
    pub number: u8,
    pub sense: [u8; 18],
}

// Stays: the conversions below are the definitions by name, as docs/PROMISES.md cites them; `u8::from(n)` would not say of what.
pub fn number_of(n: Refusal) -> u8
    ensures { result ≡ number_of n }
{
    match n {
        Refusal::BadSetup => 1,
        Refusal::BadState => 2,
        Refusal::NoInitiator => 3,
        Refusal::BadCdb => 4,
        Refusal::BadParameters => 5,
        Refusal::ShortBuffer => 6,
    }
}

fn coded(code: u8, qualifier: u8) -> Code
    ensures { result ≡ coded code qualifier }
{
    Code { code, qualifier }
}

// The paper's table of codes.
pub fn code_of(k: Condition) -> Code
    ensures { result ≡ code_of k }
{
    match k {
        Condition::OtherOperation => coded(0x20, 0x00),
        Condition::InvalidField => coded(0x24, 0x00),
        Condition::WrongLength => coded(0x1a, 0x00),
        Condition::WrongKey => coded(0x20, 0x03),
        Condition::BadList => coded(0x26, 0x00),
        Condition::PendingEnrolled => coded(0x20, 0x01),
        Condition::NoAce => coded(0x20, 0x02),
        Condition::EnrolledElsewhere => coded(0x20, 0x08),
        Condition::BadLun => coded(0x20, 0x09),
        Condition::DeadToken => coded(0x20, 0x0a),
        Condition::Clash => coded(0x20, 0x0b),
        Condition::NoRoom => coded(0x55, 0x05),
        Condition::OpensNothing => coded(0x25, 0x00),
    }
}

// The sense is a fixed byte string, with the code and its qualifier at 12 and 13.
pub fn sense_of(k: Condition) -> [u8; 18]
    ensures { result ≡ sense_of k }
{
    let mut bytes = *b"\x70\0\x05\0\0\0\0\x0a\0\0\0\0\0\0\0\0\0\0";
    let c = code_of(k);
    bytes[12] = c.code;
    bytes[13] = c.qualifier;
    bytes
}

pub fn sense_for(a: Answer) -> [u8; 18]
    ensures { result ≡ sense_for a }
{
    match a {
        Answer::Check(k) => sense_of(k),
        Answer::Good | Answer::Refused(_) => [0; 18],
    }
}

pub fn status_of(a: Answer) -> Option<u8>
    ensures { result ≡ status_of a }
{
    match a {
        Answer::Good => Some(0x00),
        Answer::Check(_) => Some(0x02),
        Answer::Refused(_) => None,
    }
}

pub fn number_for(a: Answer) -> u8
    ensures { result ≡ number_for a }
{
    match a {
        Answer::Good | Answer::Check(_) => 0,
        Answer::Refused(n) => number_of(n),
    }
}

pub fn values_of(a: Answer) -> Values
    ensures { result ≡ values_of a }
{
    Values {
        status: status_of(a),
        number: number_for(a),
        sense: sense_for(a),
    }
}

// The answer that an opening is, whose values it has.
pub fn answer_of(o: Opened) -> Answer
    ensures { result ≡ answer_of o }
{
    match o {
        Opened::Opens(_) => Answer::Good,
        Opened::Closed(k) => Answer::Check(k),
        Opened::Barred(n) => Answer::Refused(n),
    }
}
