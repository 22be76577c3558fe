// What a line of a journal says.
ghost use Rattle.std.specs.Prelude.{◌≡◌};
ghost use Rattle.journal.specs.Texts.{kind_text};
ghost use Rattle.journal.specs.declared.statement.Parsed.TheVariants.{Expected};

// What a word was expected to be.
#[derive(Clone, Copy)]
pub enum Kind {
    Keyword,
    Bytes,
    ByteList,
    Number,
    Buffer,
    Digits,
    End,
}

impl Kind {
    // "MESSAGE"
    pub fn message(self) -> &'static [u8]
        ensures { result.now ≡ kind_text self }
    {
        match self {
            Kind::Keyword => b"expected setup, command, link, route or reach",
            Kind::Bytes => b"expected bytes in hex or -",
            Kind::ByteList => b"expected at most 65536 bytes in hex or -",
            Kind::Number => b"expected a decimal number below 18446744073709551616",
            Kind::Buffer => b"expected a decimal number up to 65536",
            Kind::Digits => b"expected 16 hex digits",
            Kind::End => b"expected the end of the line",
        }
    }
}

// The first word that is not of the kind that its place asks for.
#[derive(Clone, Copy)]
pub struct Fault {
    pub word: u8,
    pub expected: Kind,
}

// A line, with the byte strings of its statement beside it.
#[derive(Clone, Copy)]
pub enum Parsed {
    Skipped,
    TooLong,
    // which word, and what was expected
    Expected(u8, Kind),
    Setup,
    // initiator, random number, size of the buffer
    Command(u64, u64, usize),
    Link(u64),
    Route(u64, u64),
    Reach(usize),
}

// A line that was read: how many bytes each of its two byte strings has, at the start of its lent buffer.
// Stays: read_line, a public function, writes the byte strings into buffers that its caller lends, and its clause names the sizes.
#[derive(Clone, Copy)]
pub struct ReadLine {
    pub parsed: Parsed,
    pub first: usize,
    pub second: usize,
}

// A line without byte strings.
impl From<Parsed> for ReadLine {
    ghost from_gives = { λ p r. (r.parsed ≡ p) × (r.first ≡ 0) × (r.second ≡ 0) };

    fn from(parsed: Parsed) -> ReadLine {
        ReadLine {
            parsed,
            first: 0,
            second: 0,
        }
    }
}

// A line that is no statement.
impl From<Fault> for ReadLine {
    ghost from_gives = { λ f r. (r.parsed ≡ Expected f.word f.expected) × (r.first ≡ 0) × (r.second ≡ 0) };

    fn from(fault: Fault) -> ReadLine {
        ReadLine::from(Parsed::Expected(fault.word, fault.expected))
    }
}
