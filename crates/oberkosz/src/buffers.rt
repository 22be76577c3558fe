// The buffers of a run. Each has room for the longest that it may have to hold, whatever the journal.

// Each has its length in its type: no contract has to say it.
#[derive(Drop)]
pub struct Buffers {
    // A line, and one byte more by which it is told that it is too long.
    pub line: [u8; 262145],

    // The bytes that half as many digits make, of its two byte strings.
    pub first: [u8; 131072],
    pub second: [u8; 131072],

    // The longest reply.
    pub reply: [u8; 65536],

    // The longest answer line.
    pub text: [u8; 140000],

    // The grounds that stand.
    pub standing: [u8; 65536],

    // 16,384 grounds that ended, of 24 bytes each.
    pub ended: [u8; 393216],
}

impl Buffers {
    pub fn new() -> Buffers {
        Buffers {
            line: [0; 262145],
            first: [0; 131072],
            second: [0; 131072],
            reply: [0; 65536],
            text: [0; 140000],
            standing: [0; 65536],
            ended: [0; 393216],
        }
    }
}
