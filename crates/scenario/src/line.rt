//! What a line of a scenario says.
use texts::names::CipherName;

/// One line of a scenario.
#[derive(Drop)]
pub enum Line {
    /// No words: the line is blank, or has a comment alone. A `#` and what follows it to the end of the line is a comment.
    Blank,
    /// `sender NAME`: the engine that the sender runs.
    Sender(CipherName),
    /// `receiver NAME`: the engine that the receiver runs.
    Receiver(CipherName),
    /// `strip HEX`: the memory of a strip, in octets.
    Strip(Vec<u8>),
    /// `strip fresh N`: a strip of N octets FF hex.
    FreshStrip(u32),
    /// `column HEX`: the memory of a column, in words of 8 hexadecimal digits each, the most significant first.
    /// These are the octets as they were read, four to a word.
    Column(Vec<u8>),
    /// `column fresh N`: a column of N words FFFFFFFF hex.
    FreshColumn(u32),
    /// `key HEX`, or `key` alone for no octets.
    Key(Vec<u8>),
    /// `label HEX`, or `label` alone for no octets.
    Label(Vec<u8>),
    /// `allowance N`
    Allowance(u32),
    /// `room N`
    Room(u32),
    /// `open`
    Open,
    /// `close`
    Close,
    /// `cut`
    Cut,
    /// `pair`
    Pair,
    /// `torn WRITES JUNK`
    TornOpen {
        /// How many writes are done, in decimal digits.
        writes: u32,
        /// What the write after them leaves, in exactly 8 hexadecimal digits, the most significant first.
        junk: u32,
    },
    /// `send HEX`, or `send` alone for no octets; or `say TEXT`, the octets of the text as they stand up to the end of the line, or `say` alone for none.
    Send(Vec<u8>),
    /// `deliver N`
    Deliver(u32),
    /// `alter N AT HEX`
    Alter {
        /// The frame that is altered.
        frame: u32,
        /// The first octet of it that is altered.
        at: u32,
        /// How its octets from there on are altered.
        change: Vec<u8>,
    },
    /// `noise HEX`, or `noise` alone for no octets.
    Noise(Vec<u8>),
}
