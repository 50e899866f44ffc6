// Messages of the CubeProduct protocol, and the answers of everything that reads or writes them.
//
// The rules are definitions of `specs/`: `Kinds` (which IDs, lengths and error bytes a kind has), `Checks` (the order of
// the refusals 9, 5, 6, 7), `Data` (the data on UART, RS485 and CSP) and `Answer` (what a refusal or an answer is). Their code is in
// crates of their own: the tables by the kind `message_kinds`, the fields `message_fields`, the ranges `message_ranges`, the checks
// `message_checks`; bytes reach a lent output by `message_output`.
#![tactic(auto)]

// The seven kinds, with document 01's name for each.
#[derive(Clone, Copy)]
pub enum Kind {
    // tc
    Telecommand,
    // tcack
    TelecommandAck,
    // tcnack
    TelecommandNack,
    // tlmreq
    TelemetryRequest,
    // tlmrsp
    TelemetryResponse,
    // tlmnack
    TelemetryNack,
    // event
    Event,
}

// A message without its payload. A field that the kind or the link does not carry is 0 when read and not looked at
// when written.
#[derive(Clone, Copy)]
pub struct Message {
    pub kind: Kind,
    pub id: u8,
    pub source: u8,
    pub destination: u8,
    // The error byte of an ack or a nack. A nack read from CAN has none: it is "not told", which is no number.
    pub error: Option<u8>,
    // The error index of a nack.
    pub index: u8,
}

// Why an input was refused, with the refusal numbers of documents 01 and 02. What checks an input answers `Result<(), Refusal>`; a
// writer `Result<usize, Refusal>`, how many bytes it put at the start of the lent output; a reader `Result<(Message, usize), Refusal>`, the message
// and the length of its payload, which lies at the start of the lent output. A refusal leaves the output as it came.
#[derive(Clone, Copy)]
pub enum Refusal {
    // The input ends before the message does.
    Truncated = 1,
    // No start byte, type or identifier of this link.
    UnknownStart = 2,
    // Inside a serial frame, ESC before any byte but ESC or FF.
    BrokenEscape = 3,
    // Bytes after the message.
    TrailingBytes = 4,
    // The ID is not of the kind's range.
    IdOutOfRange = 5,
    // Wrong length for the kind, DLC or series length out of range.
    WrongLength = 6,
    // Ack error not 0, nack error not 1..10, RS485 source 0, a CAN byte past the DLC not 0.
    IllegalValue = 7,
    // The lent output is shorter than the answer.
    OutputTooShort = 8,
    // The kind is not writable here.
    NotWritable = 9,
    // A series frame with another identifier or a wrong count.
    SeriesMismatch = 10,
    // A file of 0 or more than 16,776,960 bytes.
    IllegalFileSize = 11,
    // The length of an event log is not a multiple of 24, or that of one record not 24.
    PartialRecord = 12,
    // An event's milliseconds are above 999.
    IllegalMilliseconds = 13,
    // An event log of more than 65,520 bytes.
    LogTooLong = 14,
}

// From the first to the second, both included.
#[derive(Clone, Copy)]
pub struct Range(pub usize, pub usize);

// What a link carries. Writing refuses with 9 an event where the link carries none, and a nack that is "not told" where it carries error bytes.
#[derive(Clone, Copy)]
pub struct Carries {
    pub events: bool,
    // Error bytes: a nack on a link without them is always "not told".
    pub errors: bool,
}
