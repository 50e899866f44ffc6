// The two serial links, UART and RS485: frames with doubled ESC. Here stand the rules and the types, and no code. What both
// directions use is `serial_fields`, the scan of a frame `serial_scan`, and `serial_reader` and `serial_writer` stand on them.
//
// The rules are definitions of `specs/`: `Stuffing` (doubling, and the scan that undoes it) and `Frames` (start bytes, fields in
// front of the data, reading and writing).
#![tactic(auto)]

#[derive(Clone, Copy)]
pub enum SerialLink {
    Uart,
    Rs485,
}

// A row of document 01's table of start bytes.
#[derive(Clone, Copy)]
pub enum StartRow {
    // tc, tlmreq
    Request,
    // tcack, tlmrsp
    Reply,
    // tcnack, tlmnack
    Nack,
    // event
    Event,
}

// How a scan from inside a frame stopped.
#[derive(Clone, Copy)]
pub enum Stop {
    // After the tail.
    Ended,
    // Before an ESC with any byte but ESC or FF.
    Broken,
    // Where the input ends inside the frame.
    Cut,
}
