// The unit that takes an upload (document 01, "The unit"): its state and the answers of its calls. The state goes by value: each call takes it
// and gives the next one.
//
// The rules are definitions of `specs/`: `Device` (the state, and a unit at first), `Faults` (why a command is not carried out), `Commands` (what
// it does when it is), `Work` (the work step), `Receive` and `Answers` (bytes that arrive). Demand 3 is proved of these; the code stands above.
#![tactic(auto)]

use link_rules::Link;
use message_rules::Refusal;

// Document 01's "idle, open or finished".
#[derive(Clone, Copy, PartialEq, Eq)]
pub enum Phase {
    Idle,
    Open,
    Finished,
}

// What a transfer moves. Setup makes a new one and cancel leaves none; nothing else of the unit is a transfer's.
#[derive(Clone, Copy)]
pub struct Transfer {
    pub phase: Phase,
    // The number of the frame that was stored last; 0xFFFF before the first.
    pub number: u16,
    // The frame buffer, and how many of its bytes are the frame.
    pub buffer: [u8; 256],
    pub buffered: u16,
    // The frame in the buffer waits for the work step.
    pub pending: bool,
    // The file's size, as the setup said it.
    pub size: u32,
    // How many bytes are counted as stored.
    pub stored: u32,
    // Document 02's open job.
    pub job: Option<u32>,
}

// Document 01's unit. It is called a device, since `Unit` is a type of the logic.
#[derive(Clone, Copy)]
pub struct Device {
    pub link: Link,
    // The unit's own address.
    pub own: u8,
    pub transfer: Transfer,
    // Document 02's last finished job. It is no transfer's: setup and cancel leave it as it is.
    pub finished: Option<u32>,
}

// How a message is addressed: to this unit, to every unit at once (document 02's broadcast), or to another one.
#[derive(Clone, Copy)]
pub enum Addressing {
    Own,
    Broadcast,
    Other,
}

// What keeps a command from being carried out: that it is a setup which repeats the open job's, and is acked; or a reason, with the error byte and
// the index of its nack.
#[derive(Clone, Copy)]
pub enum Fault {
    Repeat,
    Nack(u8, u8),
}

// What receiving bytes comes to: the unit afterwards, and the length of its answer, which lies at the start of the lent output, or none. A unit that
// is silent may have changed. A refusal leaves unit and output as they came.
#[derive(Clone, Copy)]
pub struct Received {
    pub device: Device,
    pub outcome: Result<Option<usize>, Refusal>,
}
