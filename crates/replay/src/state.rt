// What a script keeps: a unit with its store, a sender, a file and a log. None of the buffers is on a heap.
use arrayvec::ArrayVec;
use device::Device;
use sender_rules::Sender;

// A log may be longer than the library takes, so that one too long can be tried.
pub const MOST_LOG: usize = 65600;

pub type Bytes = ArrayVec<u8, 4096>;

// At first there is no unit and no sender, and file and log are empty.
#[derive(Drop)]
pub(crate) struct State {
    pub unit: Option<Unit>,
    pub sender: Option<Sender>,
    pub file: Bytes,
    pub log: ArrayVec<u8, MOST_LOG>,
}

#[derive(Drop)]
pub(crate) struct Unit {
    pub device: Device,
    pub store: Bytes,
}

pub(crate) fn empty() -> State {
    State {
        unit: None,
        sender: None,
        file: ArrayVec::new(),
        log: ArrayVec::new(),
    }
}
