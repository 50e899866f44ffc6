// The sender of an upload (document 01, "The sender and its rounds"): its types and its rules. The sender's state goes by value: each call
// takes it and gives the next one.
//
// The rules are definitions of `specs/`: `Sender` (the state, starting, the request of each stage), `Hearing` (what an answer means, and what
// a round does to the state) and `Sending` (the sender as the side that asks). `proofs/Stages.antt` has document 01's sentences on the stages as
// laws of them, and `proofs/Steps.antt` what rounds count.
#![tactic(auto)]

use link_rules::Link;
use round_rules::State;

// The four stages of a frame, with document 01's letter for each, and document 02's "one stage before frame 0's A", which a sender with a job begins
// at. `Back` is A after a frame info at B that differed: the next arrival at B is then no step forward.
#[derive(Clone, Copy, PartialEq, Eq)]
pub enum Stage {
    // The stage before frame 0's A: sends setup.
    Setup,
    // A: sends frame.
    Frame,
    // A again.
    Back,
    // B: asks frame info, and compares size and checksum.
    Compare,
    // C: sends take frame.
    Take,
    // D: asks frame info, and waits for the frame's number.
    Confirm,
}

#[derive(Clone, Copy)]
pub struct Sender {
    pub link: Link,
    // The addresses that its requests carry.
    pub source: u8,
    pub destination: u8,
    // The file's size: document 01's "length".
    pub size: u32,
    // The job that it was started with, if any.
    pub job: Option<u32>,
    // The frame that it is at, from 0, and the stage of it.
    pub frame: u32,
    pub stage: Stage,
    // The rounds since the last step forward, the one in which it gave up too; and all rounds.
    pub since: u8,
    pub rounds: u32,
    pub state: State,
}

// What an answer means to the sender at its stage.
#[derive(Clone, Copy)]
pub enum Meaning {
    // Any other answer, or none.
    Stay,
    // What the stage waits for.
    Forward,
    // A frame info at B that differs.
    Differs,
    // The error flag.
    Flagged,
}
