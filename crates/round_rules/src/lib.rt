// Rounds between a unit and a side that asks it, the requester (document 01, "The sender and its rounds"): what is said of them whoever asks.
//
// The rules are definitions of `specs/`: `Requester` (what whole runs need to know of the asking side), `World` (calls, and what each does),
// `Legal` (the lists of calls that demand 3 speaks of), `Good` (good rounds, and the bounds that rounds give), `Schedule` (every sequence of
// rounds as such a list) and `Rounds` (rounds as they are run). `proofs/` has the induction over lists, the counting of rounds, and the tie
// between rounds that are run and their calls, for every requester that shows call by call what `proofs/Steady.antt` asks.
#![tactic(auto)]

// Document 01's "finished or given up"; until then it runs.
#[derive(Clone, Copy, PartialEq, Eq)]
pub enum State {
    Running,
    Finished,
    GivenUp,
}

// What becomes of a round's exchange: the answer is delivered, or the request is lost, or its answer, or the request arrives twice and the
// second answer is delivered.
#[derive(Clone, Copy)]
pub enum Fate {
    Delivered,
    RequestLost,
    AnswerLost,
    Twice,
}

// A round: the unit's work step, done or not, then one exchange.
#[derive(Clone, Copy)]
pub struct Round {
    pub worked: bool,
    pub fate: Fate,
}
