// The names that scripts have for the library's values: as they are read, and as they are printed.
use device::Phase;
use link_rules::Link;
use message_rules::Kind;
use round_rules::{Fate, State};
use sender_rules::Stage;

pub(crate) fn link(word: &[u8]) -> Option<Link> {
    match word {
        b"uart" => Some(Link::Uart),
        b"rs485" => Some(Link::Rs485),
        b"can" => Some(Link::Can),
        b"csp" => Some(Link::Csp),
        _ => None,
    }
}

pub(crate) fn kind(word: &[u8]) -> Option<Kind> {
    match word {
        b"tc" => Some(Kind::Telecommand),
        b"tcack" => Some(Kind::TelecommandAck),
        b"tcnack" => Some(Kind::TelecommandNack),
        b"tlmreq" => Some(Kind::TelemetryRequest),
        b"tlmrsp" => Some(Kind::TelemetryResponse),
        b"tlmnack" => Some(Kind::TelemetryNack),
        b"event" => Some(Kind::Event),
        _ => None,
    }
}

pub(crate) fn of_kind(kind: Kind) -> &'static str {
    match kind {
        Kind::Telecommand => "tc",
        Kind::TelecommandAck => "tcack",
        Kind::TelecommandNack => "tcnack",
        Kind::TelemetryRequest => "tlmreq",
        Kind::TelemetryResponse => "tlmrsp",
        Kind::TelemetryNack => "tlmnack",
        Kind::Event => "event",
    }
}

// Whether the work step is done.
pub(crate) fn worked(word: &[u8]) -> Option<bool> {
    match word {
        b"work" => Some(true),
        b"rest" => Some(false),
        _ => None,
    }
}

pub(crate) fn fate(word: &[u8]) -> Option<Fate> {
    match word {
        b"delivered" => Some(Fate::Delivered),
        b"request-lost" => Some(Fate::RequestLost),
        b"answer-lost" => Some(Fate::AnswerLost),
        b"twice" => Some(Fate::Twice),
        _ => None,
    }
}

pub(crate) fn of_phase(phase: Phase) -> &'static str {
    match phase {
        Phase::Idle => "idle",
        Phase::Open => "open",
        Phase::Finished => "finished",
    }
}

pub(crate) fn of_state(state: State) -> &'static str {
    match state {
        State::Running => "running",
        State::Finished => "finished",
        State::GivenUp => "given-up",
    }
}

pub(crate) fn of_stage(stage: Stage) -> &'static str {
    match stage {
        Stage::Setup => "S",
        Stage::Frame | Stage::Back => "A",
        Stage::Compare => "B",
        Stage::Take => "C",
        Stage::Confirm => "D",
    }
}
