// What stands in a table by the kind. The tables are definitions of `message_rules`: `Kinds`.
#![tactic(auto)]

ghost use Rattle.std.specs.Prelude.{◌≡◌};
ghost use Rattle.message_rules.specs.Kinds.{error_length, type_number, type_kind, is_nack, is_event};

use message_rules::Kind;

// How many bytes of the data on UART, RS485 and CSP tell the error.
pub fn error_length(kind: Kind) -> usize
    ensures { result ≡ error_length kind }
{
    match kind {
        Kind::TelecommandAck => 1,
        Kind::TelecommandNack | Kind::TelemetryNack => 2,
        Kind::Telecommand | Kind::TelemetryRequest | Kind::TelemetryResponse | Kind::Event => 0,
    }
}

// The type number on CSP, and on CAN in a single frame; 9 for an event.
pub fn type_number(kind: Kind) -> u8
    ensures { result ≡ type_number kind }
{
    match kind {
        Kind::Telecommand => 1,
        Kind::TelecommandAck => 2,
        Kind::TelecommandNack => 3,
        Kind::TelemetryRequest => 4,
        Kind::TelemetryResponse => 5,
        Kind::TelemetryNack => 6,
        Kind::Event => 9,
    }
}

// The kind of one of the types 1..6, CSP's and those of CAN's single frames.
#[tactic(auto, unfolding(message_rules::specs::Kinds::type_kind))]
pub fn type_kind(number: u8) -> Option<Kind>
    ensures { result ≡ type_kind number }
{
    match number {
        1 => Some(Kind::Telecommand),
        2 => Some(Kind::TelecommandAck),
        3 => Some(Kind::TelecommandNack),
        4 => Some(Kind::TelemetryRequest),
        5 => Some(Kind::TelemetryResponse),
        6 => Some(Kind::TelemetryNack),
        _ => None,
    }
}

// A nack has an error byte and an index.
pub fn is_nack(kind: Kind) -> bool
    ensures { result ≡ is_nack kind }
{
    matches!(kind, Kind::TelecommandNack | Kind::TelemetryNack)
}

// Whether it is an event, which has neither error byte nor index.
pub fn is_event(kind: Kind) -> bool
    ensures { result ≡ is_event kind }
{
    matches!(kind, Kind::Event)
}
