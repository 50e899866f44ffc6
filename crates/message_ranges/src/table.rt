// What each kind allows, one row each. The rules are definitions of `message_rules`: `Kinds`.
ghost use Rattle.std.specs.Prelude.{◌≡◌};
ghost use Rattle.message_rules.specs.Kinds.{id_range, payload_range, error_range};

use message_rules::{Kind, Range};

#[derive(Clone, Copy)]
pub(crate) struct KindRanges {
    pub id: Range,
    // Of the payload's length.
    pub payload: Range,
    // Of the error byte.
    pub error: Range,
}

pub(crate) fn ranges_of(kind: Kind) -> KindRanges
    ensures id { result.id ≡ id_range kind }
    ensures payload { result.payload ≡ payload_range kind }
    ensures error { result.error ≡ error_range kind }
{
    match kind {
        Kind::Telecommand => allowed(Range(0, 127), Range(0, 256), Range(0, 255)),
        Kind::TelecommandAck => allowed(Range(0, 127), Range(0, 0), Range(0, 0)),
        Kind::TelecommandNack => allowed(Range(0, 127), Range(0, 0), Range(1, 10)),
        Kind::TelemetryRequest => allowed(Range(128, 254), Range(0, 0), Range(0, 255)),
        Kind::TelemetryResponse => allowed(Range(128, 254), Range(0, 256), Range(0, 255)),
        Kind::TelemetryNack => allowed(Range(128, 254), Range(0, 0), Range(1, 10)),
        Kind::Event => allowed(Range(0, 255), Range(24, 24), Range(0, 255)),
    }
}

fn allowed(id: Range, payload: Range, error: Range) -> KindRanges
    ensures { result ≡ record { id = id; payload = payload; error = error } }
{
    KindRanges { id, payload, error }
}
