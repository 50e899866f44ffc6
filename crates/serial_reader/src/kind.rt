// The ID decides between the two kinds of a row.
ghost use Rattle.std.specs.Prelude.{◌≡◌};
ghost use Rattle.serial_rules.specs.Frames.{by_id, kind_of};

use message_rules::Kind;
use serial_rules::StartRow;

// The kind of a row and an ID; an event has no ID.
#[tactic(auto, unfolding(serial_rules::specs::Frames::kind_of))]
pub(crate) fn kind_of(row: StartRow, id: u8) -> Option<Kind>
    ensures { result ≡ kind_of row id }
{
    match row {
        StartRow::Request => by_id(id, Kind::Telecommand, Kind::TelemetryRequest),
        StartRow::Reply => by_id(id, Kind::TelecommandAck, Kind::TelemetryResponse),
        StartRow::Nack => by_id(id, Kind::TelecommandNack, Kind::TelemetryNack),
        StartRow::Event => Some(Kind::Event),
    }
}

#[tactic(auto, unfolding(serial_rules::specs::Frames::by_id))]
fn by_id(id: u8, telecommand: Kind, telemetry: Kind) -> Option<Kind>
    ensures { result ≡ by_id id telecommand telemetry }
{
    match id {
        0..=127 => Some(telecommand),
        128..=254 => Some(telemetry),
        255 => None,
    }
}
