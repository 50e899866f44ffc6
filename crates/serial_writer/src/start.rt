// The start byte of a written frame, and what its link carries.
ghost use Rattle.std.specs.Prelude.{◌≡◌};
ghost use Rattle.serial_rules.specs.Frames.{start_byte, row_of, serial_carries};

use message_rules::{Carries, Kind};
use serial_fields::{Rs485, Uart};
use serial_rules::{SerialLink, StartRow};

pub(crate) fn start_byte(link: SerialLink, row: StartRow) -> u8
    ensures { result ≡ start_byte link row }
{
    match link {
        SerialLink::Uart => match row {
            StartRow::Request => Uart::REQUEST,
            StartRow::Reply => Uart::REPLY,
            StartRow::Nack => Uart::NACK,
            StartRow::Event => Uart::EVENT,
        },
        SerialLink::Rs485 => match row {
            StartRow::Request => Rs485::REQUEST,
            StartRow::Reply => Rs485::REPLY,
            StartRow::Nack => Rs485::NACK,
            // RS485 has no event: this is never written.
            StartRow::Event => 0,
        },
    }
}

pub(crate) fn row_of(kind: Kind) -> StartRow
    ensures { result ≡ row_of kind }
{
    match kind {
        Kind::Telecommand | Kind::TelemetryRequest => StartRow::Request,
        Kind::TelecommandAck | Kind::TelemetryResponse => StartRow::Reply,
        Kind::TelecommandNack | Kind::TelemetryNack => StartRow::Nack,
        Kind::Event => StartRow::Event,
    }
}

pub(crate) fn serial_carries(link: SerialLink) -> Carries
    ensures { result ≡ serial_carries link }
{
    match link {
        SerialLink::Uart => Carries {
            events: true,
            errors: true,
        },
        SerialLink::Rs485 => Carries {
            events: false,
            errors: true,
        },
    }
}
