// What document 01 settles for each serial link and both directions: ESC and the tail, the start bytes, what stands in front of the data,
// and the source. The rules are `serial_rules`'s.
#![tactic(auto)]

ghost use Rattle.std.specs.Prelude.{◌≡◌};
ghost use Rattle.serial_rules.specs.Stuffing.{esc, tail_byte};
ghost use Rattle.serial_rules.specs.Frames.{start_row, id_length, address_length, source_legal};

use serial_rules::{SerialLink, StartRow};

// UART's ESC, tail and start bytes.
#[derive(Clone, Copy)]
pub struct Uart;

impl Uart {
    pub const ESC: u8 = 0x1F;

    pub const TAIL: u8 = 0xFF;

    pub const REQUEST: u8 = 0x7F;

    pub const REPLY: u8 = 0x07;

    pub const NACK: u8 = 0x0F;

    pub const EVENT: u8 = 0x2F;
}

// RS485's; it has no event.
#[derive(Clone, Copy)]
pub struct Rs485;

impl Rs485 {
    pub const ESC: u8 = 0x1F;

    pub const TAIL: u8 = 0xFF;

    pub const REQUEST: u8 = 0x80;

    pub const REPLY: u8 = 0x08;

    pub const NACK: u8 = 0x10;
}

// The ESC of a link. Both have the same.
pub fn escape(link: SerialLink) -> u8
    ensures { result ≡ esc }
{
    match link {
        SerialLink::Uart => Uart::ESC,
        SerialLink::Rs485 => Rs485::ESC,
    }
}

// The byte after the last ESC of a frame. Both links have the same.
pub fn tail(link: SerialLink) -> u8
    ensures { result ≡ tail_byte }
{
    match link {
        SerialLink::Uart => Uart::TAIL,
        SerialLink::Rs485 => Rs485::TAIL,
    }
}

// The row of a start byte of a link.
#[tactic(auto, unfolding(serial_rules::specs::Frames::start_row))]
pub fn start_row(link: SerialLink, start: u8) -> Option<StartRow>
    ensures { result ≡ start_row link start }
{
    match link {
        SerialLink::Uart => match start {
            Uart::REQUEST => Some(StartRow::Request),
            Uart::REPLY => Some(StartRow::Reply),
            Uart::NACK => Some(StartRow::Nack),
            Uart::EVENT => Some(StartRow::Event),
            _ => None,
        },
        SerialLink::Rs485 => match start {
            Rs485::REQUEST => Some(StartRow::Request),
            Rs485::REPLY => Some(StartRow::Reply),
            Rs485::NACK => Some(StartRow::Nack),
            _ => None,
        },
    }
}

// How many bytes the ID takes: an event has none.
pub fn id_length(row: StartRow) -> usize
    ensures { result ≡ id_length row }
{
    match row {
        StartRow::Request | StartRow::Reply | StartRow::Nack => 1,
        StartRow::Event => 0,
    }
}

// How many bytes source and destination take, which stand after the ID: UART has neither.
pub fn address_length(link: SerialLink) -> usize
    ensures { result ≡ address_length link }
{
    match link {
        SerialLink::Uart => 0,
        SerialLink::Rs485 => 2,
    }
}

#[tactic(auto, unfolding(serial_rules::specs::Frames::source_legal))]
pub fn source_legal(link: SerialLink, source: u8) -> bool
    ensures { result ≡ source_legal link source }
{
    match link {
        SerialLink::Uart => true,
        SerialLink::Rs485 => 0 < source,
    }
}
