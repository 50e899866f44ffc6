// One line of the listing.
ghost use Rattle.std.specs.Prelude.{◌≤◌, ◌≡◌};
ghost use Rattle.message_rules.specs.Answer.{refused, given, counted, refusal_number};
ghost use Rattle.serial_rules.specs.Frames.{frame_read};
ghost use Rattle.listing_rules.specs.Lines.{id_of, code_of, line, kind_text, name_text, field_text, spaced, line_text};
ghost use Rattle.listing_writer.specs.Put.{HasRoom, Puts};

use crate::put::Text;
use listing_rules::Line;
use message_rules::{Kind, Message, Refusal};
use serial_rules::SerialLink;

// The line of a complete frame: what the reader says of it. A payload that passes the reader's checks has at most 256 bytes.
pub(crate) fn read_line(at: usize, frame: &[u8]) -> Line
    ensures { result ≡ line at (counted (frame_read SerialLink.Uart frame.now)) }
{
    let mut payload = [0u8; 256];
    match serial_reader::read(SerialLink::Uart, frame, &mut payload) {
        Err(refusal) => refused_line(at, refusal),
        Ok((message, size)) => message_line(at, message, size),
    }
}

// The line of a frame that is refused.
#[tactic(auto, unfolding(listing_rules::specs::Lines::line))]
pub(crate) fn refused_line(at: usize, refusal: Refusal) -> Line
    ensures { result ≡ line at (refused (refusal_number refusal)) }
{
    Line {
        at,
        name: None,
        id: None,
        len: None,
        code: Some(message_fields::refusal_number(refusal) as usize),
    }
}

// The line of a frame that reads as a message with a payload of this size.
#[tactic(auto, unfolding(listing_rules::specs::Lines::line))]
fn message_line(at: usize, message: Message, size: usize) -> Line
    requires { size ≤ 256 }
    ensures { result ≡ line at (given message size) }
{
    Line {
        at,
        name: Some(message.kind),
        id: id_of(message),
        len: Some(message_kinds::error_length(message.kind) + size),
        code: code_of(message),
    }
}

// An event has no ID.
#[tactic(auto, unfolding(listing_rules::specs::Lines::id_of))]
fn id_of(message: Message) -> Option<usize>
    ensures { result ≡ id_of message }
{
    (!message_kinds::is_event(message.kind)).then_some(message.id as usize)
}

// Acks and nacks have an error byte.
#[tactic(auto, unfolding(listing_rules::specs::Lines::code_of))]
fn code_of(message: Message) -> Option<usize>
    ensures { result ≡ code_of message }
{
    let error = message_fields::error_number(message.error) as usize;
    (1 <= message_kinds::error_length(message.kind)).then_some(error)
}

#[tactic(auto, using(crate::proofs::Parts::line_size))]
pub(crate) fn put_line(text: &mut Text, line: Line)
    requires { HasRoom (line_text line) text.old }
    ensures { Puts (line_text line) text.old text.new }
{
    text.put_decimal(line.at);
    put_name(text, line.name);
    put_field(text, line.id);
    put_field(text, line.len);
    put_field(text, line.code);
    text.put_byte(b'\n');
}

// The name after the offset.
fn put_name(text: &mut Text, name: Option<Kind>)
    requires { HasRoom (spaced (name_text name)) text.old }
    ensures { Puts (spaced (name_text name)) text.old text.new }
{
    text.put_byte(b' ');
    text.put(name_word(name));
}

// A field after another.
fn put_field(text: &mut Text, field: Option<usize>)
    requires { HasRoom (spaced (field_text field)) text.old }
    ensures { Puts (spaced (field_text field)) text.old text.new }
{
    text.put_byte(b' ');
    match field {
        Some(n) => text.put_decimal(n),
        None => text.put_byte(b'-'),
    }
}

fn name_word(name: Option<Kind>) -> &'static [u8]
    ensures { result.now ≡ name_text name }
{
    match name {
        Some(kind) => kind_word(kind),
        None => b"refused",
    }
}

fn kind_word(kind: Kind) -> &'static [u8]
    ensures { result.now ≡ kind_text kind }
{
    match kind {
        Kind::Telecommand => b"tc",
        Kind::TelecommandAck => b"tcack",
        Kind::TelecommandNack => b"tcnack",
        Kind::TelemetryRequest => b"tlmreq",
        Kind::TelemetryResponse => b"tlmrsp",
        Kind::TelemetryNack => b"tlmnack",
        Kind::Event => b"event",
    }
}
