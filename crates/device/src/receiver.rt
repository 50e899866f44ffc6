// Bytes that arrive at the unit, and what it answers. A function takes what its part of the reply needs of unit, message, payload and output.
ghost use Rattle.std.specs.Prelude.{◌≡◌, length};
ghost use Rattle.message_rules.specs.Answer.{given, within, about, counted, output_after};
ghost use Rattle.link_rules.specs.Link.{link_write};
ghost use Rattle.device_rules.specs.Answers.{receive_result, after_receive};
ghost use Rattle.device_rules.specs.Receive.{answers, addressing, answer_source, answer_to, info_bytes, command_answer, telecommand_reply, telemetry_reply, message_reply, receive};
ghost use Rattle.device.specs.Gives.{Gives};

use device_rules::{Addressing, Device, Fault, Phase, Received, Transfer};
use link_rules::Link;
use message_rules::{Kind, Message};

// Takes bytes that arrived while a store is lent; an answer goes to the start of out. Answered or not, the unit may have changed.
pub fn receive(device: Device, bytes: &[u8], store: &[u8], out: &mut [u8]) -> Received
    ensures device_value { receive_result result.outcome result.device ≡ counted (within out.old (receive device (length store.now) bytes.now)) }
    ensures device_value_2 { result.device ≡ after_receive device (within out.old (receive device (length store.now) bytes.now)) }
    ensures out_after { out.new ≡ output_after (within out.old (receive device (length store.now) bytes.now)) out.old }
{
    let mut payload = [0; 256];
    let Ok((message, length)) = link_reader::read(device.link, bytes, &mut payload) else {
        return silence(device);
    };
    message_reply(device, store.len(), message, &payload[..length], out)
}

fn silence(device: Device) -> Received
    ensures { result ≡ record { device = device; outcome = Ok None } }
{
    Received {
        device,
        outcome: Ok(None),
    }
}

// A message that is the unit's is answered by its kind, a telecommand and a telemetry request alone. A broadcast gets no answer, whatever it does: a telecommand
// is carried out, unless it has a fault, and everything else is passed over, as another's message is.
#[tactic(auto, unfolding(device_rules::specs::Receive::message_reply, device_rules::specs::Receive::addressed_reply, device_rules::specs::Receive::kind_reply, device_rules::specs::Receive::after_broadcast, device_rules::specs::Answers::receive_result, device_rules::specs::Answers::after_receive, message_rules::specs::Answer::within, message_rules::specs::Answer::require, message_rules::specs::Answer::after, message_rules::specs::Answer::counted, message_rules::specs::Answer::output_after))]
fn message_reply(
    device: Device,
    store: usize,
    message: Message,
    payload: &[u8],
    out: &mut [u8],
) -> Received
    ensures { Gives device out.old (message_reply device store (given message payload.now)) result out.new }
{
    match (addressing(device.link, device.own, message), message.kind) {
        (Addressing::Own, Kind::Telecommand) => {
            telecommand_reply(device, store, message, payload, out)
        }
        (Addressing::Own, Kind::TelemetryRequest) => telemetry_reply(device, message, out),
        (Addressing::Broadcast, Kind::Telecommand) => {
            silence(device_commands::after_command(device, store, message.id, payload))
        }
        _ => silence(device),
    }
}

#[tactic(auto, unfolding(device_rules::specs::Receive::addressing))]
fn addressing(link: Link, own: u8, message: Message) -> Addressing
    ensures { result ≡ addressing link own message }
{
    match link {
        Link::Rs485 if message.destination == 0 => Addressing::Broadcast,
        Link::Rs485 if message.destination != own => Addressing::Other,
        Link::Uart | Link::Rs485 | Link::Can | Link::Csp => Addressing::Own,
    }
}

// The answer is written first, and the command carried out then: so no second unit is kept beside the one that came. The fault is looked at twice, for the
// answer and for the command.
fn telecommand_reply(
    device: Device,
    store: usize,
    message: Message,
    payload: &[u8],
    out: &mut [u8],
) -> Received
    ensures { Gives device out.old (telecommand_reply device store message payload.now) result out.new }
{
    let fault = device_faults::command_fault(device, store, message.id, payload);
    let answer = command_answer(device, message, fault);
    match link_writer::write(device.link, answer, &[], out) {
        Ok(n) => Received {
            device: device_commands::after_command(device, store, message.id, payload),
            outcome: Ok(Some(n)),
        },
        Err(refusal) => Received {
            device,
            outcome: Err(refusal),
        },
    }
}

#[tactic(auto, unfolding(device_rules::specs::Receive::command_answer))]
fn command_answer(device: Device, request: Message, fault: Option<Fault>) -> Message
    ensures { result ≡ command_answer device request fault }
{
    match fault {
        None | Some(Fault::Repeat) => answer_to(device, request, Kind::TelecommandAck, 0, 0),
        Some(Fault::Nack(error, index)) => {
            answer_to(device, request, Kind::TelecommandNack, error, index)
        }
    }
}

// The unit stays as it is.
#[tactic(auto, unfolding(device_rules::specs::Receive::telemetry_reply))]
fn telemetry_reply(device: Device, message: Message, out: &mut [u8]) -> Received
    ensures { Gives device out.old (telemetry_reply device message) result out.new }
{
    if message.id != 150 {
        let answer = answer_to(device, message, Kind::TelemetryNack, 1, 0);
        return send(device, answer, &[], out);
    }
    let answer = answer_to(device, message, Kind::TelemetryResponse, 0, 0);
    send(device, answer, &info_bytes(device.transfer), out)
}

// Writes the answer of a unit that stays as it is.
fn send(device: Device, answer: Message, payload: &[u8], out: &mut [u8]) -> Received
    ensures { Gives device out.old (about (answers device) (link_write device.link answer payload.now)) result out.new }
{
    Received {
        device,
        outcome: link_writer::write(device.link, answer, payload, out).map(Some),
    }
}

// The answer to a request: of a kind, with an error byte and an index.
#[tactic(auto, unfolding(device_rules::specs::Receive::answer_to))]
fn answer_to(device: Device, request: Message, kind: Kind, error: u8, index: u8) -> Message
    ensures { result ≡ answer_to device request kind error index }
{
    Message {
        kind,
        id: request.id,
        source: answer_source(device.link, device.own, request),
        destination: request.source,
        error: Some(error),
        index,
    }
}

#[tactic(auto, unfolding(device_rules::specs::Receive::answer_source))]
fn answer_source(link: Link, own: u8, request: Message) -> u8
    ensures { result ≡ answer_source link own request }
{
    match link {
        Link::Rs485 => own,
        Link::Uart | Link::Can | Link::Csp => request.destination,
    }
}

// Number, size and checksum of the buffered frame, and the flags. Bit 0 is finished; the unit never sets bit 1, the error.
#[tactic(auto, unfolding(device_rules::specs::Receive::info_bytes, little_endian_rules::specs::LittleEndian::to_bytes, device_rules::specs::Device::buffered_frame))]
fn info_bytes(transfer: Transfer) -> [u8; 7]
    ensures { result ≡ info_bytes transfer }
{
    let length = device_state::buffered_length(transfer);
    let [n0, n1] = little_endian::u16_to_bytes(transfer.number);
    let [s0, s1] = little_endian::u16_to_bytes(length as u16);
    let [c0, c1] = little_endian::u16_to_bytes(file_checksum::checksum(&transfer.buffer[..length]));
    let flags = u8::from(transfer.phase == Phase::Finished);
    [n0, n1, s0, s1, c0, c1, flags]
}
