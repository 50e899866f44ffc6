// The 13 bytes of a frame: the identifier, the DLC, the data and zeros to its end.
ghost use Rattle.std.specs.Prelude.{◌≤◌, ◌≡◌, [], ◌∷◌, ◌++◌, length};
ghost use Rattle.can_rules.specs.Can.{data_size, part_size, series_type, identifier, can_frame};

use can_rules::FRAME_SIZE;
use message_kinds::is_event;
use message_rules::Message;

// The type in a series for a kind's type: a tc's 1 becomes 7, a tlmrsp's 5 becomes 8, an event's 9 stays.
#[tactic(auto, unfolding(can_rules::specs::Can::series_type))]
pub(crate) fn series_type(number: u8) -> u8
    ensures { result ≡ series_type number }
{
    match number {
        1 => 7,
        5 => 8,
        _ => number,
    }
}

// The identifier of this type. An event is written with ID 255, whatever its own.
#[tactic(auto, unfolding(can_rules::specs::Can::identifier))]
pub(crate) fn identifier(message: Message, number: u8) -> [u8; 4]
    ensures { result ≡ identifier number message }
{
    let id = if is_event(message.kind) {
        255
    } else {
        message.id
    };
    [message.destination, message.source, id, number]
}

pub(crate) fn frame(identifier: &[u8; 4], used: &[u8]) -> [u8; FRAME_SIZE]
    requires { length used.now ≤ data_size }
    ensures { result ≡ can_frame identifier.now used.now }
{
    let mut frame = [0; FRAME_SIZE];
    frame[..4].copy_from_slice(identifier);
    frame[4] = used.len() as u8;
    frame[5..5 + used.len()].copy_from_slice(used);
    frame
}

// A frame of a series: a part of the payload, and after it the count of frames still to come.
pub(crate) fn counted_frame(identifier: &[u8; 4], part: &[u8], count: u8) -> [u8; FRAME_SIZE]
    requires { length part.now ≤ part_size }
    ensures { result ≡ can_frame identifier.now (part.now ++ (count ∷ [])) }
{
    let used = part.len() + 1;
    let mut counted = frame(identifier, part);
    counted[4] = used as u8;
    counted[4 + used] = count;
    counted
}
