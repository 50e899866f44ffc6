// The setup's payload (document 02, ticket 5): reading it, and writing it. The rules are `specs/Setup.antt` of `file_rules`.
#![tactic(auto)]

ghost use Rattle.std.specs.Prelude.{◌≡◌};
ghost use Rattle.file_rules.specs.Setup.{setup_read, setup_bytes};

use file_rules::{Announcement, SETUP_LENGTH};

// What a setup's payload says.
pub fn read(payload: &[u8]) -> Option<Announcement>
    ensures { result ≡ setup_read payload.now }
{
    if payload.len() != SETUP_LENGTH {
        return None;
    }
    Some(Announcement {
        size: little_endian::u32_from_bytes(payload[0], payload[1], payload[2], payload[3]),
        number: little_endian::u32_from_bytes(payload[4], payload[5], payload[6], payload[7]),
    })
}

// The payload of a setup for a file of this size and a job of this number.
#[tactic(auto, unfolding(file_rules::specs::Setup::setup_bytes, little_endian_rules::specs::LittleEndian::to_bytes))]
pub fn write(size: u32, number: u32) -> [u8; SETUP_LENGTH]
    ensures { result ≡ setup_bytes size number }
{
    let [s0, s1, s2, s3] = little_endian::u32_to_bytes(size);
    let [n0, n1, n2, n3] = little_endian::u32_to_bytes(number);
    [s0, s1, s2, s3, n0, n1, n2, n3]
}
