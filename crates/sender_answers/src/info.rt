// A frame info, at B and at D.
ghost use Rattle.std.specs.Prelude.{◌≡◌};
ghost use Rattle.sender_rules.specs.Hearing.{info_meaning};

use sender_rules::{Meaning, Stage};

// The error flag ends it, whatever else the frame info says. Otherwise its size and its checksum are to be those of the frame at B, and its number the
// frame's at D.
#[tactic(auto, unfolding(sender_rules::specs::Hearing::info_meaning, sender_rules::specs::Hearing::informed, sender_rules::specs::Hearing::compared, sender_rules::specs::Hearing::confirmed))]
pub(crate) fn info_meaning(stage: Stage, file: &[u8], frame: u32, info: &[u8]) -> Meaning
    ensures { result ≡ info_meaning stage file.now frame info.now }
{
    let &[n0, n1, s0, s1, c0, c1, flags] = info else {
        return Meaning::Stay;
    };
    match stage {
        Stage::Setup | Stage::Frame | Stage::Back | Stage::Take => Meaning::Stay,
        Stage::Compare | Stage::Confirm if flags / 2 % 2 == 1 => Meaning::Flagged,
        Stage::Compare => {
            let part = file_frames::file_frame(file, frame);
            if little_endian::u16_from_bytes(s0, s1) as usize == part.len()
                && little_endian::u16_from_bytes(c0, c1) == file_checksum::checksum(part)
            {
                Meaning::Forward
            } else {
                Meaning::Differs
            }
        }
        Stage::Confirm if little_endian::u16_from_bytes(n0, n1) as u32 == frame => Meaning::Forward,
        Stage::Confirm => Meaning::Stay,
    }
}
