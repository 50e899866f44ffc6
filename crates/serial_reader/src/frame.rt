// A frame whose tail was found, and the fields of its body.
ghost use Rattle.std.specs.Prelude.{◌≤◌, ◌≡◌, length, get_or};
ghost use Rattle.serial_rules.specs.Stuffing.{frame_scan};
ghost use Rattle.serial_rules.specs.Frames.{front_length, id_field, address_field};
ghost use Rattle.serial_rules.specs.declared.Stop.TheVariants.{Ended};

use serial_fields::{address_length, id_length};
use serial_rules::{SerialLink, StartRow};

// The link, the row of the start byte, the bytes from ESC to the tail, and how many bytes the body has.
#[derive(Clone, Copy)]
pub(crate) struct Frame<'a> {
    pub link: SerialLink,
    pub row: StartRow,
    pub bytes: &'a [u8],
    pub count: usize,
    ghost ended: { (frame_scan bytes.now).stop ≡ Ended },
    ghost size: { count ≡ length (frame_scan bytes.now).body },
}

impl Frame<'_> {
    // How many bytes stand between the start byte and the data.
    pub(crate) fn front_length(&self) -> usize
        ensures { result ≡ front_length self.now.link self.now.row }
    {
        id_length(self.row) + address_length(self.link)
    }

    // The byte i of the body, or 0 past its end.
    pub(crate) fn byte(&self, i: usize) -> u8
        ensures { result ≡ get_or (frame_scan self.now.bytes.now).body i 0 }
    {
        if self.count <= i {
            return 0;
        }
        self.bytes[self.skip(i)]
    }

    // The ID; an event has none and reads as 255.
    #[tactic(auto, unfolding(serial_rules::specs::Frames::id_field))]
    pub(crate) fn id(&self) -> u8
        ensures { result ≡ id_field self.now.row (frame_scan self.now.bytes.now).body }
    {
        if id_length(self.row) == 0 {
            255
        } else {
            self.byte(0)
        }
    }

    // The source (0) or the destination (1); UART carries none, and it reads as 0.
    #[tactic(auto, unfolding(serial_rules::specs::Frames::address_field))]
    pub(crate) fn address(&self, i: usize) -> u8
        requires { i ≤ 1 }
        ensures { result ≡ address_field self.now.link self.now.row (frame_scan self.now.bytes.now).body i }
    {
        if address_length(self.link) == 0 {
            0
        } else {
            self.byte(id_length(self.row) + i)
        }
    }
}
