// Reading a message on any of the four links. The rule is `specs/Link.antt` of `link_rules`.
#![tactic(auto)]

ghost use Rattle.std.specs.Prelude.{◌≡◌};
ghost use Rattle.message_rules.specs.Answer.{read_result, within, counted, output_after};
ghost use Rattle.link_rules.specs.Link.{link_read};

use link_rules::Link;
use message_rules::{Message, Refusal};
use serial_rules::SerialLink;

// Reads a message; its payload goes to the start of out.
#[tactic(auto, unfolding(link_rules::specs::Link::link_read))]
pub fn read(link: Link, bytes: &[u8], out: &mut [u8]) -> Result<(Message, usize), Refusal>
    ensures result_value { read_result result ≡ counted (within out.old (link_read link bytes.now)) }
    ensures out_after { out.new ≡ output_after (within out.old (link_read link bytes.now)) out.old }
{
    match link {
        Link::Uart => serial_reader::read(SerialLink::Uart, bytes, out),
        Link::Rs485 => serial_reader::read(SerialLink::Rs485, bytes, out),
        Link::Can => can_reader::read(bytes, out),
        Link::Csp => csp_reader::read(bytes, out),
    }
}
