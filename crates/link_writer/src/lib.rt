// Writing a message on any of the four links. The rule is `specs/Link.antt` of `link_rules`.
#![tactic(auto)]

ghost use Rattle.std.specs.Prelude.{◌≡◌};
ghost use Rattle.message_rules.specs.Answer.{write_result, within, counted, output_after};
ghost use Rattle.link_rules.specs.Link.{link_write};

use link_rules::Link;
use message_rules::{Message, Refusal};
use serial_rules::SerialLink;

// Writes a message with its payload to the start of out.
#[tactic(auto, unfolding(link_rules::specs::Link::link_write))]
pub fn write(link: Link, message: Message, payload: &[u8], out: &mut [u8]) -> Result<usize, Refusal>
    ensures result_value { write_result result ≡ counted (within out.old (link_write link message payload.now)) }
    ensures out_after { out.new ≡ output_after (within out.old (link_write link message payload.now)) out.old }
{
    match link {
        Link::Uart => serial_writer::write(SerialLink::Uart, message, payload, out),
        Link::Rs485 => serial_writer::write(SerialLink::Rs485, message, payload, out),
        Link::Can => can_writer::write(message, payload, out),
        Link::Csp => csp_writer::write(message, payload, out),
    }
}
