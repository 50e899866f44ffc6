// Records in an array, for the call `records`: the library fills a lent list, and `replay` keeps 64 records in an array.
ghost use Rattle.std.specs.Prelude.{◌≡◌};
ghost use Rattle.message_rules.specs.Answer.{write_result};
ghost use Rattle.can_rules.specs.Records.{records_write, fitting, records_counted, filled};
ghost use Rattle.replay.specs.LentCount.{lent_count};

use can_rules::CanFrame;
use message_rules::{Message, Refusal};

// Lends the first so many records to the library; a larger count lends all.
pub(crate) fn write(
    message: Message,
    payload: &[u8],
    frames: &mut [CanFrame; 64],
    count: usize,
) -> Result<usize, Refusal>
    ensures result_value { write_result result ≡ records_counted (fitting (lent_count count) (records_write message payload.now)) }
    ensures frames_after { frames.new ≡ filled (fitting (lent_count count) (records_write message payload.now)) frames.old }
{
    let n = lent_count(count);
    can_records::write(message, payload, &mut frames[..n])
}

// How many of the 64 are lent.
fn lent_count(count: usize) -> usize
    ensures { result ≡ lent_count count }
{
    count.min(64)
}
