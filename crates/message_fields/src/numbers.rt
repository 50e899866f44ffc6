// The number of a refusal, and the number of an error byte. The rules are definitions of `message_rules`: `Answer` and `Data`.
ghost use Rattle.std.specs.Prelude.{◌≡◌};
ghost use Rattle.message_rules.specs.Answer.{refusal_number};
ghost use Rattle.message_rules.specs.Data.{error_number};

use message_rules::Refusal;

// The number that documents 01 and 02 give it.
pub fn refusal_number(refusal: Refusal) -> u8
    ensures { result ≡ refusal_number refusal }
{
    refusal as u8
}

// The byte on a link that carries it; 0 where it is not told, which such a link never writes.
pub fn error_number(error: Option<u8>) -> u8
    ensures { result ≡ error_number error }
{
    error.unwrap_or(0)
}
