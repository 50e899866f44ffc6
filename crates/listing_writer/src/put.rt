// Text over the start of a lent output. What lies past the output's end is counted and not stored, so that one walk serves to count a text and to
// store it.
ghost use Rattle.std.specs.Prelude.{[], ◌∷◌};
ghost use Rattle.text_rules.specs.Numbers.{decimal};
ghost use Rattle.listing_writer.specs.Put.{HasRoom, Puts};

// A lent output, and the place where the text goes on.
#[derive(Drop)]
pub(crate) struct Text<'a> {
    pub(crate) out: &'a mut [u8],
    pub(crate) at: usize,
}

impl Text<'_> {
    // One compare and one store: a slice of each byte was slower (measured: a stream of acks).
    #[tactic(auto, using(crate::proofs::Storing::sets_out))]
    pub(crate) fn put_byte(&mut self, byte: u8)
        requires { HasRoom (byte ∷ []) self.old }
        ensures { Puts (byte ∷ []) self.old self.new }
    {
        let at = self.at;
        if at < self.out.len() {
            self.out[at] = byte;
        }
        self.at = at + 1;
    }

    #[tactic(auto, using(crate::proofs::Storing::sets_out, crate::proofs::Storing::put_room))]
    pub(crate) fn put(&mut self, text: &[u8])
        requires { HasRoom text.now self.old }
        ensures { Puts text.now self.old self.new }
    {
        let at = self.at;
        let next = at + text.len();
        if at < self.out.len() {
            let end = next.min(self.out.len());
            self.out[at..end].copy_from_slice(&text[..end - at]);
        }
        self.at = next;
    }

    // Puts a number in digits.
    pub(crate) fn put_decimal(&mut self, n: usize)
        requires { HasRoom (decimal n) self.old }
        ensures { Puts (decimal n) self.old self.new }
    {
        if 10 <= n {
            self.put_decimal(n / 10);
        }
        self.put_byte(b'0' + (n % 10) as u8);
    }
}
