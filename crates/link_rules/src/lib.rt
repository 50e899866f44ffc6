// The four links as one type. The rules of reading and writing by link are `specs/Link.antt`; `proofs/RoundTrip.antt` has the round trips
// over every link, and `proofs/Laws.antt` what a caller needs to know of a link. The code is `link_reader` and `link_writer`.
#![tactic(auto)]

#[derive(Clone, Copy)]
pub enum Link {
    Uart,
    Rs485,
    Can,
    Csp,
}
