// The listing of what an open file gives, on standard output.
//
// No contract can say what is read or written. What lies between is `listed`: the listing of the bytes that were read, whole.
ghost use Rattle.std.specs.Prelude.{◌≤◌, ◌≡◌, length, take};
ghost use Rattle.std.specs.Counts.{IsPrefixLen};
ghost use Rattle.listing_rules.specs.Listing.{listing, longest};

use std::io;
use std::io::{Print, Read};

// One byte more than may be listed, so that a longer input is seen.
const INPUT: usize = 65537;

// The longest listing.
const TEXT: usize = 655380;

// Lists what is read from an open file: all of it, or as much as shows that it is too long.
pub(crate) fn print_listing(rt: &impl Print, input: &mut impl Read) -> io::Result<()> {
    let mut bytes = input_space();
    let n = console::read_full(input, &mut bytes);
    print_listed(rt, &bytes[..n])
}

// Apart from the reading, so that the space for the text is cleared once: beside the input it was cleared on entry too (measured: a short file).
fn print_listed(rt: &impl Print, bytes: &[u8]) -> io::Result<()> {
    let mut text = text_space();
    let length = listed(bytes, &mut text);
    rt.write_all(&text[..length])
}

// Puts the listing over the start of an output that has room for every listing.
fn listed(bytes: &[u8], out: &mut [u8]) -> usize
    requires { longest ≤ length out.old }
    ensures prefix_len { IsPrefixLen result out.new }
    ensures out_after { take result out.new ≡ listing bytes.now }
{
    listing_writer::list(bytes, out).unwrap()
}

fn input_space() -> [u8; INPUT]
    ensures { 65537 ≡ length result }
{
    [0; INPUT]
}

fn text_space() -> [u8; TEXT]
    ensures { longest ≡ length result }
{
    [0; TEXT]
}
