// frames: lists the frames of the UART streams that its arguments name. `-` is standard input, and so is no argument at all.
#![tactic(auto)]

mod stream;

use console::Program;
use std::io;
use std::io::{Print, Read};

struct Listing;

impl Program for Listing {
    fn run(&self, out: &impl Print, input: &mut impl Read) -> io::Result<()> {
        stream::print_listing(out, input)
    }
}

fn main(rt: HostRuntime) -> io::Result<()> {
    console::run(&rt, &rt.stderr(), &Listing)
}
