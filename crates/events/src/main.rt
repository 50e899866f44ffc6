// events: reports on the event logs that its arguments name. `-` is standard input, and so is no argument at all.
#![tactic(auto)]

mod log;
mod print;

use console::Program;
use std::io;
use std::io::{Print, Read};

struct Report;

impl Program for Report {
    fn run(&self, out: &impl Print, input: &mut impl Read) -> io::Result<()> {
        log::print_report(out, input)
    }
}

fn main(rt: HostRuntime) -> io::Result<()> {
    console::run(&rt, &rt.stderr(), &Report)
}
