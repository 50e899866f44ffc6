// replay: puts the library's calls on text lines. A script has one call to a line, and each line is answered by one. It runs the scripts that its
// arguments name, each from an empty start. `-` is standard input, and so is no argument at all. docs/REPLAY.md describes scripts and prints.
#![tactic(auto)]

mod call;
mod events;
mod lines;
mod names;
mod plain;
mod print;
mod records;
mod round;
mod run;
mod sending;
mod state;
mod unit;
mod words;

use console::Program;
use std::io;
use std::io::{Print, Read};

struct Replay;

impl Program for Replay {
    fn run(&self, out: &impl Print, script: &mut impl Read) -> io::Result<()> {
        run::run(out, script)
    }
}

fn main(rt: HostRuntime) -> io::Result<()> {
    console::run(&rt, &rt.stderr(), &Replay)
}
