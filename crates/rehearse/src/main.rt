// rehearse: uploads files on each link as a job, round by round until the sender ends, and compares the store with the file; then the same job is
// started again. Each goes twice: with every round good, and with rounds of every kind in turn. An argument names a file; one that is a number
// stands for so many made-up bytes.
#![tactic(auto)]

mod course;
mod exchange;
mod input;
mod print;
mod progress;
mod rehearsal;
mod run;
mod space;

use course::Course;
use link_rules::Link;
use rehearsal::Rehearsal;
use std::env::Env;
use std::fs::Files;
use std::io;
use std::io::{IsTerminal, Print};

// One byte more than a file may have, so that a file too long can be tried.
const LONGEST: u32 = 16776961;

fn main(rt: HostRuntime) -> io::Result<()> {
    let mut file = space::space();
    let mut store = space::space();
    let count = console::arg_count(&rt);
    if count < 2 {
        return print::usage(&rt);
    }
    for i in 1..count {
        argument(&rt, &rt.stderr(), i, &mut file, &mut store)?;
    }
    Ok(())
}

fn argument(
    rt: &(impl Env + Files + Print),
    errors: &(impl Print + IsTerminal),
    i: usize,
    file: &mut [u8],
    store: &mut [u8],
) -> io::Result<()> {
    let mut word = console::buffer();
    match rt.arg(i, &mut word) {
        Ok(n) => one_word(rt, errors, &word[..n], file, store),
        Err(_) => println!(rt; "a name of more than 4,096 bytes"),
    }
}

// A number is a length, whatever files there are. Everything else is a file's name.
fn one_word(
    rt: &(impl Files + Print),
    errors: &(impl Print + IsTerminal),
    word: &[u8],
    file: &mut [u8],
    store: &mut [u8],
) -> io::Result<()> {
    if input::is_number(word) {
        return made_up(rt, errors, word, file, store);
    }
    named(rt, errors, word, file, store)
}

// A file of so many made-up bytes.
fn made_up(
    rt: &impl Print,
    errors: &(impl Print + IsTerminal),
    word: &[u8],
    file: &mut [u8],
    store: &mut [u8],
) -> io::Result<()> {
    let Some(size) = text_numbers::number(word, LONGEST) else {
        return println!(rt; "bad length");
    };
    let bytes = space::front_mut(file, size as usize);
    space::fill(bytes);
    println!(rt; "{size} bytes")?;
    every_link(rt, errors, bytes, store)
}

// The file of this name.
fn named(
    rt: &(impl Files + Print),
    errors: &(impl Print + IsTerminal),
    name: &[u8],
    file: &mut [u8],
    store: &mut [u8],
) -> io::Result<()> {
    rt.write_all(name)?;
    match input::read(rt, name, file) {
        Ok(n) => length(rt, errors, space::front(file, n), store),
        Err(_) => println!(rt; ": cannot be read"),
    }
}

// A length that no sender takes is said in one line.
fn length(
    rt: &impl Print,
    errors: &(impl Print + IsTerminal),
    file: &[u8],
    store: &mut [u8],
) -> io::Result<()> {
    let n = file.len();
    if n == 0 {
        print!(rt; ": empty, ")?;
        return rehearsal::start_only(rt, n);
    }
    if n >= LONGEST as usize {
        print!(rt; ": more than 16,776,960 bytes, ")?;
        return rehearsal::start_only(rt, n);
    }
    println!(rt; ": {n} bytes")?;
    every_link(rt, errors, file, store)
}

fn every_link(
    rt: &impl Print,
    errors: &(impl Print + IsTerminal),
    file: &[u8],
    store: &mut [u8],
) -> io::Result<()> {
    for link in [Link::Uart, Link::Rs485, Link::Can, Link::Csp] {
        for course in [Course::Good, Course::Mixed] {
            Rehearsal { link, course }.run(rt, errors, file, store)?;
        }
    }
    Ok(())
}
