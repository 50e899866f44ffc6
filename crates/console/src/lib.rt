// What the programs take and say: their arguments, what the arguments name, bytes that are read until a buffer is full, and a file that can't be
// opened.
//
// No contract can say what is read or written.
#![tactic(auto)]

ghost use Rattle.std.specs.Prelude.{◌≡◌, ◌≤◌, length};
ghost use Rattle.std.specs.Counts.{IsPrefixLen};

use std::env::{Env, FillError};
use std::fs::Files;
use std::io::{ErrorKind, Input, Print, Read, Write};
use std::{fs, io, str};

// 4,096 zeros, which hold the name of any file.
pub fn buffer() -> [u8; 4096]
    ensures { 4096 ≡ length result }
{
    [0; 4096]
}

// What a program does with each input that its arguments name.
pub trait Program {
    fn run(&self, out: &impl Print, input: &mut impl Read) -> io::Result<()>;
}

// Runs a program on the inputs that its arguments name, in their order: on standard input where there are none.
pub fn run(
    rt: &(impl Env + Files + Input + Print),
    errors: &impl Print,
    program: &impl Program,
) -> io::Result<()> {
    let count = arg_count(rt);
    if count < 2 {
        return program.run(rt, &mut rt.reader());
    }
    for i in 1..count {
        run_argument(rt, errors, program, i)?;
    }
    Ok(())
}

// `-` is standard input.
fn run_argument(
    rt: &(impl Env + Files + Input + Print),
    errors: &impl Print,
    program: &impl Program,
    i: usize,
) -> io::Result<()> {
    let mut name = buffer();
    let length = arg(rt, i, &mut name);
    if &name[..length] == b"-".as_slice() {
        return program.run(rt, &mut rt.reader());
    }
    run_file(rt, errors, program, &name[..length])
}

// Runs a program on a file, under the file's name. One that can't be opened is told, and leaves the others to run.
fn run_file(
    rt: &(impl Files + Print),
    errors: &impl Print,
    program: &impl Program,
    name: &[u8],
) -> io::Result<()> {
    match open(rt, name) {
        Ok(mut file) => {
            rt.write_all(name)?;
            rt.write_all(b"\n")?;
            program.run(rt, &mut file)
        }
        Err(error) => {
            fail(errors, name, error);
            Ok(())
        }
    }
}

// How many arguments the program was started with, its own name among them.
pub fn arg_count(env: &impl Env) -> usize {
    for i in 0..usize::MAX {
        if is_missing(env, i) {
            return i;
        }
    }
    usize::MAX
}

fn is_missing(env: &impl Env, i: usize) -> bool {
    matches!(env.arg(i, &mut []), Err(FillError::NotPresent))
}

// Puts argument i at the start of a buffer and answers its length, 0 where it is missing or longer than the buffer.
pub fn arg(env: &impl Env, i: usize, buffer: &mut [u8]) -> usize
    ensures { IsPrefixLen result buffer.new }
{
    env.arg(i, buffer).unwrap_or(0)
}

// Opens the file of this name to read it. std's paths are text, so a name that is not UTF-8 names no file.
pub fn open<R: Files>(files: &R, name: &[u8]) -> io::Result<R::File> {
    let path = str::from_utf8(name).map_err(|_| io::Error::new(
        ErrorKind::InvalidFilename,
        "not a name in UTF-8",
    ))?;
    fs::open(files, path)
}

// Reads until the buffer is full, the input ends or a read fails, and answers how many bytes lie at its start. By hand, since std's `read_exact`
// does not say how many bytes came before the input's end.
pub fn read_full(input: &mut impl Read, buffer: &mut [u8]) -> usize
    ensures { IsPrefixLen result buffer.new }
{
    let mut done = 0;
    while done < buffer.len() {
        let n = read_some(input, &mut buffer[done..]);
        if n == 0 {
            break;
        }
        done += n;
    }
    done
}

// One read. One that fails reads nothing, as at the input's end.
pub fn read_some(input: &mut impl Read, buffer: &mut [u8]) -> usize
    ensures { IsPrefixLen result buffer.new }
{
    input.read(buffer).unwrap_or(0)
}

// A line on standard error: what failed, and why. Where that can't be written, nothing is left to be told.
pub fn fail(errors: &impl Print, what: &[u8], error: io::Error) {
    let _ = complain(errors, what, error);
}

fn complain(errors: &impl Print, what: &[u8], error: io::Error) -> io::Result<()> {
    let mut text = [0u8; 512];
    let n = words(error, &mut text);
    errors.write_all(what)?;
    errors.write_all(b": ")?;
    errors.write_all(&text[..n])?;
    errors.write_all(b"\n")
}

// Puts an error's text at the start of a buffer, without the number that std puts behind it in brackets, and answers its length.
fn words(error: io::Error, text: &mut [u8]) -> usize
    ensures { IsPrefixLen result text.new }
{
    let size = text.len();
    let mut rest: &mut [u8] = text;
    let _ = write!(rest, "{error}");
    let length = size.saturating_sub(rest.len());
    before_number(&text[..length])
}

fn before_number(text: &[u8]) -> usize
    ensures { result ≤ length text.now }
{
    text.windows(2)
        .position(|two| two == b" (".as_slice())
        .unwrap_or(text.len())
}
