// Runs a script from an open file, line by line.
use crate::call::Call;
use crate::state::State;
use crate::{call, events, lines, plain, print, round, sending, state, unit};
use std::io;
use std::io::{Print, Read};

// Makes the calls of a script, one to a line, and writes one line for each to standard output.
pub(crate) fn run(rt: &impl Print, script: &mut impl Read) -> io::Result<()> {
    let mut kept = state::empty();
    let mut lines = lines::start();
    // The count only bounds the loop, beyond any script.
    for _ in 0..u64::MAX {
        lines.advance(script);
        run_line(rt, lines.line(), &mut kept)?;
        if lines.is_last() {
            break;
        }
    }
    Ok(())
}

// An empty line and a comment are no calls.
fn run_line(rt: &impl Print, line: Option<&[u8]>, kept: &mut State) -> io::Result<()> {
    let Some(line) = line else {
        return print::bad_line(rt);
    };
    if line.is_empty() || line.starts_with(b"#") {
        return Ok(());
    }
    let mut space = [0u8; 8192];
    match call::read(line, &mut space) {
        Some(call) => make(rt, call, kept),
        None => print::bad_line(rt),
    }
}

fn make(rt: &impl Print, call: Call<'_>, kept: &mut State) -> io::Result<()> {
    match call {
        Call::Read { link, room, bytes } => plain::read(rt, link, room, bytes),
        Call::Write {
            link,
            message,
            room,
            payload,
        } => plain::write(rt, link, message, room, payload),
        Call::Records {
            count,
            message,
            payload,
        } => plain::records(rt, count, message, payload),
        Call::Unit { link, own, store } => unit::make(rt, link, own, store, kept),
        Call::Receive { room, bytes, store } => unit::receive(rt, room, bytes, store, kept),
        Call::Work { store } => unit::work(rt, store, kept),
        Call::Store => unit::store(rt, kept),
        Call::File { bytes } => sending::file(rt, bytes, kept),
        Call::Sender {
            link,
            source,
            destination,
            size,
            job,
        } => {
            sending::start(
                rt,
                sender::start(link, source, destination, size, job),
                kept,
            )
        }
        Call::Request { room } => sending::request(rt, room, kept),
        Call::Answer { bytes } => sending::answer(rt, bytes, kept),
        Call::Round(round) => round::make(rt, round, kept),
        Call::Log { bytes } => events::log(rt, bytes, kept),
        Call::LogMore { times, bytes } => events::log_more(rt, times, bytes, kept),
        Call::EventRead => events::read(rt, kept),
        Call::EventWrite { room, event } => events::write(rt, room, event),
        Call::EventFilter { room, filter } => events::filter(rt, room, filter, kept),
        Call::EventReport => events::report(rt, kept),
    }
}
