// The calls of an event log.
use crate::print;
use crate::state::{MOST_LOG, State};
use event_rules::{EventRecord, Filter};
use std::io;
use std::io::Print;

// log BYTES
pub(crate) fn log(rt: &impl Print, bytes: &[u8], kept: &mut State) -> io::Result<()> {
    kept.log.clear();
    log_more(rt, 1, bytes, kept)
}

// log-more TIMES BYTES: puts the bytes so many times behind the log. A log that would be too long is a bad line.
pub(crate) fn log_more(
    rt: &impl Print,
    times: usize,
    bytes: &[u8],
    kept: &mut State,
) -> io::Result<()> {
    let room = MOST_LOG - kept.log.len();
    // A quotient, since the product could be too large.
    if !bytes.is_empty() && room / bytes.len() < times {
        return print::bad_line(rt);
    }
    for _ in 0..times {
        // There is room.
        let _ = kept.log.try_extend_from_slice(bytes);
    }
    print::ok_line(rt)
}

// event-read
pub(crate) fn read(rt: &impl Print, kept: &State) -> io::Result<()> {
    match event_reader::read(kept.log.as_slice()) {
        Ok(event) => print::event(rt, &event)?,
        Err(refusal) => print::refused(rt, refusal)?,
    }
    print::end_line(rt)
}

// event-write OUTLEN COUNTER UPTIME UNIX MILLISECONDS IDENTIFIER DATA
pub(crate) fn write(rt: &impl Print, room: usize, event: EventRecord) -> io::Result<()> {
    let mut space = [0xA5u8; 1024];
    let out = print::front(&mut space, room);
    print::count(rt, event_writer::write(event, out))?;
    print::last(rt, out)
}

// event-filter OUTLEN CLASSES SOURCES FILTER
pub(crate) fn filter(rt: &impl Print, room: usize, filter: Filter, kept: &State) -> io::Result<()> {
    let mut space = [0xA5u8; 1024];
    let out = print::front(&mut space, room);
    print::count(rt, event_filter::filter(filter, kept.log.as_slice(), out))?;
    print::last(rt, out)
}

// event-report
pub(crate) fn report(rt: &impl Print, kept: &State) -> io::Result<()> {
    let answer = event_report::report(kept.log.as_slice());
    match answer.verdict {
        Ok(()) => print::report(rt, &answer.counts)?,
        Err(refusal) => print::refused(rt, refusal)?,
    }
    print::end_line(rt)
}
