// The calls that keep nothing.
use crate::print::Hex;
use crate::{print, records};
use can_rules::CanFrame;
use link_rules::Link;
use message_rules::{Message, Refusal};
use std::io;
use std::io::Print;

pub(crate) fn read(rt: &impl Print, link: Link, room: usize, bytes: &[u8]) -> io::Result<()> {
    let mut space = [0xA5u8; 1024];
    let out = print::front(&mut space, room);
    match link_reader::read(link, bytes, out) {
        Ok((message, length)) => print::message(rt, &message, length)?,
        Err(refusal) => print::refused(rt, refusal)?,
    }
    print::last(rt, out)
}

pub(crate) fn write(
    rt: &impl Print,
    link: Link,
    message: Message,
    room: usize,
    payload: &[u8],
) -> io::Result<()> {
    let mut space = [0xA5u8; 1024];
    let out = print::front(&mut space, room);
    print::count(rt, link_writer::write(link, message, payload, out))?;
    print::last(rt, out)
}

pub(crate) fn records(
    rt: &impl Print,
    count: usize,
    message: Message,
    payload: &[u8],
) -> io::Result<()> {
    let mut frames = [untouched(); 64];
    let written = records::write(message, payload, &mut frames, count);
    print::count(rt, written)?;
    for frame in frames.iter().take(count) {
        print_record(rt, frame)?;
    }
    print::end_line(rt)
}

// A lent record before the call.
fn untouched() -> CanFrame {
    CanFrame {
        identifier: 0xA5A5_A5A5,
        dlc: 0xA5,
        data: [0xA5; 8],
    }
}

// ` IDENTIFIER:DLC:DATA`
fn print_record(rt: &impl Print, frame: &CanFrame) -> io::Result<()> {
    print!(rt;
        " {}:{}:{}",
        Hex(&frame.identifier.to_be_bytes()),
        frame.dlc,
        Hex(&frame.data)
    )
}
