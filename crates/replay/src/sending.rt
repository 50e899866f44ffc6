// The calls of a sender, and its file.
use crate::print;
use crate::state::State;
use message_rules::Refusal;
use sender_rules::Sender;
use std::io;
use std::io::Print;

// file BYTES
pub(crate) fn file(rt: &impl Print, bytes: &[u8], kept: &mut State) -> io::Result<()> {
    kept.file.clear();
    // A file has no more bytes than it takes: the line would be bad.
    let _ = kept.file.try_extend_from_slice(bytes);
    print::ok_line(rt)
}

// sender LINK SOURCE DESTINATION LENGTH, and a JOB or none
pub(crate) fn start(
    rt: &impl Print,
    started: Result<Sender, Refusal>,
    kept: &mut State,
) -> io::Result<()> {
    match started {
        Ok(sender) => {
            kept.sender = Some(sender);
            print::ok_line(rt)
        }
        Err(refusal) => print::refused_line(rt, refusal),
    }
}

// request OUTLEN
pub(crate) fn request(rt: &impl Print, room: usize, kept: &State) -> io::Result<()> {
    let Some(sender) = kept.sender else {
        return print::none_line(rt);
    };
    let mut space = [0xA5u8; 1024];
    let out = print::front(&mut space, room);
    match sender::request(sender, kept.file.as_slice(), out) {
        Ok(Some(n)) => print!(rt; "request {n}")?,
        Ok(None) => print!(rt; "nothing")?,
        Err(refusal) => print::refused(rt, refusal)?,
    }
    print::last(rt, out)
}

// answer BYTES
pub(crate) fn answer(rt: &impl Print, bytes: &[u8], kept: &mut State) -> io::Result<()> {
    let Some(sender) = kept.sender else {
        return print::none_line(rt);
    };
    let next = match sender::hear(sender, kept.file.as_slice(), bytes) {
        Ok(next) => {
            print!(rt; "ok")?;
            next
        }
        Err(refusal) => {
            print::refused(rt, refusal)?;
            sender
        }
    };
    kept.sender = Some(next);
    print::sender(rt, &next)?;
    print::end_line(rt)
}
