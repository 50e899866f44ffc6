// The calls of a unit.
use crate::print;
use crate::state::{Bytes, State, Unit};
use arrayvec::ArrayVec;
use link_rules::Link;
use message_rules::Refusal;
use std::io;
use std::io::Print;

// unit LINK OWN STORELEN
pub(crate) fn make(
    rt: &impl Print,
    link: Link,
    own: u8,
    length: usize,
    kept: &mut State,
) -> io::Result<()> {
    match device::make(link, own) {
        Ok(device) => {
            kept.unit = Some(Unit {
                device,
                store: untouched(length),
            });
            print::ok_line(rt)
        }
        Err(refusal) => print::refused_line(rt, refusal),
    }
}

// A store of so many bytes A5.
fn untouched(length: usize) -> Bytes {
    let mut store: Bytes = ArrayVec::new();
    let bytes = [0xA5u8; 4096];
    // A store has no more bytes: the line would be bad.
    let _ = store.try_extend_from_slice(&bytes[..length.min(4096)]);
    store
}

// receive OUTLEN BYTES, and a STORELEN or none: a store of so many bytes is lent to this call alone.
pub(crate) fn receive(
    rt: &impl Print,
    room: usize,
    bytes: &[u8],
    lent: Option<usize>,
    kept: &mut State,
) -> io::Result<()> {
    let Some(unit) = &mut kept.unit else {
        return print::none_line(rt);
    };
    let mut space = [0xA5u8; 1024];
    let out = print::front(&mut space, room);
    let received = match lent {
        Some(length) => device::receive(unit.device, bytes, untouched(length).as_slice(), out),
        None => device::receive(unit.device, bytes, unit.store.as_slice(), out),
    };
    match received.outcome {
        Ok(Some(n)) => print!(rt; "answer {n}")?,
        Ok(None) => print!(rt; "silent")?,
        Err(refusal) => print::refused(rt, refusal)?,
    }
    print::output(rt, out)?;
    unit.device = received.device;
    shown(rt, unit)
}

// work, with a STORELEN or none, as above
pub(crate) fn work(rt: &impl Print, lent: Option<usize>, kept: &mut State) -> io::Result<()> {
    let Some(unit) = &mut kept.unit else {
        return print::none_line(rt);
    };
    let pending = unit.device.transfer.pending;
    let worked = match lent {
        Some(length) => device::work(unit.device, untouched(length).as_mut_slice()),
        None => device::work(unit.device, unit.store.as_mut_slice()),
    };
    match worked {
        Ok(device) => {
            unit.device = device;
            print::text(rt, if pending { "stored" } else { "nothing" })?;
        }
        Err(refusal) => print::refused(rt, refusal)?,
    }
    shown(rt, unit)
}

// store
pub(crate) fn store(rt: &impl Print, kept: &State) -> io::Result<()> {
    match &kept.unit {
        Some(unit) => print::bytes_line(rt, unit.store.as_slice()),
        None => print::none_line(rt),
    }
}

// ` UNIT` and the line's end.
fn shown(rt: &impl Print, unit: &Unit) -> io::Result<()> {
    print::unit(rt, &unit.device)?;
    print::end_line(rt)
}
