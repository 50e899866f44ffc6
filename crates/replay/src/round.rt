// A round between the sender and the unit that a script keeps.
use crate::print;
use crate::state::State;
use device::Device;
use round_rules::{Fate, Round};
use sender_rules::Sender;
use std::io;
use std::io::Print;

// round WORK FATE
pub(crate) fn make(rt: &impl Print, round: Round, kept: &mut State) -> io::Result<()> {
    let Some(sender) = kept.sender else {
        return print::none_line(rt);
    };
    let Some(unit) = &mut kept.unit else {
        return print::none_line(rt);
    };
    let before = unit.device;
    let file = kept.file.as_slice();
    let rounded = upload_round::round(before, sender, round, file, unit.store.as_mut_slice());
    unit.device = rounded.device;
    kept.sender = Some(rounded.sender);
    match rounded.verdict {
        Ok(()) => print_exchange(rt, round, before, sender, file, unit.store.len())?,
        Err(refusal) => print::refused(rt, refusal)?,
    }
    print::unit(rt, &rounded.device)?;
    print::sender(rt, &rounded.sender)?;
    print::end_line(rt)
}

// `REQUEST FIRST SECOND` of a round that passed. A round does not hand out its bytes: they are those of the same calls, made once more with unit and
// sender as they were before it, and a store of the same length.
fn print_exchange(
    rt: &impl Print,
    round: Round,
    before: Device,
    sender: Sender,
    file: &[u8],
    length: usize,
) -> io::Result<()> {
    let mut bytes = [0u8; 4096];
    let store = print::front(&mut bytes, length);
    let device = begun(before, round.worked, store);
    let mut space = [0u8; 1024];
    let length = sender::request(sender, file, &mut space).map_or(0, |sent| sent.unwrap_or(0));
    let request = space.get(..length).unwrap_or(&[]);
    print::bytes(rt, request)?;
    let arrivals = arrivals(round.fate, request);
    let once = print_answer(rt, arrivals >= 1, request, device, store)?;
    print_answer(rt, arrivals >= 2, request, once, store)?;
    Ok(())
}

// After the work step, or rest.
fn begun(device: Device, works: bool, store: &mut [u8]) -> Device {
    if !works {
        return device;
    }
    device::work(device, store).unwrap_or(device)
}

// How often a request arrives: one of no bytes was not sent.
fn arrivals(fate: Fate, request: &[u8]) -> usize {
    if request.is_empty() {
        return 0;
    }
    match fate {
        Fate::RequestLost => 0,
        Fate::Delivered | Fate::AnswerLost => 1,
        Fate::Twice => 2,
    }
}

// ` ANSWER` of an arrival, and the unit after it. ` -` where there is none.
fn print_answer(
    rt: &impl Print,
    arrives: bool,
    request: &[u8],
    device: Device,
    store: &[u8],
) -> io::Result<Device> {
    if !arrives {
        print!(rt; " -")?;
        return Ok(device);
    }
    let mut space = [0u8; 1024];
    let received = device::receive(device, request, store, &mut space);
    let length = received.outcome.map_or(0, |told| told.unwrap_or(0));
    print::output(rt, space.get(..length).unwrap_or(&[]))?;
    Ok(received.device)
}
