// What the unit answers to a sender's request, by its error byte, which no sender keeps. The unit that is asked is a copy: the upload goes on with its
// own. Request and answer go through an array of 522 bytes each, which every message of every link fits.
use crate::{print, space};
use device::Device;
use link_rules::Link;
use sender_rules::Sender;
use std::io;
use std::io::Print;

pub(crate) fn show(
    rt: &impl Print,
    unit: Device,
    sender: Sender,
    file: &[u8],
    store: &[u8],
) -> io::Result<()> {
    let mut request = [0u8; 522];
    match sender::request(sender, file, &mut request) {
        Ok(Some(n)) => ask(rt, unit, space::front(&request, n), store),
        Ok(None) => print!(rt; "nothing to send, "),
        Err(_) => print!(rt; "no request, "),
    }
}

fn ask(rt: &impl Print, unit: Device, request: &[u8], store: &[u8]) -> io::Result<()> {
    let mut answer = [0u8; 522];
    match device::receive(unit, request, store, &mut answer).outcome {
        Ok(Some(n)) => read(rt, unit.link, space::front(&answer, n)),
        Ok(None) | Err(_) => print!(rt; "no answer, "),
    }
}

fn read(rt: &impl Print, link: Link, answer: &[u8]) -> io::Result<()> {
    let mut payload = [0u8; 256];
    match link_reader::read(link, answer, &mut payload) {
        Ok((message, _)) => print::answer(rt, message.error),
        Err(_) => print!(rt; "no answer, "),
    }
}
