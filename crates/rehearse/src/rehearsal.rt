// One upload: a job from its start to its end, and the same job started again.
use crate::course::Course;
use crate::run::Ran;
use crate::{exchange, print, progress, run, space};
use device::Device;
use link_rules::Link;
use message_rules::Refusal;
use sender_rules::Sender;
use std::io;
use std::io::{IsTerminal, Print};

const SENDER: u8 = 1;

const UNIT: u8 = 31;

// Each upload has a unit of its own, so all of them can have the same job.
const JOB: u32 = 7;

// How an upload goes.
#[derive(Clone, Copy)]
pub(crate) struct Rehearsal {
    pub link: Link,
    pub course: Course,
}

impl Rehearsal {
    // A refused start ends it.
    pub(crate) fn run(
        self,
        rt: &impl Print,
        errors: &(impl Print + IsTerminal),
        file: &[u8],
        store: &mut [u8],
    ) -> io::Result<()> {
        self.heading(rt, "")?;
        match started(self.link, file.len()) {
            Ok(first) => {
                let unit = self.first_run(rt, errors, first, file, store)?;
                self.heading(rt, " again")?;
                exchange::show(rt, unit, first, file, store)?;
                self.to_the_end(rt, errors, unit, first, file, store)?;
                Ok(())
            }
            Err(refusal) => print::refused(rt, refusal),
        }
    }

    // What is uploaded now.
    fn heading(self, rt: &impl Print, again: &str) -> io::Result<()> {
        let name = match self.link {
            Link::Uart => "uart",
            Link::Rs485 => "rs485",
            Link::Can => "can",
            Link::Csp => "csp",
        };
        let how = match self.course {
            Course::Good => "",
            Course::Mixed => " with losses",
        };
        print!(rt; "{name}{how}{again}: ")
    }

    // The job at an idle unit, which gets its setup from the sender; gives the unit that it leaves.
    fn first_run(
        self,
        rt: &impl Print,
        errors: &(impl Print + IsTerminal),
        first: Sender,
        file: &[u8],
        store: &mut [u8],
    ) -> io::Result<Device> {
        space::clear(space::front_mut(store, file.len()));
        // Refused for address 0 alone.
        let unit = device::make(self.link, UNIT).unwrap();
        self.to_the_end(rt, errors, unit, first, file, store)
    }

    // The unit that the rounds leave. A refused round ends them, and is printed.
    fn to_the_end(
        self,
        rt: &impl Print,
        errors: &(impl Print + IsTerminal),
        unit: Device,
        first: Sender,
        file: &[u8],
        store: &mut [u8],
    ) -> io::Result<Device> {
        let ran = run::run(errors, unit, first, self.course, file, store);
        progress::clear(errors, ran.count);
        print_end(rt, &ran, space::front(store, file.len()) == file)?;
        Ok(ran.device)
    }
}

fn started(link: Link, size: usize) -> Result<Sender, Refusal> {
    sender::start(link, SENDER, UNIT, size, Some(JOB))
}

fn print_end(rt: &impl Print, ran: &Ran, same: bool) -> io::Result<()> {
    match ran.verdict {
        Err(refusal) => print::refused_round(rt, ran.count, refusal),
        Ok(()) => {
            print::sender(rt, ran.sender)?;
            print::compared(rt, same)
        }
    }
}

// The start alone, of a file that no sender takes.
pub(crate) fn start_only(rt: &impl Print, size: usize) -> io::Result<()> {
    match started(Link::Uart, size) {
        Ok(_) => println!(rt; "started"),
        Err(refusal) => print::refused(rt, refusal),
    }
}
