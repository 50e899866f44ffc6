// What is printed.
use message_rules::Refusal;
use round_rules::State;
use sender_rules::Sender;
use std::io;
use std::io::Print;

pub(crate) fn usage(rt: &impl Print) -> io::Result<()> {
    println!(rt; "usage: rehearse FILE..")?;
    println!(rt;
        "uploads each file on uart, rs485, can and csp, with every round good and with losses, starts the same job again, and compares the store with the file."
    )?;
    println!(rt;
        "A number in place of a file stands for so many made-up bytes: 300 is a length, and ./300 a file."
    )
}

// What a setup was answered, by the error byte: 0 is an ack's, and a nack on CAN tells none.
pub(crate) fn answer(rt: &impl Print, error: Option<u8>) -> io::Result<()> {
    match error {
        Some(0) => print!(rt; "setup acked, "),
        Some(n) => print!(rt; "setup refused with {n}, "),
        None => print!(rt; "setup refused without a number, "),
    }
}

// The last of so many rounds was refused.
pub(crate) fn refused_round(rt: &impl Print, count: u32, refusal: Refusal) -> io::Result<()> {
    print!(rt; "round {count} ")?;
    refused(rt, refusal)
}

pub(crate) fn refused(rt: &impl Print, refusal: Refusal) -> io::Result<()> {
    println!(rt; "refused {}", message_fields::refusal_number(refusal))
}

// How a sender ended, the frames that it knows stored, and its rounds.
pub(crate) fn sender(rt: &impl Print, sender: Sender) -> io::Result<()> {
    let ended = match sender.state {
        State::Running => "still running",
        State::Finished => "finished",
        State::GivenUp => "given up",
    };
    print!(rt;
        "{ended}, frames {}, rounds {}, ",
        sender::frames_known(sender),
        sender.rounds
    )
}

pub(crate) fn compared(rt: &impl Print, same: bool) -> io::Result<()> {
    if same {
        return println!(rt; "the store holds the file");
    }
    println!(rt; "THE STORE DOES NOT HOLD THE FILE")
}
