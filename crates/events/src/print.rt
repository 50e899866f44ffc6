// The report as text, on standard output: a line for each count, `WHAT: COUNT`. A refused log has one line.
use event_rules::EventReport;
use message_rules::Refusal;
use std::io;
use std::io::Print;

// The classes have their names of Table 51, and its order. Of the sources only those that occur have a line.
pub(crate) fn report(rt: &impl Print, records: usize, report: &EventReport) -> io::Result<()> {
    let [information, minor, major, critical] = report.classes;
    println!(rt; "records: {records}")?;
    println!(rt; "Critical: {critical}")?;
    println!(rt; "Major Warning: {major}")?;
    println!(rt; "Minor Warning: {minor}")?;
    println!(rt; "Information: {information}")?;
    for (source, count) in report.sources.iter().enumerate() {
        if *count > 0 {
            println!(rt; "source {source}: {count}")?;
        }
    }
    println!(rt; "out of order: {}", report.earlier)
}

// `refused N: MEANING`
pub(crate) fn refused(rt: &impl Print, refusal: Refusal) -> io::Result<()> {
    println!(rt;
        "refused {}: {}",
        message_fields::refusal_number(refusal),
        meaning(refusal)
    )
}

// What the refusals of a report mean; it has no others.
fn meaning(refusal: Refusal) -> &'static str {
    match refusal {
        Refusal::PartialRecord => "the length is not a multiple of 24",
        Refusal::IllegalMilliseconds => "a record has milliseconds above 999",
        Refusal::LogTooLong => "the log is longer than 65520 bytes",
        _ => "not an event log",
    }
}

pub(crate) fn unread(rt: &impl Print) -> io::Result<()> {
    println!(rt; "cannot be read")
}
