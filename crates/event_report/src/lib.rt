// The report over an event log, in one pass. The rules are `event_rules`'s: `Reports`.
#![tactic(auto)]

ghost use Rattle.std.specs.Prelude.{◌+◌, ◌*◌, ◌≤◌, ◌≡◌, length};
ghost use Rattle.message_rules.specs.Answer.{given, after, verdict_result, value_result, value_after};
ghost use Rattle.event_rules.specs.Records.{longest_log};
ghost use Rattle.event_rules.specs.Logs.{entries, entry_checks};
ghost use Rattle.event_rules.specs.Reports.{report_of, event_report, no_report};

use event_fields::record_in;
use event_rules::{EventRecord, EventReport, RECORD_SIZE, ReportAnswer};
use message_rules::Refusal;

// Counts the records of a log by class and by source, and those that are earlier than the record before. The counts stand beside the verdict, since it is
// promised what they are on a refusal too.
#[tactic(auto, unfolding(message_rules::specs::Answer::after, message_rules::specs::Answer::verdict_result, message_rules::specs::Answer::value_result, message_rules::specs::Answer::value_after))]
pub fn report(log: &[u8]) -> ReportAnswer
    ensures counts_value { after (verdict_result result.verdict) (given result.counts tt) ≡ event_report log.now }
    ensures counts_value_2 { result.counts ≡ value_after no_report (event_report log.now) }
{
    match counted(log) {
        Ok(counts) => ReportAnswer {
            counts,
            verdict: Ok(()),
        },
        Err(refusal) => ReportAnswer {
            counts: no_counts(),
            verdict: Err(refusal),
        },
    }
}

// Nothing is counted beside a refusal.
#[tactic(auto, unfolding(event_rules::specs::Logs::kept, event_rules::specs::Reports::counts, event_rules::specs::Reports::class_counts, event_rules::specs::Reports::source_counts, event_rules::specs::Reports::earlier_count, event_rules::specs::Reports::report_of, event_rules::specs::Reports::no_report))]
fn no_counts() -> EventReport
    ensures { result ≡ no_report }
{
    EventReport {
        classes: [0; 4],
        sources: [0; 32],
        earlier: 0,
    }
}

// The counts, or why the log is refused.
#[tactic(auto, unfolding(message_rules::specs::Answer::verdict_result, message_rules::specs::Answer::value_result, message_rules::specs::Answer::after, message_rules::specs::Answer::require, event_rules::specs::Logs::length_checks, event_rules::specs::Logs::log_checks, event_rules::specs::Reports::event_report))]
fn counted(log: &[u8]) -> Result<EventReport, Refusal>
    ensures { value_result result ≡ event_report log.now }
{
    event_checks::check_length(log.len())?;
    count_records(log)
}

// The same, of a log that is not too long, so that no count is beyond its bits.
#[tactic(auto, using(event_rules::proofs::Choices::class_below, event_rules::proofs::Choices::source_below))]
fn count_records(log: &[u8]) -> Result<EventReport, Refusal>
    requires { length log.now ≤ longest_log }
    ensures { value_result result ≡ after (entry_checks log.now) (given (report_of (entries log.now)) tt) }
{
    let mut classes = [0u32; 4];
    let mut sources = [0u32; 32];
    let mut earlier = 0;
    // Nothing is earlier than this, so the first record is not.
    let mut before = 0;
    for entry in log.chunks_exact(RECORD_SIZE) {
        let event = record_in(entry);
        if !event_checks::in_second(event) {
            return Err(Refusal::IllegalMilliseconds);
        }
        let class = event_fields::event_class(event) as usize;
        classes[class] += 1;
        let source = event_fields::event_source(event) as usize;
        sources[source] += 1;
        let time = time_of(event);
        earlier += u32::from(time < before);
        before = time;
    }
    Ok(EventReport {
        classes,
        sources,
        earlier,
    })
}

// Seconds, then milliseconds, as one number: the earlier, the smaller. A pair of the two was slower (measured: 2,730 records).
fn time_of(event: EventRecord) -> u64
    ensures { result ≡ event.seconds * 65536 + event.milliseconds }
{
    u64::from(event.seconds) * 65536 + u64::from(event.milliseconds)
}
