// The loss report call, arq.rs `on_nak_event`: 01, "Window", with refusals 1 to 4 and 12.
ghost use Rattle.std.specs.Prelude.{◌≡◌};
ghost use Rattle.feedback.specs.Loss.{loss_ended, after_report, reported_of, report_call_of};
ghost use Rattle.feedback.specs.Ready.{ReportReady};

use head::left::Left;
use head::refusal::Refusal;
use head::state::Head;
use window_report::report::ListShort;

// How many words the report has, if there is one.
pub type Reported = Left<Option<usize>>;

// A list that is short leaves the head; all else moves it on.
fn after_report(h: Head, report: Result<Option<usize>, ListShort>, time: i64) -> Reported
    ensures { result ≡ after_report h report time }
{
    match report {
        Ok(words) => Reported {
            head: h.with_latest(time),
            answer: Ok(words),
        },
        Err(refusal) => Reported::refused(h, Refusal::from(refusal)),
    }
}

// The call, once nothing refuses it.
fn report(h: Head, words: &mut [u64], list: &mut [u32], time: i64) -> Reported
    requires { ReportReady h words.old }
    ensures { loss_ended result words.new list.new ≡ reported_of h words.old list.old time }
{
    let report = window_report::report::loss_report(h.window, words, list, time, h.rtt.mean);
    after_report(h, report, time)
}

pub fn on_nak_event(h: Head, words: &mut [u64], list: &mut [u32], time: i64) -> Reported
    ensures { loss_ended result words.new list.new ≡ report_call_of h words.old list.old time }
{
    if let Err(refusal) = head::refuse::report(h, words.len(), time) {
        return Reported::refused(h, refusal);
    }
    report(h, words, list, time)
}
