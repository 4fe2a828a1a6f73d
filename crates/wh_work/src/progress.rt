//! How far live tasks have come.

ghost use Rattle.std.specs.Prelude.{◌≡◌, ◌*◌, Some, option_map, unwrap_or};
ghost use Rattle.std.specs.Duration.{as_nanos};
ghost use Rattle.wh_work.specs.Progress.{line_as};

use crate::counting::nothing;
use crate::metrics_file::{FileReplacer, MetricsFile};
use crate::sources::SourceCounter;
use crate::turns::{Report, Turns};
use std::fmt;
use std::fmt::{Display, Formatter};
use std::sync::{Mutex, Wait};
use std::time::{Clock, Duration};
use wh_console::Format;
use wh_crew::LiveEnd;
use wh_host::{Companion, Counts, EndSignal};
use wh_metrics::{CountsLine, JsonLine, Metrics};
use wh_poll::{Served, SourceFault};
use wh_tester::Shown;

/// How long it is from one time to the next at which counts are kept, if they are not reported.
const KEPT_SECONDS: u64 = 10;

/// A report in a form.
#[derive(Clone, Copy)]
struct ReportLine {
    format: Format,
    report: Report,
}

impl Display for ReportLine {
    ghost output = { λ line. Some (line_as line.format line.report.metrics line.report.rate) };

    fn fmt<W: fmt::Write>(&self, f: &mut Formatter<W>) -> fmt::Result {
        let Report { metrics, rate } = self.report;
        match self.format {
            Format::Text => {
                let line = CountsLine { metrics, rate };
                write!(f, "{line}")
            }
            Format::Json => {
                let line = JsonLine { metrics, rate };
                write!(f, "{line}")
            }
        }
    }
}

/// The time in whole milliseconds of a clock that never goes back, 0 if there is none.
fn milliseconds<R: Clock>(rt: &R) -> u64 {
    match rt.monotonic() {
        Ok(time) => u64::try_from(time.as_millis()).unwrap_or(u64::MAX),
        Err(_) => 0,
    }
}

/// Reports from time to time what was counted, and what the host holds, and keeps it in a file, as
/// far as either is asked for.
#[derive(Drop)]
pub(crate) struct ProgressReporter<'a, 's, R> {
    rt: &'a R,
    /// What the program is called.
    name: &'a str,
    /// How long it is from one report to the next.
    period: Duration,
    /// In which form a line is written on standard error, if one is.
    lines: Option<Format>,
    /// Where the counts are kept, if they are.
    file: Option<MetricsFile<'a>>,
    /// What the sources have done.
    sources: &'s SourceCounter<'a, R>,
    turns: Mutex<Turns>,
}

impl<'a, 's, R: Wait + Clock> ProgressReporter<'a, 's, R> {
    /// One that begins now, for a program of a name. It reports in a form after so many seconds
    /// each, if it does, and keeps the counts in the file, if there is one: as often as it reports,
    /// and otherwise every ten seconds. What the sources do is counted beside it.
    pub(crate) fn new(
        rt: &'a R,
        name: &'a str,
        seconds: Option<u64>,
        format: Format,
        file: Option<MetricsFile<'a>>,
        sources: &'s SourceCounter<'a, R>,
    ) -> ProgressReporter<'a, 's, R>
        ensures period { as_nanos result.period ≡ unwrap_or seconds 10 * 1000000000 }
        ensures lines { result.lines ≡ option_map (λ _. format) seconds }
    {
        ProgressReporter {
            rt,
            name,
            period: Duration::from_secs(seconds.unwrap_or(KEPT_SECONDS)),
            lines: if seconds.is_some() {
                Some(format)
            } else {
                None
            },
            file,
            sources,
            turns: Mutex::new(Turns::new(milliseconds(rt))),
        }
    }
}

impl<R: Wait + Clock> ProgressReporter<'_, '_, R> {
    /// What is to be reported now. No turn is counted while it is read what the sources have done,
    /// so each answer whose turn counts is part of that.
    fn report_now(&self, counts: Option<Counts>) -> Report {
        let now = milliseconds(self.rt);
        let mut turns = self.turns.lock(self.rt);
        let sources = self.sources.now();
        turns.report(now, sources, counts)
    }
}

impl<R: Wait> ProgressReporter<'_, '_, R> {
    /// Counts a turn.
    pub(crate) fn count(&self, turn: Result<Served, SourceFault>) {
        self.turns.lock(self.rt).counts.add(turn);
    }

    /// Notes whether counts could not be kept, and says whether that is new.
    fn note(&self, unkept: bool) -> bool {
        let mut turns = self.turns.lock(self.rt);
        let before = turns.unkept;
        turns.unkept = unkept;
        unkept && !before
    }
}

impl<R: Wait + Eprint + FileReplacer + AllocGlobal> ProgressReporter<'_, '_, R> {
    /// Keeps counts in the file, if there is one. That it can't be written is reported once, until
    /// it can be written again.
    fn keep(&self, metrics: Metrics) {
        let Some(file) = &self.file else {
            return;
        };
        let why = file.write(self.rt, metrics);
        let is_new = self.note(why.is_some());
        if let (true, Some(why)) = (is_new, why) {
            let name = Shown(self.name);
            let path = file.path;
            let _ = eprintln!(self.rt; "{name}: cannot write {path}: {why}");
        }
    }

    /// Keeps that nothing is counted yet.
    pub(crate) fn begin(&self) {
        self.keep(nothing());
    }

    /// Keeps what was counted in all.
    pub(crate) fn end(&self, end: &LiveEnd) {
        let metrics = self.turns.lock(self.rt).end(end);
        self.keep(metrics);
    }

    /// Writes a line on standard error.
    fn tell(&self, format: Format, report: Report) {
        let line = ReportLine { format, report };
        let name = Shown(self.name);
        let _ = match format {
            Format::Text => eprintln!(self.rt; "{name}: {line}"),
            Format::Json => eprintln!(self.rt; "{line}"),
        };
    }
}

impl<R: Wait + Clock + Eprint + FileReplacer + AllocGlobal> Companion
    for ProgressReporter<'_, '_, R> {
    fn wait(&self, signal: &EndSignal) -> bool {
        signal.wait(self.rt, self.period)
    }

    /// Writes a line on standard error, and keeps the counts.
    fn report(&self, counts: Option<Counts>) {
        let report = self.report_now(counts);
        if let Some(format) = self.lines {
            self.tell(format, report);
        }
        self.keep(report.metrics);
    }
}
