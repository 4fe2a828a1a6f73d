//! What is found of promises, as text and as JSON.
ghost use Rattle.std.specs.Prelude.{◌≡◌, IfOk, length, string_bytes};
ghost use Rattle.wh_table_check.specs.PromiseTexts.{later_jobs, shown_steps, jobs_in, more_jobs, jobs_text, doubt_text, broken_text, verdict_text, outcome_text, promise_line};
ghost use Rattle.wh_table_check.specs.PromiseTexts.{step_line, step_lines, more_line, scenario_lines, way_lines, promise_lines, each_text, list_line, findings_text};
ghost use Rattle.wh_table_check.specs.PromiseTexts.{breach_detail, outcome_detail, list_words, has_none, promises_member};
ghost use Rattle.wh_table_check.specs.PromiseTexts.{step_json, later_step, later_steps, steps_json, shortest_json};
ghost use Rattle.wh_table_check.specs.PromiseTexts.{outcome_word, breach_members, detail_members, outcome_members};
ghost use Rattle.wh_table_check.specs.PromiseTexts.{finding_json, later_finding, later_findings, each_json, findings_json};

use std::alloc::{AllocError, Global};
use wh_row_rules::{
    Breach, Doubt, PhraseFinding, PromiseFinding, PromiseFindings, PromiseVerdict, WayStep,
};
use wh_tester::{EscapedName, Shown};

/// The most steps of a path that a text shows.
const MOST_STEPS: usize = 100;

/// The jobs of steps, with a semicolon in front of each.
fn later_jobs(alloc: Global, steps: &[WayStep]) -> Result<String, AllocError>
    ensures { IfOk result (λ text. string_bytes text ≡ later_jobs steps.now) }
{
    let mut text = String::new(alloc);
    for step in steps {
        text.push_str("; ")?;
        text.push_str(step.job.get())?;
    }
    Ok(text)
}

/// The steps that a text shows of a path.
fn shown_steps(way: &[WayStep]) -> &[WayStep]
    ensures { result.now ≡ shown_steps way.now }
{
    if way.len() <= MOST_STEPS {
        way
    } else {
        &way[..MOST_STEPS]
    }
}

/// The jobs of the steps of a path, with a semicolon between each and the next.
fn jobs_in(alloc: Global, way: &[WayStep]) -> Result<String, AllocError>
    ensures { IfOk result (λ text. string_bytes text ≡ jobs_in way.now) }
{
    let [first, others @ ..] = way else {
        return Ok(String::new(alloc));
    };
    let job = first.job.get();
    let later = later_jobs(alloc, others)?;
    format!(in alloc; "{job}{later}")
}

/// How many steps are not shown, behind those that are; nothing if all are.
fn more_jobs(alloc: Global, way: &[WayStep]) -> Result<String, AllocError>
    ensures { IfOk result (λ text. string_bytes text ≡ more_jobs (length way.now)) }
{
    if way.len() <= MOST_STEPS {
        return Ok(String::new(alloc));
    }
    let more = way.len() - MOST_STEPS;
    format!(in alloc; "; and {more} more")
}

/// The jobs of a path that a text shows, and how many more there are.
fn jobs_text(alloc: Global, way: &[WayStep]) -> Result<String, AllocError>
    ensures { IfOk result (λ text. string_bytes text ≡ jobs_text way.now) }
{
    let jobs = jobs_in(alloc, shown_steps(way))?;
    let more = more_jobs(alloc, way)?;
    format!(in alloc; "{jobs}{more}")
}

/// Why a promise is not decided.
fn doubt_text(doubt: Doubt) -> &'static str
    ensures { result.now ≡ doubt_text doubt }
{
    match doubt {
        Doubt::TooMany => "more than 200000 configurations",
        Doubt::ByName => "it may depend on the name of the run",
    }
}

/// That a promise is broken, and whether fewer jobs may do it too.
fn broken_text(is_shortest: bool) -> &'static str
    ensures { result.now ≡ broken_text is_shortest }
{
    if is_shortest {
        "broken by: "
    } else {
        "broken, perhaps by fewer jobs too, by: "
    }
}

/// What is said of a verdict.
fn verdict_text(alloc: Global, verdict: &PromiseVerdict) -> Result<String, AllocError>
    ensures { IfOk result (λ text. string_bytes text ≡ verdict_text verdict.now) }
{
    match verdict {
        PromiseVerdict::Kept => String::from_str(alloc, "kept"),
        PromiseVerdict::Broken(breach) => {
            let broken = broken_text(breach.is_shortest);
            let jobs = jobs_text(alloc, breach.way.as_slice())?;
            format!(in alloc; "{broken}{jobs}")
        }
        PromiseVerdict::NotDecided(doubt) => {
            let doubt = doubt_text(*doubt);
            format!(in alloc; "not decided: {doubt}")
        }
    }
}

/// What is said of a phrase.
fn outcome_text(alloc: Global, outcome: &PhraseFinding) -> Result<String, AllocError>
    ensures { IfOk result (λ text. string_bytes text ≡ outcome_text outcome.now) }
{
    match outcome {
        PhraseFinding::NoPromise => String::from_str(alloc, "no promise is written so"),
        PhraseFinding::Decided(verdict) => verdict_text(alloc, verdict),
    }
}

/// The line of a promise of this number in the table of a file.
fn promise_line(
    alloc: Global,
    name: &str,
    number: usize,
    finding: &PromiseFinding,
) -> Result<String, AllocError>
    ensures { IfOk result (λ text. string_bytes text ≡ promise_line name.now number finding.now) }
{
    let name = Shown(name);
    let phrase = Shown(finding.phrase.get());
    let outcome = outcome_text(alloc, &finding.outcome)?;
    format!(in alloc; "{name}: promise {number}, {phrase}: {outcome}\n")
}

/// A line of a scenario.
fn step_line(alloc: Global, step: &WayStep) -> Result<String, AllocError>
    ensures { IfOk result (λ text. string_bytes text ≡ step_line step.now) }
{
    let job = step.job.get();
    let gives = step.gives.get();
    format!(in alloc; "  {job} => {gives}\n")
}

/// The lines of a scenario.
fn step_lines(alloc: Global, way: &[WayStep]) -> Result<String, AllocError>
    ensures { IfOk result (λ text. string_bytes text ≡ step_lines way.now) }
{
    let mut text = String::new(alloc);
    for step in way {
        let line = step_line(alloc, step)?;
        text.push_str(line.as_str())?;
    }
    Ok(text)
}

/// The line that says how many steps are not shown; nothing if all are.
fn more_line(alloc: Global, way: &[WayStep]) -> Result<String, AllocError>
    ensures { IfOk result (λ text. string_bytes text ≡ more_line (length way.now)) }
{
    if way.len() <= MOST_STEPS {
        return Ok(String::new(alloc));
    }
    let more = way.len() - MOST_STEPS;
    format!(in alloc; "  and {more} more, which --json lists\n")
}

/// The lines of a scenario that a text shows, and how many more there are.
fn scenario_lines(alloc: Global, way: &[WayStep]) -> Result<String, AllocError>
    ensures { IfOk result (λ text. string_bytes text ≡ scenario_lines way.now) }
{
    let lines = step_lines(alloc, shown_steps(way))?;
    let more = more_line(alloc, way)?;
    format!(in alloc; "{lines}{more}")
}

/// The scenario below the line of a promise, if it is broken.
fn way_lines(alloc: Global, outcome: &PhraseFinding) -> Result<String, AllocError>
    ensures { IfOk result (λ text. string_bytes text ≡ way_lines outcome.now) }
{
    match outcome {
        PhraseFinding::Decided(PromiseVerdict::Broken(breach)) => scenario_lines(
            alloc,
            breach.way.as_slice(),
        ),
        _ => Ok(String::new(alloc)),
    }
}

/// The lines of a promise.
fn promise_lines(
    alloc: Global,
    name: &str,
    number: usize,
    finding: &PromiseFinding,
) -> Result<String, AllocError>
    ensures { IfOk result (λ text. string_bytes text ≡ promise_lines name.now number finding.now) }
{
    let line = promise_line(alloc, name, number, finding)?;
    let way = way_lines(alloc, &finding.outcome)?;
    format!(in alloc; "{line}{way}")
}

/// The lines of promises.
fn each_text(alloc: Global, name: &str, list: &[PromiseFinding]) -> Result<String, AllocError>
    ensures { IfOk result (λ text. string_bytes text ≡ each_text name.now 1 list.now) }
{
    let mut text = String::new(alloc);
    for (index, finding) in list.iter().enumerate() {
        let lines = promise_lines(alloc, name, index + 1, finding)?;
        text.push_str(lines.as_str())?;
    }
    Ok(text)
}

/// Returns why no promise of a table is read: they are neither a text nor a list of texts, or there
/// are too many. Nothing if they are a list of at most 50.
pub fn list_words(found: &PromiseFindings) -> &'static str
    ensures { result.now ≡ list_words found.now }
{
    match found {
        PromiseFindings::NoPhrases => "they are neither a text nor a list of texts",
        PromiseFindings::TooMany => "there are more than 50",
        PromiseFindings::Each(_) => "",
    }
}

/// Returns the line that says why no promise of the table in a file is read.
fn list_line(alloc: Global, name: &str, found: &PromiseFindings) -> Result<String, AllocError>
    ensures { IfOk result (λ text. string_bytes text ≡ list_line name.now found.now) }
{
    let name = Shown(name);
    let words = list_words(found);
    format!(in alloc; "{name}: promises: {words}\n")
}

/// What is found of the promises of the table in a file of this name, as text: a line for each,
/// which begins with the name, and below a broken one a scenario that breaks it. If a shorter one
/// may break it too, the line says so. Of a scenario of more than 100 jobs the first 100 are shown.
/// `AllocError` where there was no memory for it.
pub fn findings_text(
    alloc: Global,
    name: &str,
    found: &PromiseFindings,
) -> Result<String, AllocError>
    ensures { IfOk result (λ text. string_bytes text ≡ findings_text name.now found.now) }
{
    match found {
        PromiseFindings::Each(list) => each_text(alloc, name, list.get()),
        _ => list_line(alloc, name, found),
    }
}

/// Whether fewer jobs than these may break a promise too.
fn breach_detail(is_shortest: bool) -> &'static str
    ensures { result.now ≡ breach_detail is_shortest }
{
    if is_shortest {
        "by these jobs, and by no fewer:"
    } else {
        "by these jobs, perhaps by fewer too:"
    }
}

/// What a page says of a phrase beside whether its promise is kept: whether fewer jobs may break it
/// too, why it is not decided, or that no promise is written so. Nothing of a promise that is kept.
pub fn outcome_detail(outcome: &PhraseFinding) -> &'static str
    ensures { result.now ≡ outcome_detail outcome.now }
{
    match outcome {
        PhraseFinding::NoPromise => "no promise is written so",
        PhraseFinding::Decided(PromiseVerdict::Kept) => "",
        PhraseFinding::Decided(PromiseVerdict::Broken(breach)) => breach_detail(breach.is_shortest),
        PhraseFinding::Decided(PromiseVerdict::NotDecided(doubt)) => doubt_text(*doubt),
    }
}

/// A line of a scenario, as JSON.
fn step_json(alloc: Global, step: &WayStep) -> Result<String, AllocError>
    ensures { IfOk result (λ text. string_bytes text ≡ step_json step.now) }
{
    let job = EscapedName(step.job.get());
    let gives = EscapedName(step.gives.get());
    format!(in alloc; "{{\"job\":\"{job}\",\"gives\":\"{gives}\"}}")
}

/// A line of a scenario, as JSON, with a comma in front.
fn later_step(alloc: Global, step: &WayStep) -> Result<String, AllocError>
    ensures { IfOk result (λ text. string_bytes text ≡ later_step step.now) }
{
    let own = step_json(alloc, step)?;
    format!(in alloc; ",{own}")
}

/// Lines of a scenario, with a comma in front of each.
fn later_steps(alloc: Global, steps: &[WayStep]) -> Result<String, AllocError>
    ensures { IfOk result (λ text. string_bytes text ≡ later_steps steps.now) }
{
    let mut text = String::new(alloc);
    for step in steps {
        let own = later_step(alloc, step)?;
        text.push_str(own.as_str())?;
    }
    Ok(text)
}

/// Lines of a scenario, with a comma between them.
fn steps_json(alloc: Global, way: &[WayStep]) -> Result<String, AllocError>
    ensures { IfOk result (λ text. string_bytes text ≡ steps_json way.now) }
{
    let [first, others @ ..] = way else {
        return Ok(String::new(alloc));
    };
    let own = step_json(alloc, first)?;
    let later = later_steps(alloc, others)?;
    format!(in alloc; "{own}{later}")
}

/// Whether a scenario is a shortest one, as JSON.
fn shortest_json(is_shortest: bool) -> &'static str
    ensures { result.now ≡ shortest_json is_shortest }
{
    if is_shortest { "true" } else { "false" }
}

/// The verdict on a phrase, as JSON says it.
fn outcome_word(outcome: &PhraseFinding) -> &'static str
    ensures { result.now ≡ outcome_word outcome.now }
{
    match outcome {
        PhraseFinding::NoPromise => "no promise",
        PhraseFinding::Decided(PromiseVerdict::Kept) => "kept",
        PhraseFinding::Decided(PromiseVerdict::Broken(_)) => "broken",
        PhraseFinding::Decided(PromiseVerdict::NotDecided(_)) => "not decided",
    }
}

/// The members that say how a promise is broken, with a comma in front of each.
fn breach_members(alloc: Global, breach: &Breach) -> Result<String, AllocError>
    ensures { IfOk result (λ text. string_bytes text ≡ breach_members breach.now) }
{
    let shortest = shortest_json(breach.is_shortest);
    let steps = steps_json(alloc, breach.way.as_slice())?;
    format!(in alloc; ",\"shortest\":{shortest},\"scenario\":[{steps}]")
}

/// The members that say more of a verdict, with a comma in front of each: how a promise is broken,
/// or why it is not decided.
fn detail_members(alloc: Global, outcome: &PhraseFinding) -> Result<String, AllocError>
    ensures { IfOk result (λ text. string_bytes text ≡ detail_members outcome.now) }
{
    match outcome {
        PhraseFinding::Decided(PromiseVerdict::Broken(breach)) => breach_members(alloc, breach),
        PhraseFinding::Decided(PromiseVerdict::NotDecided(doubt)) => {
            let doubt = doubt_text(*doubt);
            format!(in alloc; ",\"reason\":\"{doubt}\"")
        }
        _ => Ok(String::new(alloc)),
    }
}

/// The members that say what is found of a phrase.
#[tactic(auto, unfolding(crate::specs::PromiseTexts::outcome_members))]
fn outcome_members(alloc: Global, outcome: &PhraseFinding) -> Result<String, AllocError>
    ensures { IfOk result (λ text. string_bytes text ≡ outcome_members outcome.now) }
{
    let word = outcome_word(outcome);
    let detail = detail_members(alloc, outcome)?;
    format!(in alloc; "\"verdict\":\"{word}\"{detail}")
}

/// The object of a promise of this number.
fn finding_json(
    alloc: Global,
    number: usize,
    finding: &PromiseFinding,
) -> Result<String, AllocError>
    ensures { IfOk result (λ text. string_bytes text ≡ finding_json number finding.now) }
{
    let phrase = EscapedName(finding.phrase.get());
    let members = outcome_members(alloc, &finding.outcome)?;
    format!(in alloc; "{{\"promise\":{number},\"text\":\"{phrase}\",{members}}}")
}

/// The object of a promise of this number, with a comma in front.
fn later_finding(
    alloc: Global,
    number: usize,
    finding: &PromiseFinding,
) -> Result<String, AllocError>
    ensures { IfOk result (λ text. string_bytes text ≡ later_finding number finding.now) }
{
    let own = finding_json(alloc, number, finding)?;
    format!(in alloc; ",{own}")
}

/// The objects of promises from the second on, with a comma in front of each.
fn later_findings(alloc: Global, list: &[PromiseFinding]) -> Result<String, AllocError>
    ensures { IfOk result (λ text. string_bytes text ≡ later_findings 2 list.now) }
{
    let mut text = String::new(alloc);
    for (index, finding) in list.iter().enumerate() {
        let own = later_finding(alloc, index + 2, finding)?;
        text.push_str(own.as_str())?;
    }
    Ok(text)
}

/// The objects of promises, with a comma between them.
fn each_json(alloc: Global, list: &[PromiseFinding]) -> Result<String, AllocError>
    ensures { IfOk result (λ text. string_bytes text ≡ each_json list.now) }
{
    let [first, others @ ..] = list else {
        return Ok(String::new(alloc));
    };
    let own = finding_json(alloc, 1, first)?;
    let later = later_findings(alloc, others)?;
    format!(in alloc; "{own}{later}")
}

/// What is found of the promises of a table, as a JSON value (RFC 8259): a list with an object for
/// each, or a text that says why there is none. `AllocError` if there was no memory for it.
pub fn findings_json(alloc: Global, found: &PromiseFindings) -> Result<String, AllocError>
    ensures { IfOk result (λ text. string_bytes text ≡ findings_json found.now) }
{
    match found {
        PromiseFindings::Each(list) => {
            let each = each_json(alloc, list.get())?;
            format!(in alloc; "[{each}]")
        }
        _ => {
            let words = list_words(found);
            format!(in alloc; "\"{words}\"")
        }
    }
}

/// Whether there is no promise.
fn has_none(found: &PromiseFindings) -> bool
    ensures { result ≡ has_none found.now }
{
    match found {
        PromiseFindings::Each(list) => list.get().is_empty(),
        _ => false,
    }
}

/// The member of a table's object that says what is found of its promises, with a comma in front;
/// nothing if it has none.
pub(crate) fn promises_member(alloc: Global, found: &PromiseFindings) -> Result<String, AllocError>
    ensures { IfOk result (λ text. string_bytes text ≡ promises_member found.now) }
{
    if has_none(found) {
        return Ok(String::new(alloc));
    }
    let list = findings_json(alloc, found)?;
    format!(in alloc; ",\"promises\":{list}")
}
