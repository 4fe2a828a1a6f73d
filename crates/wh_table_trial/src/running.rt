//! Runs a table on a scenario.
ghost use Rattle.std.specs.Prelude.{◌≡◌, ◌∷◌, [], IfOk, OnOk, map};
ghost use Rattle.wh_table.specs.Program.{after, gives};
ghost use Rattle.wh_table_trial.specs.Entries.{scenario_entries};
ghost use Rattle.wh_table_trial.specs.Trials.{table_payload, started, named, shorter, given_text, differs, seen, told, stop, later, ended, tried, begun, no_table, trial};
ghost use Rattle.wh_table_trial.specs.Trials.{is_good, without_scenario};

use crate::entries::{Entry, scenario_entries};
use std::alloc::Global;
use wh_author_tools::commands_text;
use wh_events::{Items, OutOfMemory, Payload, Text};
use wh_row_rules::OrMemory;
use wh_table::{TableState, TableWorkflow};
use wh_table_text::{TableFault, fault_text, read_table};
use wh_workflow::{Command, Job, Meter, Workflow};

/// A job of a scenario, and the commands that the run gives to it.
#[derive(Drop)]
pub struct TrialStep {
    /// The words of the job.
    pub words: Text,
    /// The commands, as a scenario writes them.
    pub given: Text,
}

/// Where a run differs from a scenario, or why there is no run. Lines are counted from 1.
#[derive(Drop)]
pub enum TrialDifference {
    /// The table has no scenario.
    NoScenario,
    /// The file is not a table.
    NoTable {
        /// The reason: the first fault of the table.
        reason: Text,
    },
    /// A line has words that are not a job.
    NoJob {
        /// The number of the line.
        line: usize,
        /// The words.
        words: Text,
    },
    /// The run gives other commands to the jobs of a line.
    Gives {
        /// The number of the line.
        line: usize,
        /// The commands that it gives.
        given: Text,
        /// The commands that the line expects.
        wanted: Text,
    },
}

/// The result of trying a table on a scenario.
#[derive(Drop)]
pub struct Trial {
    /// The jobs, up to the first line where the run differs.
    pub steps: Items<TrialStep>,
    /// The difference, if there is one.
    pub difference: Option<TrialDifference>,
}

impl Trial {
    /// Returns the result for a table that has no scenario: no jobs, and `NoScenario`.
    pub fn without_scenario(alloc: Global) -> Trial
        ensures { result ≡ without_scenario }
    {
        Trial {
            steps: Items::new(Vec::new(alloc)),
            difference: Some(TrialDifference::NoScenario),
        }
    }

    /// Returns whether nothing differs.
    pub fn is_good(&self) -> bool
        ensures { result ≡ is_good self.now }
    {
        self.difference.is_none()
    }
}

/// The state of a trial.
#[derive(Drop)]
struct TrialState {
    /// The state of the run.
    state: TableState,
    /// The commands of the line so far.
    given: Vec<Command>,
    /// The jobs so far, with their commands.
    steps: Vec<TrialStep>,
}

/// Returns the bytes of a text.
fn bytes_of(alloc: Global, text: &str) -> Result<Items<u8>, OutOfMemory>
    ensures { IfOk result (λ bytes. bytes ≡ text.now) }
{
    Ok(Items::new(text.as_bytes().to_vec(alloc)?))
}

/// Returns a JSON text as a payload with the encoding `json/plain`.
fn table_payload(alloc: Global, table: &[u8]) -> Result<Payload, OutOfMemory>
    ensures { IfOk result (λ payload. payload ≡ table_payload table.now) }
{
    Ok(Payload {
        encoding: bytes_of(alloc, "json/plain")?,
        content: Items::new(table.to_vec(alloc)?),
    })
}

/// Returns the payloads with the table before them.
fn behind_table(
    alloc: Global,
    table: &[u8],
    input: &Items<Payload>,
) -> Result<Items<Payload>, OutOfMemory>
    ensures { IfOk result (λ all. all ≡ table_payload table.now ∷ input.now) }
{
    let mut all = Vec::new(alloc);
    let first = table_payload(alloc, table)?;
    all.push(first)?;
    let mut rest = input.try_copy()?.into_inner();
    all.append(&mut rest)?;
    Ok(Items::new(all))
}

/// Gives a job to a run of the table, and returns its commands.
fn answer(alloc: Global, state: &mut TableState, job: &Job) -> Result<Vec<Command>, OutOfMemory>
    ensures commands { IfOk result (λ given. given.items ≡ gives state.old job.now) }
    ensures state { OnOk result (state.new ≡ after state.old job.now) }
{
    let mut given = Vec::new(alloc);
    let mut meter = Meter::new();
    TableWorkflow::step(alloc, state, job, &mut given, &mut meter)?;
    Ok(given)
}

/// Gives a job to a run of the table; a start gets the table before its input.
fn give(
    alloc: Global,
    table: &[u8],
    state: &mut TableState,
    job: &Job,
) -> Result<Vec<Command>, OutOfMemory>
    ensures commands { IfOk result (λ given. given.items ≡ gives state.old (started table.now job.now)) }
    ensures state { OnOk result (state.new ≡ after state.old (started table.now job.now)) }
{
    match job {
        Job::Start { workflow, input } => {
            let own = Job::Start {
                workflow: workflow.try_copy()?,
                input: behind_table(alloc, table, input)?,
            };
            answer(alloc, state, &own)
        }
        job => answer(alloc, state, job),
    }
}

/// Returns the payload, or `TABLE` instead of the table.
fn shorten_payload(alloc: Global, table: &[u8], payload: &Payload) -> Result<Payload, OutOfMemory>
    ensures { IfOk result (λ own. own ≡ named table.now payload.now) }
{
    if payload.content.get() == table {
        Ok(Payload {
            encoding: payload.encoding.try_copy()?,
            content: bytes_of(alloc, "TABLE")?,
        })
    } else {
        payload.try_copy()
    }
}

/// Returns the payloads, with `TABLE` instead of the table.
fn all_named(alloc: Global, table: &[u8], input: &[Payload]) -> Result<Items<Payload>, OutOfMemory>
    ensures { IfOk result (λ all. all ≡ map (named table.now) input.now) }
{
    let mut all = Vec::new(alloc);
    for payload in input {
        let own = shorten_payload(alloc, table, payload)?;
        all.push(own)?;
    }
    Ok(Items::new(all))
}

/// Returns the command, with `TABLE` instead of the table if it continues as a new run.
fn shorten_command(alloc: Global, table: &[u8], command: &Command) -> Result<Command, OutOfMemory>
    ensures { IfOk result (λ own. own ≡ shorter table.now command.now) }
{
    match command {
        Command::ContinueAsNew { workflow, input } => Ok(Command::ContinueAsNew {
            workflow: workflow.try_copy()?,
            input: all_named(alloc, table, input.get())?,
        }),
        command => command.try_copy(),
    }
}

/// Returns the commands, with `TABLE` instead of the table.
fn all_shorter(
    alloc: Global,
    table: &[u8],
    commands: &[Command],
) -> Result<Vec<Command>, OutOfMemory>
    ensures { IfOk result (λ all. all.items ≡ map (shorter table.now) commands.now) }
{
    let mut all = Vec::new(alloc);
    for command in commands {
        let own = shorten_command(alloc, table, command)?;
        all.push(own)?;
    }
    Ok(all)
}

/// Returns the commands as a scenario writes them.
fn text_of_commands(alloc: Global, table: &[u8], commands: &[Command]) -> Result<Text, OutOfMemory>
    ensures { IfOk result (λ text. text ≡ given_text table.now commands.now) }
{
    let all = all_shorter(alloc, table, commands)?;
    let text = commands_text(alloc, all.as_slice())?;
    Ok(Text::new(text))
}

/// Returns the difference, if a line expects other commands than the run gives.
fn differs(
    line: usize,
    given: Text,
    wanted: &Option<Text>,
) -> Result<Option<TrialDifference>, OutOfMemory>
    ensures { IfOk result (λ difference. difference ≡ differs line given wanted.now) }
{
    match wanted {
        Some(wanted) => {
            if given.get() == wanted.get() {
                return Ok(None);
            }
            let wanted = wanted.try_copy()?;
            Ok(Some(TrialDifference::Gives {
                line,
                given,
                wanted,
            }))
        }
        None => Ok(None),
    }
}

/// Gives a job of a scenario to the run, and notes its commands.
fn take_job(
    alloc: Global,
    table: &[u8],
    run: &mut TrialState,
    words: &Text,
    job: &Job,
) -> Result<(), OutOfMemory>
    ensures { OnOk result (seen run.new ≡ told table.now (seen run.old) words.now job.now) }
{
    let mut given = give(alloc, table, &mut run.state, job)?;
    let step = TrialStep {
        words: words.try_copy()?,
        given: text_of_commands(alloc, table, given.as_slice())?,
    };
    run.steps.push(step)?;
    run.given.append(&mut given)?;
    Ok(())
}

/// Ends a line: compares the commands if it expects some.
fn end_line(
    alloc: Global,
    table: &[u8],
    run: &mut TrialState,
    line: usize,
    wanted: &Option<Text>,
) -> Result<Option<TrialDifference>, OutOfMemory>
    ensures stop { IfOk result (λ difference.
        difference ≡ differs line (given_text table.now (seen run.old).given) wanted.now) }
    ensures run { OnOk result (seen run.new ≡ record (seen run.old) { given = [] }) }
{
    let given = text_of_commands(alloc, table, run.given.as_slice())?;
    let difference = differs(line, given, wanted)?;
    run.given = Vec::new(alloc);
    Ok(difference)
}

/// Processes an entry of a scenario.
fn take_entry(
    alloc: Global,
    table: &[u8],
    run: &mut TrialState,
    entry: &Entry,
) -> Result<Option<TrialDifference>, OutOfMemory>
    ensures stop { IfOk result (λ difference. difference ≡ stop table.now (seen run.old) entry.now) }
    ensures run { OnOk result (seen run.new ≡ later table.now (seen run.old) entry.now) }
{
    match entry {
        Entry::Told { words, job } => {
            take_job(alloc, table, run, words, job)?;
            Ok(None)
        }
        Entry::NoJob { line, words } => {
            let words = words.try_copy()?;
            Ok(Some(TrialDifference::NoJob { line: *line, words }))
        }
        Entry::LineEnd { line, wanted } => end_line(alloc, table, run, *line, wanted),
    }
}

/// Processes the entries of a scenario, up to the first line where the run differs.
fn take_entries(
    alloc: Global,
    table: &[u8],
    run: &mut TrialState,
    entries: &[Entry],
) -> Result<Option<TrialDifference>, OutOfMemory>
    ensures { IfOk result (λ difference.
        ended (seen run.new) difference ≡ tried table.now (seen run.old) entries.now) }
{
    for entry in entries {
        if let Some(difference) = take_entry(alloc, table, run, entry)? {
            return Ok(Some(difference));
        }
    }
    Ok(None)
}

/// Runs a valid table on a scenario.
fn run_scenario(alloc: Global, table: &[u8], scenario: &str) -> Result<Trial, OutOfMemory>
    ensures { IfOk result (λ own. own ≡ tried table.now begun (scenario_entries scenario.now)) }
{
    let entries = scenario_entries(alloc, scenario)?;
    let mut run = TrialState {
        state: TableWorkflow::begin(alloc, "Table")?,
        given: Vec::new(alloc),
        steps: Vec::new(alloc),
    };
    let difference = take_entries(alloc, table, &mut run, entries.as_slice())?;
    let TrialState {
        state,
        given,
        steps,
    } = run;
    drop(state);
    drop(given);
    Ok(Trial {
        steps: Items::new(steps),
        difference,
    })
}

/// Returns the result for a file that is not a table.
fn no_table(alloc: Global, fault: TableFault) -> Result<Trial, OutOfMemory>
    ensures { IfOk result (λ own. own ≡ no_table fault) }
{
    let reason = fault_text(alloc, fault)?;
    Ok(Trial {
        steps: Items::new(Vec::new(alloc)),
        difference: Some(TrialDifference::NoTable { reason }),
    })
}

/// Tries the table that these bytes are on a scenario. The result has the jobs, each with the
/// commands that a run of the type `Table` gives to it, up to the first line that expects other
/// commands or has words that are not a job. `OutOfMemory` if an allocation was refused.
pub fn try_table(alloc: Global, table: &[u8], scenario: &str) -> Result<Trial, OutOfMemory>
    ensures { IfOk result (λ own. own ≡ trial table.now scenario.now) }
{
    match read_table(alloc, table) {
        Ok(_) => run_scenario(alloc, table, scenario),
        Err(OrMemory::OutOfMemory) => Err(OutOfMemory),
        Err(OrMemory::Fault(fault)) => no_table(alloc, fault),
    }
}
