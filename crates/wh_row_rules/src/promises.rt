//! What is found of the promises of a table that was read.

ghost use Rattle.std.specs.Prelude.{◌≡◌};
ghost use Rattle.wh_row_rules.specs.Promises.{is_kept, all_kept, are_kept};

use wh_events::{Items, Text};

/// A line of a scenario that breaks a promise: a job, and the commands that it is given.
#[derive(Drop)]
pub struct WayStep {
    /// The job, as scenarios write it.
    pub job: Text,
    /// The commands, as scenarios write them.
    pub gives: Text,
    /// The number of the row that counts, counted from 1. `None` if no row fits.
    pub row: Option<usize>,
}

/// How a promise is broken.
#[derive(Drop)]
pub struct Breach {
    /// A scenario that breaks it.
    pub way: Vec<WayStep>,
    /// Whether it is shown that none of fewer jobs does.
    pub is_shortest: bool,
}

/// Why it is not decided whether a promise is kept.
#[derive(Clone, Copy, Debug)]
pub enum Doubt {
    /// There are more than 200,000 configurations: states of a run, its counters and what the
    /// promise has seen. Or the search would have to count past 2^62 - 1.
    TooMany,
    /// No path was found that breaks it in a run that is started without input, and it is not shown
    /// for each name that a run may have.
    ByName,
}

/// Whether a promise is kept.
#[derive(Drop)]
pub enum PromiseVerdict {
    /// It is, whatever jobs come.
    Kept,
    /// It is broken in this way.
    Broken(Breach),
    /// It is not decided.
    NotDecided(Doubt),
}

/// What is found of a phrase.
#[derive(Drop)]
pub enum PhraseFinding {
    /// No promise is written so.
    NoPromise,
    /// It says a promise, with this verdict.
    Decided(PromiseVerdict),
}

/// A promise of a table, and whether it keeps it.
#[derive(Drop)]
pub struct PromiseFinding {
    /// The phrase that says it.
    pub phrase: Text,
    /// What is found of it.
    pub outcome: PhraseFinding,
}

/// What is found of the promises of a table.
#[derive(Drop)]
pub enum PromiseFindings {
    /// They are neither a text nor a list of texts.
    NoPhrases,
    /// There are more than 50.
    TooMany,
    /// What is found of each, in their order.
    Each(Items<PromiseFinding>),
}

/// Returns whether a promise is kept.
fn is_kept(finding: &PromiseFinding) -> bool
    ensures { result ≡ is_kept finding.now }
{
    matches!(
        &finding.outcome,
        PhraseFinding::Decided(PromiseVerdict::Kept)
    )
}

/// Returns whether each of the list is kept.
fn all_kept(list: &[PromiseFinding]) -> bool
    ensures { result ≡ all_kept list.now }
{
    for finding in list {
        if !is_kept(finding) {
            return false;
        }
    }
    true
}

/// Returns whether each promise of a table is kept.
pub fn are_kept(found: &PromiseFindings) -> bool
    ensures { result ≡ are_kept found.now }
{
    match found {
        PromiseFindings::Each(list) => all_kept(list.get()),
        _ => false,
    }
}
