//! The file in which counts are kept.

ghost use Rattle.std.specs.Prelude.{◌≡◌, IfOk, None, string_bytes};
ghost use Rattle.wh_metrics.specs.Exposition.{metrics_text};
ghost use Rattle.wh_metrics.specs.Labels.{labels_text};
ghost use Rattle.wh_work.specs.MetricsPaths.{beside_text, replace_words, unwritten_words};

use crate::metrics_path::{Obstacle, obstacle_at, path_beside};
use std::alloc::{AllocError, Global};
use std::fs;
use std::rt::Files;
use wh_commands::WorkerNames;
use wh_console::{FolderFault, Reason, replace_file};
use wh_metrics::{Exposition, Metrics, WorkerLabels};

/// The file in which counts are kept, as Prometheus reads them.
#[derive(Drop)]
pub(crate) struct MetricsFile<'a> {
    /// Its path.
    pub(crate) path: &'a str,
    /// The path beside it at which it is written first.
    beside: String,
    /// Whose counts they are.
    labels: WorkerLabels<'a>,
}

/// The counts of a process as they are kept.
fn exposition_text(
    alloc: Global,
    labels: WorkerLabels<'_>,
    metrics: Metrics,
) -> Result<String, AllocError>
    ensures { IfOk result (λ text. string_bytes text ≡ metrics_text
        (labels_text labels.entry.namespace.now labels.entry.task_queue.now labels.entry.identity.now) metrics) }
{
    let exposition = Exposition { labels, metrics };
    format!(in alloc; "{exposition}")
}

/// Why a file is not replaced.
#[derive(Clone, Copy, Debug)]
pub enum ReplaceFault {
    /// What is at its path, or at that beside it, is no regular file.
    Obstructed {
        /// What is there.
        obstacle: Obstacle,
    },
    /// It can't be written.
    Unwritten {
        /// Why not.
        fault: FolderFault,
    },
}

/// Why a file can't be written, in words.
fn words_of(fault: FolderFault) -> &'static str
    ensures { result.now ≡ unwritten_words fault }
{
    match fault {
        FolderFault::OutOfMemory => "out of memory",
        FolderFault::Unreadable {
            reason: Reason::Other,
        } => "the system can't write it",
        FolderFault::Unreadable { reason } => reason.words(),
    }
}

impl ReplaceFault {
    /// Returns the words in which it is reported.
    fn words(self) -> &'static str
        ensures { result.now ≡ replace_words self }
    {
        match self {
            ReplaceFault::Obstructed { obstacle } => obstacle.words(),
            ReplaceFault::Unwritten { fault } => words_of(fault),
        }
    }
}

/// What can replace files whole, as a runtime with files can. It stands for `Files` where threads
/// do so.
pub trait FileReplacer {
    /// Replaces what the file at `path` has, by way of a file at `beside`, as
    /// [`replace_file`](wh_console::replace_file). After an error it is as it was, and no file is
    /// left at `beside`.
    ///
    /// `Obstructed` if something other than a regular file is at `path` or at `beside`, as a link,
    /// a folder, a pipe or a device: all is as it was then.
    fn replace(&self, path: &str, beside: &str, bytes: &[u8]) -> Result<(), ReplaceFault>;
}

/// Replaces a file by way of one at `beside`, which is removed if that fails.
fn replace_or_remove<R: Files>(
    rt: &R,
    path: &str,
    beside: &str,
    bytes: &[u8],
) -> Result<(), ReplaceFault> {
    match replace_file(rt, path, beside, bytes) {
        Ok(()) => Ok(()),
        Err(fault) => {
            let _ = fs::remove_file(rt, beside);
            Err(ReplaceFault::Unwritten { fault })
        }
    }
}

impl<R: Files> FileReplacer for R {
    fn replace(&self, path: &str, beside: &str, bytes: &[u8]) -> Result<(), ReplaceFault> {
        match (obstacle_at(self, path), obstacle_at(self, beside)) {
            (None, None) => replace_or_remove(self, path, beside, bytes),
            (Some(obstacle), _) | (None, Some(obstacle)) => {
                Err(ReplaceFault::Obstructed { obstacle })
            }
        }
    }
}

impl<'a> MetricsFile<'a> {
    /// The file at a path, for the counts of a worker of these names. `AllocError` if there was no
    /// memory.
    pub(crate) fn new(
        alloc: Global,
        path: &'a str,
        names: &'a WorkerNames,
    ) -> Result<MetricsFile<'a>, AllocError>
        ensures path { IfOk result (λ file. file.path.now ≡ path.entry.now) }
        ensures beside { IfOk result (λ file. string_bytes file.beside ≡ beside_text path.entry.now) }
        ensures namespace { IfOk result (λ file. file.labels.namespace.now ≡ names.entry.now.namespace) }
        ensures queue { IfOk result (λ file. file.labels.task_queue.now ≡ names.entry.now.task_queue) }
        ensures identity { IfOk result (λ file. file.labels.identity.now ≡ names.entry.now.identity) }
    {
        Ok(MetricsFile {
            path,
            beside: path_beside(alloc, path)?,
            labels: WorkerLabels {
                namespace: names.namespace.get(),
                task_queue: names.task_queue.get(),
                identity: names.identity.get(),
            },
        })
    }

    /// Replaces what the file has by these counts. If it can't be written, why not.
    pub(crate) fn write<R: FileReplacer + AllocGlobal>(
        &self,
        rt: &R,
        metrics: Metrics,
    ) -> Option<&'static str> {
        let Ok(text) = exposition_text(rt.alloc(), self.labels, metrics) else {
            return Some(words_of(FolderFault::OutOfMemory));
        };
        match rt.replace(self.path, self.beside.as_str(), text.as_bytes()) {
            Ok(()) => None,
            Err(fault) => Some(fault.words()),
        }
    }
}
