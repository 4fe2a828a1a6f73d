//! Whether counts can be kept at a path.

ghost use Rattle.std.specs.Prelude.{◌≡◌, IfOk, IfSome, None, Some, string_bytes};
ghost use Rattle.std.specs.Fs.{IsDir, IsFile, IsSymlink};
ghost use Rattle.wh_work.specs.MetricsPaths.{TellsObstacle, TellsObstacleFor, beside_text, obstacle_words};
ghost use Rattle.wh_work.specs.Policies.{IsPlanFault};

use crate::policies::PlanFault;
use std::alloc::{AllocError, Global};
use std::fs;
use std::fs::FileType;
use std::rt::Files;
use wh_command_line::WorkOptions;
use wh_events::{OutOfMemory, Text};

/// What stands at a path at which no counts are kept, since it is no regular file.
#[derive(Clone, Copy, PartialEq, Eq, Debug)]
pub enum Obstacle {
    /// A symbolic link.
    Link,
    /// A folder.
    Folder,
    /// Something else, such as a pipe or a device.
    NoFile,
}

impl Obstacle {
    /// Returns the words in which it is reported.
    pub fn words(self) -> &'static str
        ensures { result.now ≡ obstacle_words self }
    {
        match self {
            Obstacle::Link => "is a link",
            Obstacle::Folder => "is a folder",
            Obstacle::NoFile => "is no file",
        }
    }
}

/// Returns what stands at a path, by its type. A regular file is no obstacle.
fn obstacle_of(kind: FileType) -> Option<Obstacle>
    ensures file { IsFile kind → result ≡ None }
    ensures link { IsSymlink kind → result ≡ Some Obstacle.Link }
    ensures folder { IsDir kind → result ≡ Some Obstacle.Folder }
    ensures other { (IsFile kind → ⊥) → (IsSymlink kind → ⊥) → (IsDir kind → ⊥) → result ≡ Some Obstacle.NoFile }
{
    if kind.is_file() {
        None
    } else if kind.is_symlink() {
        Some(Obstacle::Link)
    } else if kind.is_dir() {
        Some(Obstacle::Folder)
    } else {
        Some(Obstacle::NoFile)
    }
}

/// Returns what stands at a path and is no regular file. Nothing is returned if nothing is there,
/// or the system does not say what is: then the path can't be written.
pub(crate) fn obstacle_at<R: Files>(rt: &R, path: &str) -> Option<Obstacle> {
    match fs::symlink_metadata(rt, path) {
        Ok(metadata) => obstacle_of(metadata.file_type()),
        Err(_) => None,
    }
}

/// Returns the path beside another one at which a file is written before it replaces that at the
/// other.
pub(crate) fn path_beside(alloc: Global, path: &str) -> Result<String, AllocError>
    ensures { IfOk result (λ beside. string_bytes beside ≡ beside_text path.now) }
{
    format!(in alloc; "{path}.tmp")
}

/// Returns what is wrong with a path, if an obstacle is there.
fn text_at<R: Files + AllocGlobal>(rt: &R, path: &str) -> Result<Option<Text>, OutOfMemory>
    ensures { IfOk result (λ text. IfSome text (TellsObstacle path.now)) }
{
    let Some(obstacle) = obstacle_at(rt, path) else {
        return Ok(None);
    };
    let words = obstacle.words();
    match format!(in rt.alloc(); "error: --metrics: {path} {words}\n") {
        Ok(text) => Ok(Some(Text::new(text))),
        Err(_refused) => Err(OutOfMemory),
    }
}

/// Returns the same of the path beside this one.
fn text_beside<R: Files + AllocGlobal>(rt: &R, path: &str) -> Result<Option<Text>, OutOfMemory>
    ensures { IfOk result (λ text. IfSome text (TellsObstacle (beside_text path.now))) }
{
    match path_beside(rt.alloc(), path) {
        Ok(beside) => text_at(rt, beside.as_str()),
        Err(_refused) => Err(OutOfMemory),
    }
}

/// Returns what is wrong with a path at which counts are to be kept, if an obstacle is there or
/// beside it.
fn text_for<R: Files + AllocGlobal>(rt: &R, path: &str) -> Result<Option<Text>, OutOfMemory>
    ensures { IfOk result (λ text. IfSome text (TellsObstacleFor path.now)) }
{
    match text_at(rt, path) {
        Ok(Some(text)) => Ok(Some(text)),
        Ok(None) => text_beside(rt, path),
        Err(OutOfMemory) => Err(OutOfMemory),
    }
}

/// Returns the fault of the path at which options keep counts, if an obstacle is there or beside
/// it.
pub(crate) fn metrics_fault<R: Files + AllocGlobal>(
    rt: &R,
    options: &WorkOptions,
) -> Option<PlanFault>
    ensures { IfSome result (IsPlanFault options.now.metrics) }
{
    let Some(path) = &options.metrics else {
        return None;
    };
    match text_for(rt, path.get()) {
        Ok(Some(text)) => Some(PlanFault::BadMetrics { text }),
        Ok(None) => None,
        Err(OutOfMemory) => Some(PlanFault::OutOfMemory),
    }
}
