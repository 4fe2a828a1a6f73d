//! What is kept of runs.

ghost use Rattle.std.specs.Prelude.{◌≡◌, IfOk, None, OnOk, bytes_eq, string_bytes};
ghost use Rattle.std.specs.Map.{remove_entry};
ghost use Rattle.serde_json.specs.Data.{no_members};
ghost use Rattle.serde_json.specs.View.{view};
ghost use Rattle.wh_payload_metadata.specs.Header.{events_in, no_fields, fields_after};
ghost use Rattle.wh_payload_metadata.specs.declared.ends.TaskEnd.TheVariants.{Closed};
ghost use Rattle.wh_payload_metadata.specs.Seen.{metadata_seen, fields_seen};
ghost use Rattle.wh_payload_metadata.specs.Kept.{kept_run, kept_metadata, kept_fields, metadata_after, handed_by, runs_after, OthersStay};

use crate::ends::TaskEnd;
use crate::seen::SeenPayloads;
use lru::LruCache;
use serde_json::Value;
use std::alloc::{AllocError, Global};
use std::num::NonZeroUsize;

/// The name of a run, and what was seen of it.
type KeptRun = (String, SeenPayloads);

/// What was seen of runs. Those are kept that were used last.
#[derive(Drop)]
pub(crate) struct KeptRuns {
    alloc: Global,
    pub(crate) runs: LruCache<String, SeenPayloads>,
}

/// Notes something that came of a run, however much of it was noted before: a payload that is not
/// noted could not be read where it goes. The run's history bounds it.
fn note(alloc: Global, seen: &mut SeenPayloads, came: &Value) -> Result<(), AllocError>
    ensures metadata { OnOk result (metadata_seen seen.new
        ≡ metadata_after (view came.now) (metadata_seen seen.old)) }
    ensures header { OnOk result (fields_seen seen.new
        ≡ fields_after (events_in (view came.now)) (fields_seen seen.old)) }
{
    seen.keep_header(alloc, came)?;
    seen.keep_payloads(alloc, came)
}

/// Notes something that came of a run, as if nothing had come of it before.
pub(crate) fn note_first(alloc: Global, came: &Value) -> Result<SeenPayloads, AllocError>
    ensures metadata { IfOk result (λ seen. metadata_seen seen ≡ metadata_after (view came.now) no_members) }
    ensures header { IfOk result (λ seen. fields_seen seen ≡ fields_after (events_in (view came.now)) no_fields) }
{
    let mut seen = SeenPayloads::new(alloc);
    note(alloc, &mut seen, came)?;
    Ok(seen)
}

impl KeptRuns {
    /// Nothing is kept. There will be at most so many runs.
    pub(crate) fn new(alloc: Global, most: NonZeroUsize) -> Result<KeptRuns, AllocError> {
        Ok(KeptRuns {
            alloc,
            runs: LruCache::sparse(alloc, most)?,
        })
    }

    /// Takes out what was seen of a run.
    fn take(&mut self, name: &str) -> SeenPayloads
        ensures metadata { metadata_seen result ≡ kept_metadata self.old name.now }
        ensures header { fields_seen result ≡ kept_fields self.old name.now }
        ensures others { OthersStay self.old self.new name.now None }
    {
        match self.runs.pop(name) {
            Some(seen) => seen,
            None => SeenPayloads::new(self.alloc),
        }
    }

    /// Puts in what was seen of a run. Returns the run that there is no room for.
    fn put(&mut self, name: &str, seen: SeenPayloads) -> Result<Option<KeptRun>, AllocError>
        ensures metadata { OnOk result (kept_metadata self.new name.now ≡ metadata_seen seen) }
        ensures header { OnOk result (kept_fields self.new name.now ≡ fields_seen seen) }
        ensures others { IfOk result (λ displaced. OthersStay self.old self.new name.now displaced) }
    {
        // Its contract says that there is no more than there is room for.
        let _held = self.runs.len();
        let key = String::from_str(self.alloc, name)?;
        let displaced = self.runs.push(key, seen)?;
        Ok(displaced)
    }

    /// Keeps something that came of a run that is kept.
    fn keep_next(&mut self, name: &str, came: &Value) -> Result<Option<KeptRun>, AllocError>
        ensures metadata { OnOk result (kept_metadata self.new name.now
            ≡ metadata_after (view came.now) (kept_metadata self.old name.now)) }
        ensures header { OnOk result (kept_fields self.new name.now
            ≡ fields_after (events_in (view came.now)) (kept_fields self.old name.now)) }
        ensures others { IfOk result (λ displaced. OthersStay self.old self.new name.now displaced) }
    {
        let mut seen = self.take(name);
        note(self.alloc, &mut seen, came)?;
        let displaced = self.put(name, seen)?;
        Ok(displaced)
    }

    /// Keeps something that came of a run, which was noted before, if there is something to keep.
    /// Returns the run that there is no room for. `AllocError` if there was no memory: then nothing
    /// is kept of the run.
    pub(crate) fn keep(
        &mut self,
        name: &str,
        came: &Value,
        noted: SeenPayloads,
    ) -> Result<Option<KeptRun>, AllocError>
        requires metadata { metadata_seen noted ≡ metadata_after (view came.now) no_members }
        requires header { fields_seen noted ≡ fields_after (events_in (view came.now)) no_fields }
        ensures metadata { OnOk result (kept_metadata self.new name.now
            ≡ metadata_after (view came.now) (kept_metadata self.old name.now)) }
        ensures header { OnOk result (kept_fields self.new name.now
            ≡ fields_after (events_in (view came.now)) (kept_fields self.old name.now)) }
        ensures others { IfOk result (λ displaced. OthersStay self.old self.new name.now displaced) }
    {
        if noted.is_empty() {
            self.runs.promote(name);
            return Ok(None);
        }
        if self.runs.contains(name) {
            self.keep_next(name, came)
        } else {
            self.put(name, noted)
        }
    }

    /// Ends a task of a run, by what it has come to. A run that is closed is forgotten. Otherwise all
    /// stays as it is, also of a run whose task has failed, since one that came later may be in hand.
    /// Returns what was seen of a closed run.
    pub(crate) fn end_task(&mut self, run: &str, end: TaskEnd) -> Option<SeenPayloads>
        ensures runs { self.new.runs.entries ≡ runs_after end run.now self.old.runs.entries }
        ensures seen { end ≡ Closed → result ≡ kept_run self.old run.now }
    {
        match end {
            TaskEnd::Closed => self.forget(run),
            TaskEnd::GoesOn | TaskEnd::Answered => None,
        }
    }

    /// Forgets what is kept under a name. Returns what was seen.
    pub(crate) fn forget(&mut self, name: &str) -> Option<SeenPayloads>
        ensures runs { self.new.runs.entries ≡ remove_entry (λ key. bytes_eq name.now (string_bytes key)) self.old.runs.entries }
        ensures seen { result ≡ kept_run self.old name.now }
    {
        self.runs.pop(name)
    }

    /// A request of a task of a run, with what was seen of it.
    pub(crate) fn hand_on(&self, name: &str, request: Value) -> Result<Value, AllocError>
        ensures { IfOk result (λ v. view v ≡ handed_by (kept_run self.now name.now) (view request)) }
    {
        match self.runs.peek(name) {
            Some(seen) => seen.hand_on(self.alloc, &request),
            None => Ok(request),
        }
    }
}
