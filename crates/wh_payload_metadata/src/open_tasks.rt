//! The tasks that are not answered.

ghost use Rattle.std.specs.Prelude.{◌≡◌, IfOk, OnOk, Some, option_map, string_bytes};
ghost use Rattle.wh_payload_metadata.specs.Kept.{place_of, leads_to};

use lru::LruCache;
use std::alloc::{AllocError, Global};
use std::num::NonZeroUsize;

/// The tasks that polls brought and that are not answered, each with the name under which it is kept
/// what came with it. Those are kept that came last.
#[derive(Drop)]
pub(crate) struct OpenTasks {
    tasks: LruCache<String, String>,
}

impl OpenTasks {
    /// There is no task. There will be at most so many.
    pub(crate) fn new(alloc: Global, most: NonZeroUsize) -> Result<OpenTasks, AllocError> {
        Ok(OpenTasks {
            tasks: LruCache::sparse(alloc, most)?,
        })
    }

    /// Notes the place of a task that a poll brought, by its token. Returns the task that there is
    /// no room for.
    pub(crate) fn begin(
        &mut self,
        token: String,
        place: String,
    ) -> Result<Option<(String, String)>, AllocError>
        ensures { OnOk result (place_of self.new (string_bytes token) ≡ Some (string_bytes place)) }
    {
        let displaced = self.tasks.push(token, place)?;
        Ok(displaced)
    }

    /// The place of a task that is answered, which is forgotten with the task.
    pub(crate) fn end(&mut self, token: &str) -> Option<String>
        ensures { option_map (λ place. string_bytes place) result ≡ place_of self.old token.now }
    {
        self.tasks.pop(token)
    }

    /// The place of a task that goes on.
    pub(crate) fn place_of(&self, token: &str) -> Result<Option<String>, AllocError>
        ensures { IfOk result (λ found.
            option_map (λ place. string_bytes place) found ≡ place_of self.now token.now) }
    {
        match self.tasks.peek(token) {
            Some(place) => Ok(Some(place.clone()?)),
            None => Ok(None),
        }
    }

    /// Whether a task that is not answered has this place.
    pub(crate) fn has(&self, place: &str) -> bool
        ensures { result ≡ leads_to place.now self.now.tasks.entries }
    {
        for (_token, other) in self.tasks.iter() {
            if other.as_str() == place {
                return true;
            }
        }
        false
    }
}
