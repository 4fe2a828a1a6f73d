//! What is shown of an event, a command or a job: its kind, ids and types, and seconds or versions.

ghost use Rattle.std.specs.Prelude.{◌≡◌};
ghost use Rattle.wh_events.specs.Phrases.{phrase_seen, bare, named, typed, detailed};

/// What follows the ids and types of a phrase.
#[derive(Clone, Copy)]
pub enum Detail {
    /// Nothing.
    Nothing,
    /// A time, in nanoseconds.
    Time(i128),
    /// How long something takes, in seconds.
    Seconds(u64),
    /// The version of a change.
    Version(i32),
    /// The range of versions of a change that the code can run.
    Range {
        /// The least version.
        min: i32,
        /// The greatest version.
        max: i32,
    },
}

/// What is shown of an event, a command or a job.
#[derive(Clone, Copy)]
pub struct Phrase<'a> {
    /// The kind of the event, the command or the job.
    pub kind: &'static str,
    /// An id, or another name.
    pub id: Option<&'a str>,
    /// A type, the name of a signal, or how something ended.
    pub name: Option<&'a str>,
    /// What follows them.
    pub detail: Detail,
}

impl<'a> Phrase<'a> {
    /// Returns a phrase of a kind alone.
    pub fn of_kind(kind: &'static str) -> Self
        ensures { phrase_seen result ≡ bare kind.now }
    {
        Phrase {
            kind,
            id: None,
            name: None,
            detail: Detail::Nothing,
        }
    }

    /// Returns a phrase of a kind with an id.
    pub fn with_id(kind: &'static str, id: &'a str) -> Self
        ensures { phrase_seen result ≡ named kind.now id.now }
    {
        Phrase {
            id: Some(id),
            ..Phrase::of_kind(kind)
        }
    }

    /// Returns a phrase of a kind with an id and a type.
    pub fn with_type(kind: &'static str, id: &'a str, name: &'a str) -> Self
        ensures { phrase_seen result ≡ typed kind.now id.now name.now }
    {
        Phrase {
            name: Some(name),
            ..Phrase::with_id(kind, id)
        }
    }

    /// Returns a phrase of a kind with an id and what follows it.
    pub fn with_detail(kind: &'static str, id: &'a str, detail: Detail) -> Self
        ensures { phrase_seen result ≡ detailed kind.now id.now detail }
    {
        Phrase {
            detail,
            ..Phrase::with_id(kind, id)
        }
    }
}
