//! What is said of a run on its page.

use wh_events::Text;
use wh_html::Difference;

/// What a page says of a run beside what its history holds.
#[derive(Drop)]
pub struct Said {
    /// The title of the page: the file, or the run.
    pub title: Text,
    /// The verdict, in words.
    pub verdict: Text,
    /// Whether the verdict is good; `None` if nothing was replayed.
    pub good: Option<bool>,
    /// The place of the event that the verdict is about, counted from 1, if it is about one.
    pub place: Option<u64>,
    /// Both sides, if the code and the history differ.
    pub difference: Option<Difference>,
    /// A note on the verdict, if there is one.
    pub note: Option<Text>,
}
