//! Writes a view of any history as text: all of it, with tasks that repeat others folded or not, its
//! last tasks, or the tasks around an event.
#![tactic(auto)]

mod alike;
mod begins;
mod causes;
mod cut;
mod digits;
mod folding;
pub mod laws;
mod run;
mod spans;
mod subjects;
mod sums;
mod text;
mod view;
mod waits;
mod words;

pub use cut::{Excerpt, shown_char};
pub use digits::alike_texts;
pub use run::{run_span, status_word};
pub use spans::time_taken;
pub use subjects::{DeprecatedText, MarkerText, Tries, marker_words};
pub use text::{
    TaskRange, completed_count, has_selected, is_quiet, is_within, span_of, workflow_type,
};
pub use view::write_view;
pub use waits::{AwaitedTask, AwaitedThing};
pub use wh_console::Selection;
pub use words::{Attempt, mark_of, marker_name};
