//! Writes jobs, commands, events, times and differences, as text and as members of JSON. And the values
//! that a workflow sends and that its history records otherwise: inputs, results, durations and
//! messages of failures. Replay compares none of these values.
#![tactic(auto)]

mod comparing;
mod gathering;
mod json;
mod keys;
pub mod laws;
mod phrase;
mod sides;
mod texts;
mod times;
mod value_sides;

pub use comparing::{OtherValue, ValueKind};
pub use gathering::values_in;
pub use json::{CommandJson, DifferenceMembers, JobJson, PairingMembers};
pub use phrase::{PhraseText, event_phrase};
pub use sides::{SendsText, SidesText};
pub use texts::{OtherValueObject, OtherValueText};
