//! The phrases of promises: which promise each says, and what about.
//!
//! | Phrase | Says |
//! |---|---|
//! | `at most N WHAT` | it happens so many times at most |
//! | `only after FIRST: WHAT` | it happens only after the first has |
//! | `never after FIRST: WHAT` | once the first has happened, it does not happen any more |
//! | `after FIRST, before LAST: WHAT` | it happens between the first FIRST and any later LAST |
//!
//! What happens is a job as a row writes it, a command `activity TYPE`, `child TYPE` or `send SIGNAL`,
//! or that the run closes: `complete`, `fail`, `canceled`, `continued`, and `close` in whichever way.
//! Words stand between single spaces. A colon or a comma separates only before a space, so a name may
//! have one.
#![tactic(auto)]

mod marks;
mod phrase;
mod thing;

pub use phrase::{PromisePhrase, phrase_in};
pub use thing::{PhraseThing, thing_in};
