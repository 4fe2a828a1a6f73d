//! Rows to copy: they send a reminder by mail, an hour after the run starts.

ghost use Rattle.std.specs.Prelude.{refl};
ghost use Rattle.wh_rows.specs.Tables.{seen};
ghost use Rattle.reminder.specs.declared.rows.TheConstants.{REMINDER};

#[cfg(test)]
mod tests;

use wh_rows::rows;
use wh_rows::words::*;

/// The rows of `Reminder`.
#[rattlefmt::skip]
pub static REMINDER: Definition = DefinitionOf { kind: "Reminder", first: "waiting", name: Nameless, bounds: UNCOUNTED, rows: rows! {
    waiting: Start           => [StartTimer("hour", 3_600)];
    waiting: Fired("hour")   => [StartActivity("mail", "SendMail", Input)] => sending;
    sending: Done("mail")    => [Complete(Brought)];
    sending: NotDone("mail") => [Fail("mail")];
} };

/// Sends a reminder by mail an hour after the run starts.
pub type Reminder = Rows<ReminderTable>;

/// The table of `Reminder`.
pub struct ReminderTable;

impl Table for ReminderTable {
    ghost table = { seen REMINDER };

    ghost faultless = { refl };

    fn table() -> &'static Definition {
        &REMINDER
    }
}
