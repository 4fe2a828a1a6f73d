//! Why a text is not a table.
ghost use Rattle.std.specs.Prelude.{◌≡◌, codes, IfOk};
ghost use Rattle.wh_table_text.specs.Reading.{of_rows};
ghost use Rattle.wh_table_text.specs.Texts.{rule_text, row_text, fault_text};

use std::alloc::{AllocError, Global};
use wh_events::Text;
use wh_row_rules::{BrokenRule, OrMemory, RowsFault};

/// What is wrong with a row.
#[derive(Clone, Copy, Debug)]
pub enum RowFault {
    /// It is not a list of at most six members.
    NotARow,
    /// Its state, its job or its next state is not a text, or its conditions, commands or marks are
    /// neither a text nor a list of texts.
    NotText,
    /// Its job is not one that a table can name.
    UnknownJob,
    /// It has more than 16 conditions, or more than 16 marks.
    TooManyPhrases,
    /// A condition is not written as one, or names a counter that the table does not have.
    UnknownCondition,
    /// A command begins with an unknown word.
    UnknownCommand,
    /// A command has too few or too many words, or a number out of range.
    BadCommand,
    /// A mark is not written as one, or names a counter that the table does not have.
    UnknownMark,
    /// It breaks a rule of tables (`wh_row_rules`).
    Breaks(BrokenRule),
}

/// Why a text is not a table: its first fault.
#[derive(Clone, Copy, Debug)]
pub enum TableFault {
    /// There is no table.
    NoTable,
    /// The bytes are not JSON (RFC 8259) in UTF-8.
    NotJson,
    /// The member `version` is not the number 1, or the value is not an object.
    UnknownVersion,
    /// The member `rows` is not a list.
    NoRows,
    /// There are more than 200 rows.
    TooManyRows,
    /// The member `counters` is present, and is not a list of at most four texts, each a name and a
    /// bound.
    BadCounters,
    /// The member `name` is present, and is not written as the name of a run.
    BadName,
    /// A row, counted from 1, can't be read or breaks a rule.
    InRow {
        /// The number of the row.
        row: u64,
        /// What is wrong with it.
        fault: RowFault,
    },
    /// There is no row.
    BeginsNowhere,
}

/// What reading a part of a table returns: it, or the first fault unless memory ran out.
pub(crate) type ReadResult<T> = Result<T, OrMemory<TableFault>>;

/// Returns the fault of a table whose rows break a rule.
pub(crate) fn of_rows(fault: RowsFault) -> TableFault
    ensures { result ≡ of_rows fault }
{
    match fault {
        RowsFault::BeginsNowhere => TableFault::BeginsNowhere,
        RowsFault::InRow { row, rule } => TableFault::InRow {
            row,
            fault: RowFault::Breaks(rule),
        },
    }
}

/// Returns the words as an owned text.
fn owned_text(alloc: Global, words: &str) -> Result<Text, AllocError>
    ensures { IfOk result (λ text. text ≡ words.now) }
{
    Ok(Text::new(String::from_str(alloc, words)?))
}

/// Returns the message for a row that breaks a rule of tables.
fn rule_text(alloc: Global, rule: BrokenRule) -> Result<Text, AllocError>
    ensures { IfOk result (λ text. text ≡ rule_text rule) }
{
    match rule {
        BrokenRule::TooManyCommands => owned_text(alloc, "it gives more than 64 commands"),
        BrokenRule::CommandAfterLast => {
            owned_text(alloc, "a command follows one that asks or closes the run")
        }
        BrokenRule::OpensTwice => owned_text(alloc, "it starts two things of a kind under one id"),
        BrokenRule::BadRange => owned_text(alloc, "it asks for a range of versions that is none"),
        BrokenRule::NoState => owned_text(alloc, "no state has the name same"),
        BrokenRule::LeadsNowhere => owned_text(alloc, "no row is for the state that it leads to"),
        BrokenRule::NeverReached => owned_text(alloc, "no row of another state leads to its state"),
        BrokenRule::AsksInVain => {
            owned_text(
                alloc,
                "it asks for a version that no row hears in the state after it",
            )
        }
        BrokenRule::Unbounded => {
            owned_text(
                alloc,
                "it raises a counter without a bound, or asks for more than the bound",
            )
        }
        BrokenRule::HiddenBy(number) => Ok(Text::new(format!(in alloc;
            "it never counts, since row {number} fits wherever it does"
        )?)),
    }
}

/// Returns the message for the fault of a row.
fn row_text(alloc: Global, fault: RowFault) -> Result<Text, AllocError>
    ensures { IfOk result (λ text. text ≡ row_text fault) }
{
    match fault {
        RowFault::NotARow => owned_text(alloc, "a row is a list of at most six members"),
        RowFault::NotText => {
            owned_text(
                alloc,
                "a member is no text, and no list of texts where one may be",
            )
        }
        RowFault::UnknownJob => owned_text(alloc, "no job is written so"),
        RowFault::TooManyPhrases => owned_text(alloc, "it has more than 16 conditions or marks"),
        RowFault::UnknownCondition => {
            owned_text(
                alloc,
                "no condition is written so, or there is no such counter",
            )
        }
        RowFault::UnknownCommand => owned_text(alloc, "no command begins with this word"),
        RowFault::BadCommand => {
            owned_text(
                alloc,
                "a command lacks a word, has one too much, or a number is out of range",
            )
        }
        RowFault::UnknownMark => {
            owned_text(alloc, "no mark is written so, or there is no such counter")
        }
        RowFault::Breaks(rule) => rule_text(alloc, rule),
    }
}

/// Returns the message for the fault of the row of this number.
fn numbered_text(alloc: Global, row: u64, fault: RowFault) -> Result<Text, AllocError>
    ensures { IfOk result (λ text. text ≡ fault_text (TableFault.InRow row fault)) }
{
    let text = row_text(alloc, fault)?;
    let words = text.get();
    Ok(Text::new(format!(in alloc; "row {row}: {words}")?))
}

/// Returns the message for a text that is not a table. `AllocError` if there is no memory for it.
pub fn fault_text(alloc: Global, fault: TableFault) -> Result<Text, AllocError>
    ensures { IfOk result (λ text. text ≡ fault_text fault) }
{
    match fault {
        TableFault::NoTable => owned_text(alloc, "there is no table"),
        TableFault::NotJson => owned_text(alloc, "the table is no JSON"),
        TableFault::UnknownVersion => owned_text(alloc, "the version of the table is not 1"),
        TableFault::NoRows => owned_text(alloc, "the table has no list of rows"),
        TableFault::TooManyRows => owned_text(alloc, "the table has more than 200 rows"),
        TableFault::BadCounters => {
            owned_text(
                alloc,
                "counters are at most four texts, each a name and a bound",
            )
        }
        TableFault::BadName => {
            owned_text(
                alloc,
                "the name is not written so: payload NUMBER PREFIX OTHER",
            )
        }
        TableFault::InRow { row, fault } => numbered_text(alloc, row, fault),
        TableFault::BeginsNowhere => owned_text(alloc, "the table has no row"),
    }
}
