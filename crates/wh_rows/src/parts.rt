//! What the texts and the lists of a row are: borrowed from the program, or owned.
ghost use Rattle.std.specs.Prelude.{◌≡◌, ℕ, List, IfOk};

use crate::row::{CommandTemplate, Condition, RowEffect};
use crate::state_name::StateName;
use wh_events::{Items, OutOfMemory, Text};

/// A text of a row: borrowed from the program, or owned.
pub trait RowText {
    /// The bytes of the text.
    ghost bytes: { Self → List ℕ };

    /// Returns the text.
    fn text(&self) -> &str
        ensures { result.now ≡ bytes self.now };

    /// Returns the text as the name of a state. `OutOfMemory` if an owned text can't be copied.
    fn state_name(&self) -> Result<StateName, OutOfMemory>
        ensures { IfOk result (λ name. name ≡ bytes self.now) };
}

impl RowText for &'static str {
    ghost bytes = { λ text. text.now };

    fn text(&self) -> &str {
        self
    }

    fn state_name(&self) -> Result<StateName, OutOfMemory> {
        Ok(StateName::from_static(self))
    }
}

impl RowText for Text {
    ghost bytes = { λ text. text };

    fn text(&self) -> &str {
        self.get()
    }

    fn state_name(&self) -> Result<StateName, OutOfMemory> {
        Ok(StateName::from_text(self.try_copy()?))
    }
}

/// A list of a row: borrowed from the program, or owned.
pub trait RowList<A> {
    /// The members of the list.
    ghost list: { Self → List A };

    /// Returns the members of the list, in their order.
    fn list(&self) -> &[A]
        ensures { result.now ≡ list self.now };
}

impl RowList<Condition> for &'static [Condition] {
    ghost list = { λ list. list.now };

    fn list(&self) -> &[Condition] {
        self
    }
}

impl RowList<RowEffect> for &'static [RowEffect] {
    ghost list = { λ list. list.now };

    fn list(&self) -> &[RowEffect] {
        self
    }
}

impl<T> RowList<CommandTemplate<T>> for &'static [CommandTemplate<T>] {
    ghost list = { λ list. list.now };

    fn list(&self) -> &[CommandTemplate<T>] {
        self
    }
}

impl<A> RowList<A> for Items<A> {
    ghost list = { λ list. list };

    fn list(&self) -> &[A] {
        self.get()
    }
}
