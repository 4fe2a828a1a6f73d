//! The name of the state that a run is in.
ghost use Rattle.std.specs.Prelude.{◌≡◌};

use std::marker::Model;
use wh_events::Text;

/// The name of a state: borrowed from a table of the program, or owned by a table that was read.
#[derive(Drop)]
enum Name {
    Fixed(&'static str),
    Owned(Text),
}

/// The name of a state. Contracts see it as its bytes.
#[derive(Drop)]
pub struct StateName {
    name: Name,
}

impl Model for StateName {
    ghost use Rattle.std.specs.Prelude.{ℕ, List};
    ghost use Rattle.wh_rows.specs.StateNames.{name_seen};

    ghost Value = { List ℕ };

    ghost view = { λ state. name_seen state.name };
}

impl StateName {
    /// Returns the name of a state of a table of the program.
    pub fn from_static(name: &'static str) -> Self
        ensures { result ≡ name.now }
    {
        StateName {
            name: Name::Fixed(name),
        }
    }

    /// Returns the name of a state of a table that was read.
    pub fn from_text(name: Text) -> Self
        ensures { result ≡ name }
    {
        StateName {
            name: Name::Owned(name),
        }
    }

    /// Returns the name as a text.
    pub fn get(&self) -> &str
        ensures { result.now ≡ self.now }
    {
        match &self.name {
            Name::Fixed(name) => name,
            Name::Owned(name) => name.get(),
        }
    }
}
