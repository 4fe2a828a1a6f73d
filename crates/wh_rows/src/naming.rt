//! The name of a run, from its input.
ghost use Rattle.std.specs.Prelude.{◌≡◌, IfOk};
ghost use Rattle.wh_rows.specs.Tables.{naming_by};
ghost use Rattle.wh_rows.specs.Naming.{name_by};

use crate::parts::RowText;
use crate::row::Naming;
use std::alloc::Global;
use wh_events::{Items, OutOfMemory, Payload, Text};
use wh_workflow::{payload_text, text_of};

/// Returns the name of a run with this input.
pub(crate) fn name_by<T: RowText>(
    alloc: Global,
    naming: &Naming<T>,
    input: &Items<Payload>,
) -> Result<Text, OutOfMemory>
    ensures { IfOk result (λ name. name ≡ name_by (naming_by T.bytes naming.now) input.now) }
{
    match naming {
        Naming::Nameless => text_of(alloc, ""),
        Naming::ByPayload(number, prefix, other) => match payload_text(input.get(), *number) {
            Some(name) => Ok(Text::new(format!(in alloc; "{}{name}", prefix.text())?)),
            None => text_of(alloc, other.text()),
        },
    }
}
