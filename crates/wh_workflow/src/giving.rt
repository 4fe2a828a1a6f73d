//! How a step returns its commands.
ghost use Rattle.std.specs.Prelude.{◌≡◌, ◌++◌, length, take, drop, option_to_list, OnOk, OnErr};
ghost use Rattle.wh_workflow.specs.Law.{IsAnswer};

use crate::command::Command;
use wh_events::OutOfMemory;

/// Appends the command of a step, if there is one. After `OutOfMemory` the commands from before are
/// still there, and no other.
pub fn give(out: &mut Vec<Command>, given: Option<Command>) -> Result<(), OutOfMemory>
    requires lawful { IsAnswer (option_to_list given) }
    ensures commands { OnOk result (out.new.items ≡ out.old.items ++ option_to_list given) }
    ensures kept { OnErr result (out.new.items ≡ out.old.items) }
    ensures answer { IsAnswer (drop (length out.old.items) out.new.items) }
{
    if let Some(command) = given {
        out.push(command)?;
    }
    Ok(())
}

/// Appends the commands of a step, which may be several. After `OutOfMemory` the commands from
/// before are still there, and no other.
pub fn give_all(out: &mut Vec<Command>, mut given: Vec<Command>) -> Result<(), OutOfMemory>
    requires lawful { IsAnswer given.items }
    ensures commands { OnOk result (out.new.items ≡ out.old.items ++ given.items) }
    ensures kept { OnErr result (out.new.items ≡ out.old.items) }
    ensures answer { IsAnswer (drop (length out.old.items) out.new.items) }
{
    out.append(&mut given)?;
    Ok(())
}
