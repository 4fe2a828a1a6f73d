//! What holds for all commands, each law as the contract of a function that does nothing.
ghost use Rattle.wh_commands.specs.ReadBack.{ReadsBack, CommandsDiffer, PoliciesAreUnseen};
ghost use Rattle.wh_commands.specs.ServerReads.{CommandsAreRead};

/// A written command reads back as the command, after the same events of a history that is in
/// place. So no two commands are written alike.
pub fn commands_are_read_back()
    ensures read { ReadsBack }
    ensures apart { CommandsDiffer }
{}

/// The policies change neither whether a command is written nor what it reads back as. So they may
/// differ between two tasks of a run, and replay does not see them.
pub fn policies_are_unseen()
    ensures { PoliciesAreUnseen }
{}

/// What a server reads from a command beyond what the workflow set: namespace and queue, the
/// options of the command's policy, a positive time before a timer fires, and what a run carries
/// over to the one that continues it.
pub fn commands_are_read()
    ensures { CommandsAreRead }
{}
