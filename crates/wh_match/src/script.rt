//! The commands of an activation, as they are issued.
ghost use Rattle.std.specs.Prelude.{◌≡◌, ◌+◌, ◌≤◌, ◌++◌, ◌∷◌, [], List, Bool, Option, None};
ghost use Rattle.std.specs.Prelude.{false, vec_len, IfOk, OnOk, OnErr, option_map};
ghost use Rattle.wh_workflow.specs.Activations.{marker_if};
ghost use Rattle.wh_events.specs.Cuts.{commanded};
ghost use Rattle.wh_workflow.specs.declared.command.Command.{Command};
ghost use Rattle.wh_events.specs.Machines.{or_else};
ghost use Rattle.wh_events.specs.declared.event.Event.{Event};
ghost use Rattle.std.specs.Result.{result_err};
ghost use Rattle.std.specs.Vec.{vec_capacity};
ghost use Rattle.wh_machines.specs.Lookups.{thing_of};
ghost use Rattle.wh_workflow.specs.Law.{is_ask, is_marker};
ghost use Rattle.wh_workflow.specs.Scripts.{ActivationContext, Settled, act_of, act_fault, command_fault, with_version};
ghost use Rattle.wh_match.specs.Faults.{workflow_fault};
ghost use Rattle.wh_match.specs.Private.Faults.{early_fault, range_fault};
ghost use Rattle.wh_match.specs.Issuing.{context_in, is_late_act, with_issued, with_asked};
ghost use Rattle.wh_match.specs.Issuing.{choice_in, unmarked_if, reduced_by};
ghost use Rattle.wh_match.specs.Private.Standings.{standing_of};

use crate::act::{Act, closes, read_act};
use crate::choosing::{Chosen, Question, choose};
use crate::fault::ScriptFault;
use crate::judging::{judge_cancel, opening_fault};
use crate::sending::sent_commands;
use crate::standing::{Standing, standing_at};
use crate::versions::Versions;
use std::alloc::Global;
use std::marker::Model;
use wh_events::{Event, EventNo, OpenKind, OutOfMemory, Text};
use wh_machines::Track;
use wh_workflow::{Command, WorkflowFault};

/// The most commands of one activation, not counting markers: a limit of this project.
const MOST_COMMANDS: usize = 4096;

/// The commands of one activation in their order, with the asks and the markers: which of them are
/// valid, and what is sent of them (Temporal documentation, commands:
/// <https://docs.temporal.io/references/commands>).
#[derive(Debug, Drop)]
pub struct Script {
    previous: u64,
    cut: EventNo,
    issued: Vec<Command>,
    /// For each issued command, whether it was a late cancel.
    late: Vec<bool>,
    /// How many of the issued commands are not markers.
    count: usize,
    /// Whether one of them closes the run.
    closed: bool,
    alloc: Global,
}

impl Model for Script {
    ghost use Rattle.std.specs.Prelude.{◌≡◌, length};
    ghost use Rattle.wh_workflow.specs.Scripts.{act_closes, some_act, given};
    ghost use Rattle.wh_match.specs.Issuing.{Issuing};

    ghost Value = { Issuing };

    ghost view = { λ s. record { previous = s.previous; cut = s.cut; issued = s.issued.items; late = s.late.items } };

    ghost invariant = { λ s. record {
      each : length s.late.items ≡ length s.issued.items;
      counted : s.count ≡ length (given s.issued.items);
      ended : s.closed ≡ some_act act_closes s.issued.items;
    } };
}

impl Script {
    /// Returns a script of the cut in which nothing is issued yet. `previous` is the cut before, or
    /// 0 for the first cut. It takes no memory until the first command.
    pub fn new(alloc: Global, previous: u64, cut: EventNo) -> Self
        ensures { result ≡ record { previous = previous; cut = cut; issued = []; late = [] } }
    {
        Script {
            previous,
            cut,
            issued: Vec::new(alloc),
            late: Vec::new(alloc),
            count: 0,
            closed: false,
            alloc,
        }
    }

    /// Issues the next command, which is neither an ask nor a marker. The command is judged by how
    /// things stood at the cut and by the commands before it; later events of the track change
    /// nothing. If the cut before is not below the cut, no event stands between them. If the track
    /// does not hold the cut, all its events are seen, and those after the cut before are between.
    ///
    /// Fails with `Workflow` if the command is invalid, with the least fault that it has.
    /// `Workflow` comes before `OutOfMemory`. After either the script is as it was.
    pub fn issue(&mut self, track: &Track, command: Command) -> Result<(), ScriptFault>
        requires not_ask { is_ask command ≡ false }
        requires not_marker { is_marker command ≡ false }
        ensures fault { (recorded : Option (List Event)) (settled : Settled) →
            let context = context_in track.now self.old recorded in
            workflow_fault result ≡ command_fault context settled self.old.issued command }
        ensures ok { let late : Option (List Event) → Bool
            = λ recorded. is_late_act (context_in track.now self.old recorded) self.old.issued (act_of command) in
            OnOk result ((recorded : Option (List Event)) → self.new ≡ with_issued self.old command (late recorded)) }
        ensures err { OnErr result (self.new ≡ self.old) }
    {
        match self.judge(track, &command) {
            Ok(late) => Ok(self.push(command, late)?),
            Err(fault) => {
                drop(command);
                Err(ScriptFault::Workflow(fault))
            }
        }
    }

    /// Asks for the version of a change between `min` and `max`, and returns it. `recorded` holds
    /// the events between the completion of the cut and the next completed task or the end, or is
    /// `None` for a live cut. The first rule that applies decides: the version that is settled;
    /// that of the first marker of the change in the record, for which a marker is issued; -1 if
    /// the cut is recorded; else `max`, for which a marker is issued. The version is settled from
    /// then on, and the ask counts as a command. (Temporal documentation, patching and
    /// `GetVersion`: <https://docs.temporal.io/patching>.)
    ///
    /// Fails with `Workflow` if the ask is invalid, with the least fault that it has. `Workflow`
    /// comes before `OutOfMemory`. After either the script and the versions are as they were.
    pub fn ask(
        &mut self,
        recorded: Option<&[Event]>,
        versions: &mut Versions,
        change_id: &str,
        min: i32,
        max: i32,
    ) -> Result<i32, ScriptFault>
        ensures fault { (seen between : List Event) →
            let there = option_map (λ events. commanded events.now) recorded.entry in
            let context : ActivationContext = record { seen = seen; between = between; recorded = there } in
            let ask = Command.Ask change_id.now min max in
            workflow_fault result ≡ command_fault context versions.old self.old.issued ask }
        ensures version { let there = option_map (λ events. commanded events.now) recorded.entry in
            let choice = choice_in there versions.old change_id.now max in
            IfOk result (λ version. version ≡ choice.version) }
        ensures asked { let there = option_map (λ events. commanded events.now) recorded.entry in
            let choice = choice_in there versions.old change_id.now max in
            OnOk result (self.new ≡ with_asked self.old change_id.now min max choice) }
        ensures settled { let there = option_map (λ events. commanded events.now) recorded.entry in
            let choice = choice_in there versions.old change_id.now max in
            OnOk result (versions.new ≡ with_version versions.old change_id.now choice.version) }
        ensures kept { OnErr result (self.new ≡ self.old) }
        ensures unsettled { OnErr result (versions.new ≡ versions.old) }
    {
        let question = Question {
            change_id,
            min,
            max,
        };
        self.answer(recorded, versions, question)
    }

    /// Returns what is sent of the commands so far, in their order: all except the asks, the
    /// openings that a later command cancels together with the next cancel of each, and the late
    /// cancels, which came after an outside event of this activation had closed what they cancel.
    /// Fails with `OutOfMemory` if the allocator refused memory; the commands are dropped.
    pub fn reduce(self) -> Result<Vec<Command>, OutOfMemory>
        ensures { IfOk result (λ sent. sent.items ≡ reduced_by self.late self.issued) }
    {
        sent_commands(self.alloc, self.late.as_slice(), self.issued.as_slice())
    }

    /// Adds a valid command, and marks whether it is a late cancel. After `OutOfMemory` the script
    /// is as it was.
    fn push(&mut self, command: Command, late: bool) -> Result<(), OutOfMemory>
        requires unfaulted { early_fault self.old.issued ≡ None }
        requires not_marker { is_marker command ≡ false }
        ensures ok { OnOk result (self.new ≡ with_issued self.old command late) }
        ensures err { OnErr result (self.new ≡ self.old) }
    {
        match make_room(&mut self.issued, &mut self.late, 1) {
            Ok(()) => {
                self.closed = closes(&command);
                self.count += 1;
                self.issued.push_reserved(command);
                self.late.push_reserved(late);
                Ok(())
            }
            Err(full) => {
                drop(command);
                Err(full)
            }
        }
    }

    /// Answers a question with a version. On an error the script and the versions are as they were.
    fn answer(
        &mut self,
        recorded: Option<&[Event]>,
        versions: &mut Versions,
        question: Question,
    ) -> Result<i32, ScriptFault>
        ensures fault { (seen between : List Event) →
            let asked = question.entry in
            let there = option_map (λ events. commanded events.now) recorded.entry in
            let context : ActivationContext = record { seen = seen; between = between; recorded = there } in
            let ask = Command.Ask asked.change_id.now asked.min asked.max in
            workflow_fault result ≡ command_fault context versions.old self.old.issued ask }
        ensures version { let asked = question.entry in
            let there = option_map (λ events. commanded events.now) recorded.entry in
            let choice = choice_in there versions.old asked.change_id.now asked.max in
            IfOk result (λ version. version ≡ choice.version) }
        ensures asked { let asked = question.entry in
            let there = option_map (λ events. commanded events.now) recorded.entry in
            let choice = choice_in there versions.old asked.change_id.now asked.max in
            OnOk result (self.new ≡ with_asked self.old asked.change_id.now asked.min asked.max choice) }
        ensures settled { let asked = question.entry in
            let there = option_map (λ events. commanded events.now) recorded.entry in
            let choice = choice_in there versions.old asked.change_id.now asked.max in
            OnOk result (versions.new ≡ with_version versions.old asked.change_id.now choice.version) }
        ensures kept { OnErr result (self.new ≡ self.old) }
        ensures unsettled { OnErr result (versions.new ≡ versions.old) }
    {
        let chosen = choose(recorded, versions, question);
        if let Some(fault) = self.ask_fault(chosen, question) {
            return Err(ScriptFault::Workflow(fault));
        }
        make_room(&mut self.issued, &mut self.late, 2)?;
        let asked = settle_asked(self.alloc, versions, question, chosen)?;
        self.count += 1;
        append_reserved(&mut self.issued, asked);
        push_marks(&mut self.late, chosen.marked);
        Ok(chosen.version)
    }

    /// Returns why no command can follow those so far.
    fn early_fault(&self) -> Option<WorkflowFault>
        ensures { result ≡ early_fault self.now.issued }
    {
        if self.closed {
            Some(WorkflowFault::AfterClosing)
        } else if self.count >= MOST_COMMANDS {
            Some(WorkflowFault::TooManyCommands)
        } else {
            None
        }
    }

    /// Returns the least fault of an ask that gets this version.
    fn ask_fault(&self, chosen: Chosen, question: Question) -> Option<WorkflowFault>
        ensures { let fault = range_fault chosen.version question.entry.min question.entry.max in
            result ≡ or_else (early_fault self.now.issued) fault }
    {
        match self.early_fault() {
            Some(fault) => Some(fault),
            None => range_fault(chosen, question),
        }
    }

    /// Returns how the things of a kind under an id stand at the cut.
    fn standing(&self, track: &Track, kind: OpenKind, id: &str) -> Standing
        ensures { result ≡ standing_of (context_in track.now self.now None) (thing_of kind) id.now }
    {
        standing_at(track, self.previous, self.cut, kind, id)
    }

    /// Judges what the command does: returns whether it is a late cancel, or the fault in what it
    /// does.
    #[tactic(auto, unfolding(wh_workflow::specs::Scripts::opening_fault, wh_workflow::specs::Scripts::cancel_fault))]
    fn judge_act(&self, track: &Track, command: &Command) -> Result<bool, WorkflowFault>
        requires not_ask { is_ask command.now ≡ false }
        ensures fault { let context = context_in track.now self.now None in
            result_err result ≡ act_fault context [] self.now.issued (act_of command.now) }
        ensures late { let context = context_in track.now self.now None in
            IfOk result (λ late. late ≡ is_late_act context self.now.issued (act_of command.now)) }
    {
        let earlier = self.issued.as_slice();
        match read_act(command) {
            Act::Opens { kind, id } => {
                match opening_fault(self.standing(track, kind, id), earlier, kind, id) {
                    Some(fault) => Err(fault),
                    None => Ok(false),
                }
            }
            Act::Cancels { kind, id } => {
                judge_cancel(self.standing(track, kind, id), earlier, kind, id)
            }
            _ => Ok(false),
        }
    }

    /// Judges the command after those so far: returns whether it is a late cancel, or the least
    /// fault that it has.
    fn judge(&self, track: &Track, command: &Command) -> Result<bool, WorkflowFault>
        requires not_ask { is_ask command.now ≡ false }
        ensures fault { (recorded : Option (List Event)) (settled : Settled) →
            let context = context_in track.now self.now recorded in
            result_err result ≡ command_fault context settled self.now.issued command.now }
        ensures late { let context = context_in track.now self.now None in
            IfOk result (λ late. late ≡ is_late_act context self.now.issued (act_of command.now)) }
    {
        match self.early_fault() {
            Some(fault) => Err(fault),
            None => self.judge_act(track, command),
        }
    }
}

/// Makes room for this many more commands and their marks.
fn make_room(
    issued: &mut Vec<Command>,
    late: &mut Vec<bool>,
    more: usize,
) -> Result<(), OutOfMemory>
    ensures issued { issued.new.items ≡ issued.old.items }
    ensures late { late.new.items ≡ late.old.items }
    ensures issued_room { OnOk result (vec_len issued.new + more ≤ vec_capacity issued.new) }
    ensures late_room { OnOk result (vec_len late.new + more ≤ vec_capacity late.new) }
{
    issued.reserve(more)?;
    late.reserve(more)?;
    Ok(())
}

/// Returns why an ask with this range, which gets this version, is invalid.
fn range_fault(chosen: Chosen, question: Question) -> Option<WorkflowFault>
    ensures { result ≡ range_fault chosen.version question.entry.min question.entry.max }
{
    let Question { min, max, .. } = question;
    if max < min || min < -1 || max < 0 {
        Some(WorkflowFault::BadRange)
    } else if chosen.version < min || max < chosen.version {
        Some(WorkflowFault::VersionOutOfRange)
    } else {
        None
    }
}

/// Returns an ask, and the marker of its version, if one is issued.
fn asked_commands(
    alloc: Global,
    question: Question,
    chosen: Chosen,
) -> Result<Vec<Command>, OutOfMemory>
    ensures items { let ask = Command.Ask question.entry.change_id.now question.entry.min question.entry.max in
        IfOk result (λ asked. asked.items ≡ ask ∷ marker_if chosen.marked question.entry.change_id.now chosen.version) }
    ensures few { IfOk result (λ asked. vec_len asked ≤ 2) }
{
    let mut asked = Vec::new(alloc);
    asked.push(Command::Ask {
        change_id: Text::new(String::from_str(alloc, question.change_id)?),
        min: question.min,
        max: question.max,
    })?;
    if chosen.marked {
        asked.push(Command::Marker {
            change_id: Text::new(String::from_str(alloc, question.change_id)?),
            version: chosen.version,
        })?;
    }
    Ok(asked)
}

/// Settles the version of an ask, and returns the commands that it issues. After `OutOfMemory` no
/// version has been settled.
fn settle_asked(
    alloc: Global,
    versions: &mut Versions,
    question: Question,
    chosen: Chosen,
) -> Result<Vec<Command>, OutOfMemory>
    ensures items { let ask = Command.Ask question.entry.change_id.now question.entry.min question.entry.max in
        IfOk result (λ asked. asked.items ≡ ask ∷ marker_if chosen.marked question.entry.change_id.now chosen.version) }
    ensures few { IfOk result (λ asked. vec_len asked ≤ 2) }
    ensures settled { OnOk result
        (versions.new ≡ with_version versions.old question.entry.change_id.now chosen.version) }
    ensures unsettled { OnErr result (versions.new ≡ versions.old) }
{
    let asked = asked_commands(alloc, question, chosen)?;
    versions.settle(question.change_id, chosen.version)?;
    Ok(asked)
}

/// Marks an ask, and its marker if one is issued, as no late cancels. There is room for both.
fn push_marks(late: &mut Vec<bool>, marked: bool)
    requires { vec_len late.old + 2 ≤ vec_capacity late.old }
    ensures { late.new.items ≡ (late.old.items ++ false ∷ []) ++ unmarked_if marked }
{
    late.push_reserved(false);
    if marked {
        late.push_reserved(false);
    }
}

/// Appends commands for which there is room.
fn append_reserved(items: &mut Vec<Command>, mut more: Vec<Command>)
    requires { vec_len items.old + vec_len more ≤ vec_capacity items.old }
    ensures { items.new.items ≡ items.old.items ++ more.items }
{
    match items.append(&mut more) {
        Ok(()) => {}
        Err(_) => unreachable!(),
    }
}
