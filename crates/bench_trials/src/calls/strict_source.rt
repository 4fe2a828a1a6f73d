//! A source that lets runs be cached only if it took their answers.

ghost use Rattle.std.specs.Prelude.{◌≡◌};

use wh_events::{Event, RunKey};
use wh_poll::{
    Acceptance, ActivityAnswer, ActivityTask, Polled, RunUse, SourceFault, TaskSource, WorkflowTask,
};
use wh_recorded::ScriptSource;
use wh_replay::Answer;
use wh_slots::TaskName;

/// A source of recorded histories that lets the run of a task be cached only if it took the answer
/// to that task, as a live source does.
#[derive(Drop)]
pub(crate) struct StrictSource {
    script: ScriptSource,
    answered: Option<TaskName>,
}

impl StrictSource {
    /// Returns the source of these histories, which was sent nothing yet.
    pub(crate) fn new(script: ScriptSource) -> StrictSource {
        StrictSource {
            script,
            answered: None,
        }
    }
}

impl TaskSource for StrictSource {
    ghost use Rattle.std.specs.Prelude.{◌≡◌, Some};
    ghost use Rattle.wh_recorded.specs.Calls.{ComesFrom};
    ghost use Rattle.wh_recorded.specs.Rounds.{Gives, Recounts};

    ghost answers = { λ source. source.script.answers };

    ghost failures = { λ source. 0 };

    ghost delivers = { λ source. Gives source.script.histories };

    ghost fetches = { λ source. Recounts source.script.histories };

    ghost comes_from = { λ later first. ComesFrom later.script first.script };

    ghost caches = { λ source name. source.answered ≡ Some name };

    fn poll_workflow(&mut self) -> Result<Polled<WorkflowTask>, SourceFault> {
        self.answered = None;
        self.script.poll_workflow()
    }

    fn poll_activity(&mut self) -> Result<Polled<ActivityTask>, SourceFault> {
        self.script.poll_activity()
    }

    fn whole(&mut self, key: &RunKey, up_to: u64) -> Result<Vec<Event>, SourceFault> {
        self.script.whole(key, up_to)
    }

    fn answer_workflow(&mut self, name: TaskName, answer: Answer) -> Result<(), SourceFault> {
        self.script.answer_workflow(name, answer)
    }

    fn answer_replayed(
        &mut self,
        name: TaskName,
        answer: Answer,
        _events: &[Event],
        _steps: u64,
    ) -> Acceptance {
        let sent = self.script.answer_workflow(name, answer);
        if sent.is_err() {
            return Acceptance {
                sent,
                run: RunUse::Discard,
            };
        }
        self.answered = Some(name);
        Acceptance {
            sent,
            run: RunUse::Cache,
        }
    }

    fn without_answer(&self) -> RunUse {
        RunUse::Discard
    }

    fn answer_activity(
        &mut self,
        name: TaskName,
        answer: ActivityAnswer,
    ) -> Result<(), SourceFault> {
        self.script.answer_activity(name, answer)
    }
}
