//! Fetches the pages of a history.

ghost use Rattle.std.specs.Prelude.{◌≡◌, [], IfErr, IfOk, OnOk, map};
ghost use Rattle.serde_json.specs.View.{view};
ghost use Rattle.wh_messages.specs.Responses.{page_seen};
ghost use Rattle.wh_client.specs.Pages.{BeginsNot, BeginsWith, IsPageFault, IsPaged};
ghost use Rattle.wh_client.specs.Pages.{ReadsNotOn, ReadsOn};

use crate::asking::{AskFault, ask};
use crate::connection::Connection;
use serde_json::Value;
use wh_commands::WorkerNames;
use wh_events::{RunKey, Text};
use wh_messages::{HistoryPage, history, history_page};

/// The maximum number of pages of a history.
const MOST_PAGES: u64 = 1_000_000;

/// Fetches the page of a run's history for a token, or the first one if the token is empty.
#[tactic(auto, using(crate::proofs::Paging::paged_by))]
pub(crate) fn ask_page<L: Connection>(
    connection: &L,
    names: &WorkerNames,
    run: &RunKey,
    token: &Text,
) -> Result<HistoryPage, AskFault>
    ensures page { IfOk result (λ page. IsPaged L.gives names.now run.now token.now (page_seen page)) }
    ensures failed { IfErr result (IsPageFault L.gives L.fails names.now run.now token.now) }
{
    let (workflow_id, run_id) = (run.workflow_id.get(), run.run_id.get());
    let params = history(
        connection.allocator(),
        names,
        workflow_id,
        run_id,
        token.get(),
    )?;
    let (_id, value) = ask(connection, "GetWorkflowExecutionHistory", params)?;
    match history_page(connection.allocator(), value)? {
        Some(page) => Ok(page),
        None => Err(AskFault::Unreadable),
    }
}

/// Fetches the first page of a run's history that has an event, or the last one if none has.
pub(crate) fn ask_first_page<L: Connection>(
    connection: &L,
    names: &WorkerNames,
    run: &RunKey,
) -> Result<HistoryPage, AskFault>
    ensures begins { IfOk result (λ page. BeginsWith L.gives names.now run.now (page_seen page)) }
    ensures last { IfOk result (λ page. page.members.items ≡ [] → page.next_page ≡ []) }
    ensures failed { IfErr result (BeginsNot L.gives L.fails names.now run.now) }
{
    let mut token = Text::new(String::new(connection.allocator()));
    for _page in 0..MOST_PAGES {
        let page = ask_page(connection, names, run, &token)?;
        if !page.members.as_slice().is_empty() || page.next_page.get().is_empty() {
            return Ok(page);
        }
        token = page.next_page;
    }
    Err(AskFault::TooManyPages)
}

/// Appends the events of all pages of a run's history from a token on, or of the whole history if
/// the token is empty. After an error some of them may have been appended.
pub(crate) fn append_pages<L: Connection>(
    connection: &L,
    names: &WorkerNames,
    run: &RunKey,
    token: Text,
    members: &mut Vec<Value>,
) -> Result<(), AskFault>
    ensures appended { OnOk result (ReadsOn L.gives names.now run.now token
        (map view members.old.items) (map view members.new.items)) }
    ensures failed { IfErr result (ReadsNotOn L.gives L.fails names.now run.now token) }
{
    let mut token = token;
    for _page in 0..MOST_PAGES {
        let HistoryPage {
            members: mut more,
            next_page,
        } = ask_page(connection, names, run, &token)?;
        members.append(&mut more)?;
        if next_page.get().is_empty() {
            return Ok(());
        }
        token = next_page;
    }
    Err(AskFault::TooManyPages)
}
