//! Which moves are sure to be a server's.
ghost use Rattle.std.specs.Prelude.{◌≡◌, map};
ghost use Rattle.wh_stuck_check.specs.Verdicts.{move_of};
ghost use Rattle.wh_stuck_check.specs.Sure.{gives_no_version, asks_no_cancel, cancels_once, are_sure};

use crate::moves::ServerMove;
use wh_workflow::Job;

/// Whether none of the moves gives a version.
fn gives_no_version(moves: &[ServerMove]) -> bool
    ensures { result ≡ gives_no_version (map move_of moves.now) }
{
    for one in moves {
        if matches!(one, ServerMove::GivesJob(Job::Version { .. })) {
            return false;
        }
    }
    true
}

/// Whether none of the moves asks the run to cancel.
fn asks_no_cancel(moves: &[ServerMove]) -> bool
    ensures { result ≡ asks_no_cancel (map move_of moves.now) }
{
    for one in moves {
        if matches!(one, ServerMove::GivesJob(Job::CancelRequested)) {
            return false;
        }
    }
    true
}

/// Whether at most one of the moves asks the run to cancel.
fn cancels_once(moves: &[ServerMove]) -> bool
    ensures { result ≡ cancels_once (map move_of moves.now) }
{
    for (place, one) in moves.iter().enumerate() {
        if matches!(one, ServerMove::GivesJob(Job::CancelRequested)) {
            return asks_no_cancel(&moves[place + 1..]);
        }
    }
    true
}

/// Whether the moves have no version, and at most one cancel request.
pub(crate) fn are_sure(moves: &[ServerMove]) -> bool
    ensures { result ≡ are_sure (map move_of moves.now) }
{
    gives_no_version(moves) && cancels_once(moves)
}
