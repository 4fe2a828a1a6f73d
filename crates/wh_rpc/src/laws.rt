//! What holds for every line of JSON-RPC 2.0 that is written, and after any steps of a table of
//! open calls, each law as the contract of a function that does nothing. `T` is what waits for a
//! response.

ghost use Rattle.wh_rpc.specs.Reasons.{MeaningsHaveNoFault, ReasonsComeInOrder};
ghost use Rattle.wh_rpc.specs.Steps.{IdsRunUpwards, ResponsesFindTheirCalls};
ghost use Rattle.wh_rpc.specs.Steps.{ResponsesAreGivenOnce, EndedCallsStayEnded, PollsEndAtShutdown};
ghost use Rattle.wh_rpc.specs.WrittenLines.{WrittenLinesReadBack};

/// Every response and every shutdown, once written as a line, is read as what was written.
pub fn written_lines_read_back()
    ensures { WrittenLinesReadBack }
{}

/// A line is malformed for a reason exactly if this is the first one that applies to it, in the
/// order of `BadLine`. To a line that is read no reason applies.
pub fn reasons_come_in_order()
    ensures first { ReasonsComeInOrder }
    ensures none { MeaningsHaveNoFault }
{}

/// Ids are assigned in ascending order, and none twice.
pub fn ids_run_upwards<T>()
    ensures { IdsRunUpwards T }
{}

/// A response goes to the call of its id if that call is still open, and to no other. Of all
/// responses with one id at most one goes to a call.
pub fn responses_find_their_calls<T>()
    ensures call { ResponsesFindTheirCalls T }
    ensures once { ResponsesAreGivenOnce T }
{}

/// After the calls have ended none is opened. After the bridge has sent notice that it shuts down
/// no poll is opened.
pub fn ended_calls_stay_ended<T>()
    ensures ended { EndedCallsStayEnded T }
    ensures polls { PollsEndAtShutdown T }
{}
