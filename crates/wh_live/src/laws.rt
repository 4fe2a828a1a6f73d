//! What becomes of failed polls and answers, each law as the contract of a function that does
//! nothing.
ghost use Rattle.wh_live.specs.Answers.{CausesByFault, ReceiptsByFault, UnsentByFault};

/// A task is failed with a non-determinism error exactly if its commands differ from their record.
/// An answer whose call failed is never acknowledged. One that is not sent, since what its run
/// carries over could not be fetched, never counts as taken.
pub fn answers_are_said()
    ensures causes { CausesByFault }
    ensures receipts { ReceiptsByFault }
    ensures unsent { UnsentByFault }
{}
