//! A law of views, as the contract of a function that does nothing.

ghost use Rattle.wh_view.specs.Laws.{BodiesAreViewed, NoneHasAFault};

/// If the reader of histories accepts a history, its view has the bodies of its events, one by one,
/// and no fault.
pub fn histories_are_viewed()
    ensures bodies { BodiesAreViewed }
    ensures faults { NoneHasAFault }
{}
