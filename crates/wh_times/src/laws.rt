//! Laws of the times of a type, each as the contract of a function that does nothing.

ghost use Rattle.wh_times.specs.Laws.{MedianHalves, SlowestIsLongest};

/// At least half of the times are no longer than their median, and at least half are no shorter.
pub fn median_halves()
    ensures { MedianHalves }
{}

/// The longest time is that of one of the things, and no other is longer.
pub fn slowest_is_longest()
    ensures { SlowestIsLongest }
{}
