//! Where the last tasks before an index begin.

ghost use Rattle.std.specs.Prelude.{◌≡◌};

/// Where the last four tasks before an index begin, the last one first; 0 where there are fewer.
#[derive(Clone, Copy)]
pub(crate) struct Begins {
    pub(crate) last: usize,
    pub(crate) second: usize,
    pub(crate) third: usize,
    pub(crate) fourth: usize,
}

/// Returns where the last four tasks begin, when a task has been passed that begins at the index.
pub(crate) fn begins_with(begins: Begins, at: usize) -> Begins
    ensures last { result.last ≡ at }
    ensures second { result.second ≡ begins.last }
    ensures third { result.third ≡ begins.second }
    ensures fourth { result.fourth ≡ begins.third }
{
    Begins {
        last: at,
        second: begins.last,
        third: begins.second,
        fourth: begins.third,
    }
}
