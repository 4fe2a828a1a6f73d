//! The macro that writes rows, one a line.

/// Builds the rows of a table. Each row is
/// `state: job, if [conditions] => [commands], do [effects] => state;`.
/// Omit `if` and `do` if there is nothing to write there, and the last `=> state` if the row closes
/// the run or stays in its state.
///
/// An activity with retries is two rows; the first one applies while attempts are left:
///
/// ```text
/// charging: NotDone("charge"), if [Below(TRIES, 2)]
///     => [StartActivity("charge", "ChargeCard", Input)], do [Up(TRIES)];
/// charging: NotDone("charge") => [Fail("charge")];
/// ```
#[macro_export]
macro_rules! rows {
    (@list) => { &[] };
    (@list [$($one:expr),*]) => { &[$($one),*] };
    (@next) => { "same" };
    (@next $next:ident) => { stringify!($next) };
    ($($state:ident: $job:expr $(, if $conditions:tt)?
        => [$($give:expr),*] $(, do $effects:tt)? $(=> $next:ident)?;)*) => {
        &[$($crate::RowOf {
            state: stringify!($state),
            job: $job,
            conditions: $crate::rows!(@list $($conditions)?),
            gives: &[$($give),*],
            effects: $crate::rows!(@list $($effects)?),
            next: $crate::rows!(@next $($next)?),
        }),*]
    };
}
