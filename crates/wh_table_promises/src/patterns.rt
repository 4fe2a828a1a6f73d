//! Whether something happens by a job of which only a pattern is known.
ghost use Rattle.std.specs.Prelude.{◌≡◌, map, option_map};
ghost use Rattle.wh_rows.specs.Deciding.{may_be, may_happen, must_happen};
ghost use Rattle.wh_table_promises.specs.Promised.{happening_of};

use crate::promise::Happening;
use wh_events::Text;
use wh_row_rules::{are_apart, covers, is_among};
use wh_rows::JobPattern;

/// Whether a job of this pattern, if there is one, may be of that.
fn may_be(known: Option<&JobPattern<Text>>, wanted: &JobPattern<Text>) -> bool
    ensures { result ≡ may_be (option_map (λ pattern. pattern.now) known.entry) wanted.now }
{
    match known {
        None => true,
        Some(one) => !are_apart(one, wanted),
    }
}

/// Whether this may happen by a job that is of the pattern `known` and of none of `passed`.
pub(crate) fn may_happen(
    known: Option<&JobPattern<Text>>,
    passed: &[&JobPattern<Text>],
    what: &Happening,
) -> bool
    ensures { result ≡ may_happen (option_map (λ pattern. pattern.now) known.entry)
        (map (λ pattern. pattern.now) passed.now) (happening_of what.now) }
{
    match what {
        Happening::Comes(wanted) => !is_among(wanted, passed) && may_be(known, wanted),
        _ => false,
    }
}

/// Whether this happens by each such job.
pub(crate) fn must_happen(known: Option<&JobPattern<Text>>, what: &Happening) -> bool
    ensures { result ≡ must_happen (option_map (λ pattern. pattern.now) known.entry) (happening_of what.now) }
{
    match what {
        Happening::Comes(wanted) => match known {
            Some(one) => covers(wanted, one),
            None => false,
        },
        _ => false,
    }
}
