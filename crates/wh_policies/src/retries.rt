//! Reads retry policies.

ghost use Rattle.std.specs.Prelude.{◌≡◌, IfOk, IfSome, None, Some, codes};
ghost use Rattle.toml.specs.Data.{as_str, get_member};
ghost use Rattle.toml.specs.View.{array_view, table_view, view};
ghost use Rattle.wh_policies.specs.Retries.{AreTexts, GivesCoefficient, GivesRetry, GivesRetryAt, GivesTypes};
ghost use Rattle.wh_policies.specs.Retries.{GivesRetryIfAny, is_factor};

use crate::fault::{KeyFault, bad_value, within};
use crate::fields::{number_at, seconds_at, table_at, value_at};
use crate::policies::RetryPolicy;
use crate::reading::{FromTable, read_known};
use std::alloc::Global;
use toml::value::Array;
use toml::{Table, Value};
use wh_events::{Items, OutOfMemory, Text};

/// The least factor by which intervals may grow.
const LEAST_FACTOR: f64 = 1.0;

/// Returns whether intervals may grow by the factor: it is a finite number of at least 1.
fn is_factor(factor: f64) -> bool
    ensures { result ≡ is_factor factor }
{
    factor >= LEAST_FACTOR && factor.is_finite()
}

/// Reads the factor by which intervals grow, or returns `otherwise` if the table does not have the
/// key. `Bad` if it is not a finite number of at least 1.
fn coefficient_at(
    alloc: Global,
    table: &Table,
    otherwise: Option<f64>,
) -> Result<Option<f64>, KeyFault>
    ensures { IfOk result (GivesCoefficient otherwise
        (get_member (codes "backoff_coefficient") (table_view table.now))) }
{
    let Some(value) = value_at(table, "backoff_coefficient") else {
        return Ok(otherwise);
    };
    match value.as_float() {
        Some(factor) if is_factor(factor) => Ok(Some(factor)),
        _ => Err(bad_value(alloc, "backoff_coefficient")),
    }
}

/// Copies a value as a text, if it is a string.
fn text_of(alloc: Global, value: &Value) -> Result<Option<Text>, OutOfMemory>
    ensures { IfOk result (λ text. IfSome text (λ t. as_str (view value.now) ≡ Some t)) }
{
    match value.as_str() {
        Some(text) => Ok(Some(Text::new(String::from_str(alloc, text)?))),
        None => Ok(None),
    }
}

/// Copies the values as texts, if each one is a string.
fn texts_of(alloc: Global, values: &Array) -> Result<Option<Vec<Text>>, OutOfMemory>
    ensures { IfOk result (λ texts. IfSome texts (λ ts. AreTexts (array_view values.now) ts.items)) }
{
    let mut texts = Vec::new(alloc);
    for value in values {
        match text_of(alloc, value)? {
            Some(text) => texts.push(text)?,
            None => return Ok(None),
        }
    }
    Ok(Some(texts))
}

/// Reads the types of failures that are not retried, or returns `otherwise` if the table does not
/// have the key.
fn types_at(alloc: Global, table: &Table, otherwise: &Items<Text>) -> Result<Items<Text>, KeyFault>
    ensures { IfOk result (GivesTypes otherwise.now (get_member (codes "non_retryable") (table_view table.now))) }
{
    let Some(value) = value_at(table, "non_retryable") else {
        return Ok(otherwise.try_copy()?);
    };
    let Some(values) = value.as_array() else {
        return Err(bad_value(alloc, "non_retryable"));
    };
    match texts_of(alloc, values)? {
        Some(types) => Ok(Items::new(types)),
        None => Err(bad_value(alloc, "non_retryable")),
    }
}

/// The maximum number of attempts that the server's number can hold.
const MOST_ATTEMPTS: u32 = 2_147_483_647;

impl FromTable for RetryPolicy {
    ghost use Rattle.std.specs.Prelude.{◌||◌, bytes_eq, codes};
    ghost use Rattle.wh_policies.specs.Retries.{GivesRetry, knows_retry};

    ghost known = { knows_retry };

    ghost gives = { GivesRetry };

    fn knows(key: &str) -> bool {
        key == "maximum_attempts"
            || key == "initial_interval"
            || key == "maximum_interval"
            || key == "backoff_coefficient"
            || key == "non_retryable"
    }

    fn read(
        alloc: Global,
        table: &Table,
        otherwise: &RetryPolicy,
    ) -> Result<RetryPolicy, KeyFault> {
        let attempts = otherwise.maximum_attempts;
        let attempts = number_at(alloc, table, "maximum_attempts", 0, MOST_ATTEMPTS, attempts)?;
        let initial = seconds_at(alloc, table, "initial_interval", otherwise.initial_interval)?;
        let maximum = seconds_at(alloc, table, "maximum_interval", otherwise.maximum_interval)?;
        let factor = coefficient_at(alloc, table, otherwise.backoff_coefficient)?;
        let non_retryable = types_at(alloc, table, &otherwise.non_retryable)?;
        Ok(RetryPolicy {
            maximum_attempts: attempts,
            initial_interval: initial,
            maximum_interval: maximum,
            backoff_coefficient: factor,
            non_retryable,
        })
    }
}

/// Reads the retry policy with these defaults.
pub(crate) fn retry_at(
    alloc: Global,
    table: &Table,
    otherwise: &RetryPolicy,
) -> Result<RetryPolicy, KeyFault>
    ensures { IfOk result (GivesRetryAt otherwise.now (get_member (codes "retry") (table_view table.now))) }
{
    match table_at(alloc, table, "retry")? {
        Some(retry) => match read_known(alloc, retry, otherwise) {
            Ok(policy) => Ok(policy),
            Err(fault) => Err(within(alloc, "retry", fault)),
        },
        None => RetryPolicy::read(alloc, &Table::new(alloc), otherwise),
    }
}

/// Reads a retry policy without defaults: `None` if the table does not have one.
fn retry_anew(alloc: Global, table: &Table) -> Result<Option<RetryPolicy>, KeyFault>
    ensures { IfOk result (GivesRetryIfAny None (get_member (codes "retry") (table_view table.now))) }
{
    let Some(retry) = table_at(alloc, table, "retry")? else {
        return Ok(None);
    };
    match read_known(alloc, retry, &RetryPolicy::attempts(alloc, 0)) {
        Ok(policy) => Ok(Some(policy)),
        Err(fault) => Err(within(alloc, "retry", fault)),
    }
}

/// Reads a retry policy that may be missing: with the defaults if there are any; without them it is
/// `None` unless the table has one, in which the number of attempts is left to the server unless it
/// says so.
pub(crate) fn retry_if_any(
    alloc: Global,
    table: &Table,
    otherwise: &Option<RetryPolicy>,
) -> Result<Option<RetryPolicy>, KeyFault>
    ensures { IfOk result (GivesRetryIfAny otherwise.now (get_member (codes "retry") (table_view table.now))) }
{
    match otherwise {
        Some(policy) => Ok(Some(retry_at(alloc, table, policy)?)),
        None => retry_anew(alloc, table),
    }
}
