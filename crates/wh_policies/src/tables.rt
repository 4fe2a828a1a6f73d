//! Reads the tables of a document.

ghost use Rattle.std.specs.Prelude.{◌≡◌, IfOk, string_bytes};
ghost use Rattle.toml.specs.View.{table_view, view};
ghost use Rattle.toml.specs.Data.{get_member};
ghost use Rattle.wh_policies.specs.TomlTables.{AreRows, GivesAll, GivesRows, GivesTable, IsRow};

use crate::fault::{KeyFault, bad_value, within};
use crate::fields::table_at;
use crate::policies::Policies;
use crate::reading::{FromTable, read_known};
use crate::table::{PolicyRow, PolicyTable};
use std::alloc::Global;
use toml::{Table, Value};
use wh_events::{Items, Text};

/// Reads the row of a name from its table.
fn row_given<P: FromTable>(
    alloc: Global,
    name: &String,
    value: &Value,
    otherwise: &P,
) -> Result<PolicyRow<P>, KeyFault>
    ensures { IfOk result (IsRow P.gives otherwise.now (string_bytes name.now) (view value.now)) }
{
    let Some(table) = value.as_table() else {
        return Err(bad_value(alloc, name.as_str()));
    };
    match read_known(alloc, table, otherwise) {
        Ok(policy) => Ok(PolicyRow {
            name: Text::new(name.clone()?),
            policy,
        }),
        Err(fault) => Err(within(alloc, name.as_str(), fault)),
    }
}

/// Reads a row from each member of the table.
fn rows_given<P: FromTable>(
    alloc: Global,
    table: &Table,
    otherwise: &P,
) -> Result<Vec<PolicyRow<P>>, KeyFault>
    ensures { IfOk result (λ rows. AreRows P.gives otherwise.now (table_view table.now) rows.items) }
{
    let mut rows = Vec::new(alloc);
    for (name, value) in table.iter() {
        rows.push(row_given(alloc, name, value, otherwise)?)?;
    }
    Ok(rows)
}

/// Reads the policy of all names. A missing table counts as an empty one.
fn all_given<P: FromTable>(
    alloc: Global,
    document: &Table,
    key: &str,
    plain: &P,
) -> Result<P, KeyFault>
    ensures { IfOk result (GivesAll P.gives plain.now (get_member key.now (table_view document.now))) }
{
    match table_at(alloc, document, key)? {
        Some(table) => match read_known(alloc, table, plain) {
            Ok(policy) => Ok(policy),
            Err(fault) => Err(within(alloc, key, fault)),
        },
        None => P::read(alloc, &Table::new(alloc), plain),
    }
}

/// Reads the rows of all names that have one.
fn each_given<P: FromTable>(
    alloc: Global,
    document: &Table,
    key: &str,
    otherwise: &P,
) -> Result<Vec<PolicyRow<P>>, KeyFault>
    ensures { IfOk result (λ rows.
        GivesRows P.gives otherwise.now (get_member key.now (table_view document.now)) rows.items) }
{
    match table_at(alloc, document, key)? {
        Some(table) => match rows_given(alloc, table, otherwise) {
            Ok(rows) => Ok(rows),
            Err(fault) => Err(within(alloc, key, fault)),
        },
        None => Ok(Vec::new(alloc)),
    }
}

/// Reads the policies of one kind with these defaults.
fn table_given<P: FromTable>(
    alloc: Global,
    document: &Table,
    all: &str,
    each: &str,
    plain: &P,
) -> Result<PolicyTable<P>, KeyFault>
    ensures { IfOk result (GivesTable P.gives all.now each.now plain.now (table_view document.now)) }
{
    let otherwise = all_given(alloc, document, all, plain)?;
    let rows = each_given(alloc, document, each, &otherwise)?;
    Ok(PolicyTable {
        rows: Items::new(rows),
        otherwise,
    })
}

impl FromTable for Policies {
    ghost use Rattle.wh_policies.specs.Policies.{GivesPolicies, knows_table};

    ghost known = { knows_table };

    ghost gives = { GivesPolicies };

    fn knows(key: &str) -> bool {
        key == "activities"
            || key == "activity"
            || key == "children"
            || key == "child"
            || key == "failures"
            || key == "failure"
            || key == "continuations"
            || key == "continuation"
    }

    fn read(alloc: Global, table: &Table, otherwise: &Policies) -> Result<Policies, KeyFault> {
        let plain = &otherwise.activities.otherwise;
        let activities = table_given(alloc, table, "activities", "activity", plain)?;
        let plain = &otherwise.children.otherwise;
        let children = table_given(alloc, table, "children", "child", plain)?;
        let plain = &otherwise.failures.otherwise;
        let failures = table_given(alloc, table, "failures", "failure", plain)?;
        let plain = &otherwise.continued.otherwise;
        let continued = table_given(alloc, table, "continuations", "continuation", plain)?;
        Ok(Policies {
            activities,
            children,
            failures,
            continued,
        })
    }
}
