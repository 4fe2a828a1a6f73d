//! Judges policies that were read.

ghost use Rattle.std.specs.Prelude.{◌≡◌, All, IfOk, None, OnOk};
ghost use Rattle.toml.specs.View.{table_view};
ghost use Rattle.wh_policies.specs.Excesses.{AreFree, IsFree};
ghost use Rattle.wh_policies.specs.Policies.{GivesPolicies, knows_table};
ghost use Rattle.wh_policies.specs.TomlTables.{AllKnown};

use crate::excess::Policy;
use crate::fault::{KeyFault, above, within};
use crate::policies::Policies;
use crate::reading::read_known;
use crate::table::{PolicyRow, PolicyTable};
use std::alloc::Global;
use toml::Table;

/// Checks that no row's policy has a time above another one.
fn judge_rows<P: Policy>(alloc: Global, each: &str, rows: &[PolicyRow<P>]) -> Result<(), KeyFault>
    ensures { OnOk result (All (λ row. P.excess row.policy ≡ None) rows.now) }
{
    for row in rows {
        if let Some(excess) = row.policy.excess() {
            let fault = within(alloc, row.name.get(), above(alloc, excess));
            return Err(within(alloc, each, fault));
        }
    }
    Ok(())
}

/// Checks that no policy of a kind has a time above another one.
fn judge_table<P: Policy>(
    alloc: Global,
    all: &str,
    each: &str,
    table: &PolicyTable<P>,
) -> Result<(), KeyFault>
    ensures { OnOk result (IsFree P.excess table.now) }
{
    match table.otherwise.excess() {
        Some(excess) => Err(within(alloc, all, above(alloc, excess))),
        None => judge_rows(alloc, each, table.rows.get()),
    }
}

/// Checks that no policy has a time above another one.
fn judge(alloc: Global, policies: &Policies) -> Result<(), KeyFault>
    ensures { OnOk result (AreFree policies.now) }
{
    judge_table(alloc, "activities", "activity", &policies.activities)?;
    judge_table(alloc, "children", "child", &policies.children)?;
    judge_table(alloc, "continuations", "continuation", &policies.continued)
}

/// Reads policies from a document and judges them.
pub(crate) fn policies_in(
    alloc: Global,
    document: &Table,
    plain: &Policies,
) -> Result<Policies, KeyFault>
    ensures known { IfOk result (λ _. AllKnown knows_table (table_view document.now)) }
    ensures given { IfOk result (GivesPolicies (table_view document.now) plain.now) }
    ensures free { IfOk result AreFree }
{
    let policies = read_known(alloc, document, plain)?;
    match judge(alloc, &policies) {
        Ok(()) => Ok(policies),
        Err(fault) => {
            drop::<Policies>(policies);
            Err(fault)
        }
    }
}

/// Returns whether the fault of a text's first lines is one of the whole text, whose fault is
/// `whole`. A time above another one may not be, since later lines can change both.
pub(crate) fn stays(fault: &KeyFault, whole: &KeyFault) -> bool {
    match (fault, whole) {
        (
            KeyFault::Above { key, limit },
            KeyFault::Above {
                key: other_key,
                limit: other_limit,
            },
        ) => key.get() == other_key.get() && limit.get() == other_limit.get(),
        (KeyFault::Above { .. }, _) => false,
        _ => true,
    }
}
