//! Policies by name.

ghost use Rattle.std.specs.Prelude.{◌≡◌, option_map};
ghost use Rattle.wh_policies.specs.Tables.{first_row, policy_of};

use wh_events::{Items, Text};

/// One name and its policy.
#[derive(Debug, Drop)]
pub struct PolicyRow<P> {
    /// The name in the command: an activity's type, the workflow type of a child or of a run that
    /// continues this one, a failure's message.
    pub name: Text,
    /// Its policy.
    pub policy: P,
}

/// Policies by name, and one for all other names.
#[derive(Debug, Drop)]
pub struct PolicyTable<P> {
    /// The rows. If a name has two rows, the first one counts.
    pub rows: Items<PolicyRow<P>>,
    /// The policy of each name that has no row.
    pub otherwise: P,
}

/// Returns the first row that has the name.
fn first_row<'a, P>(rows: &'a [PolicyRow<P>], name: &str) -> Option<&'a PolicyRow<P>>
    ensures { option_map (λ row. row.now) result ≡ first_row name.now rows.now }
{
    for row in rows {
        if row.name.get() == name {
            return Some(row);
        }
    }
    None
}

impl<P> PolicyTable<P> {
    /// Returns the policy of the name: that of the first row with this name, otherwise the policy
    /// of all other names.
    pub fn policy_of(&self, name: &str) -> &P
        ensures { result.now ≡ policy_of self.now name.now }
    {
        match first_row(self.rows.get(), name) {
            Some(row) => &row.policy,
            None => &self.otherwise,
        }
    }
}
