//! What a workflow type declares.
ghost use Rattle.std.specs.Prelude.{◌≡◌, ◌∷◌, ◌++◌, [], IfOk};
ghost use Rattle.wh_workflow.specs.Definitions.{nothing_defined};

use std::alloc::Global;
use wh_events::{Items, OutOfMemory, Text};

/// What a workflow type declares (Temporal's `WorkflowDefinition`), as far as it is known.
#[derive(Debug, Drop)]
pub struct WorkflowDefinition {
    /// The names of its queries.
    pub queries: Items<Text>,
    /// The names of the signals that it waits for.
    pub signals: Items<Text>,
}

impl WorkflowDefinition {
    /// Returns a definition without queries and signals.
    pub fn nothing(alloc: Global) -> Self
        ensures { result ≡ nothing_defined }
    {
        WorkflowDefinition {
            queries: Items::new(Vec::new(alloc)),
            signals: Items::new(Vec::new(alloc)),
        }
    }

    /// Returns the definition with one more query, or `OutOfMemory` if there was no memory for it.
    pub fn with_query(self, alloc: Global, name: &str) -> Result<Self, OutOfMemory>
        ensures { IfOk result (λ given. given ≡ record self { queries = self.queries ++ name.now ∷ [] }) }
    {
        let WorkflowDefinition { queries, signals } = self;
        match with_name(alloc, queries, name) {
            Ok(queries) => Ok(WorkflowDefinition { queries, signals }),
            Err(OutOfMemory) => {
                drop(signals);
                Err(OutOfMemory)
            }
        }
    }

    /// Returns the definition with one more signal, or `OutOfMemory` if there was no memory for it.
    pub fn with_signal(self, alloc: Global, name: &str) -> Result<Self, OutOfMemory>
        ensures { IfOk result (λ given. given ≡ record self { signals = self.signals ++ name.now ∷ [] }) }
    {
        let WorkflowDefinition { queries, signals } = self;
        match with_name(alloc, signals, name) {
            Ok(signals) => Ok(WorkflowDefinition { queries, signals }),
            Err(OutOfMemory) => {
                drop(queries);
                Err(OutOfMemory)
            }
        }
    }
}

/// Returns the names with one more at the end.
fn with_name(alloc: Global, names: Items<Text>, name: &str) -> Result<Items<Text>, OutOfMemory>
    ensures { IfOk result (λ given. given ≡ names ++ name.now ∷ []) }
{
    let mut names = names.into_inner();
    let name = Text::new(String::from_str(alloc, name)?);
    names.push(name)?;
    Ok(Items::new(names))
}
