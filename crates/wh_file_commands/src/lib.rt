//! The commands of a file: `explain`, also with `--recorded` or `--html`, and `query`, each as what
//! it writes, what it reports and its status, with `--recorded` also of more files; and what a query
//! of a history gives.
#![tactic(auto)]

mod explain;
mod good_files;
mod overview;
mod page;
mod queried;
mod query;
mod query_inputs;
mod query_report;
mod query_texts;
mod recorded;
mod view;

pub use explain::explain_path;
pub use page::page_path;
pub use queried::{Queried, query_file};
pub use query::query_path;
pub use query_inputs::query_of;
pub use query_report::{query_command, status_of, write_queried};
pub use recorded::view_paths;
pub use wh_console::Format;
pub use wh_report::CommandFault;
