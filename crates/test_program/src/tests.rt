//! A module for each file of `src/tests`.

mod command_lines;
mod explanation_objects;
mod explanations;
mod jobs;
mod orders;
mod promises;
mod promising;
mod querying;
mod reports;
mod scenarios;
mod serve;
mod subscriptions;
mod table_checks;
mod table_faults;
mod table_histories;
mod table_limits;
mod table_runs;
mod table_words;
mod texts;
mod values;
mod viewing;
