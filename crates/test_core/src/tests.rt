//! A module for each file of `src/tests`. `lines` holds what those share that compare lines of
//! histories, `fixtures` what `hosting` and `working` share.

mod activation;
mod cache;
mod commands;
mod cuts;
mod events;
mod fixtures;
mod heartbeats;
mod host;
mod hosting;
mod json;
mod judging;
mod ledger;
mod lines;
mod machines;
mod matching;
mod places;
mod querying;
mod reading;
mod replay;
mod runs;
mod scripts;
mod slots;
mod split;
mod steps;
mod workflow;
mod working;
