//! Tests of the program's commands and of its command line, of explanations, of views of any history,
//! and of workflows as tables of rows, in a program or got with each run: what no contract says.
#![tactic(auto)]

#[cfg(test)]
mod tests;
