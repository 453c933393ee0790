//! Tests of the readers of text: statements, DBD and PSB sources, segment search arguments, and rows as text. What the program shows of them is played by
//! `tests/program_test.py`.
#![tactic(auto)]

#[cfg(test)]
mod argument_tests;
#[cfg(test)]
mod rows_tests;
#[cfg(test)]
mod source_tests;
#[cfg(test)]
mod sources;
