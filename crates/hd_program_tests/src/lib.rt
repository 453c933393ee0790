//! Tests of `hd` inside the process: what cannot be seen from outside. What can is played by `tests/program_test.py`.
#![tactic(auto)]

#[cfg(test)]
mod memory_tests;
#[cfg(test)]
mod pieces_tests;
#[cfg(test)]
mod progress_tests;
#[cfg(test)]
mod stop_tests;
#[cfg(test)]
mod told_tests;
#[cfg(test)]
mod words;
