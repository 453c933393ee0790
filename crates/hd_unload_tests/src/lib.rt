//! Tests of the checker, of unload and of reload.
#![tactic(auto)]

#[cfg(test)]
mod change_tests;
#[cfg(test)]
mod cost_tests;
#[cfg(test)]
mod directory_tests;
#[cfg(test)]
mod images;
#[cfg(test)]
mod linked_tests;
#[cfg(test)]
mod stores;
#[cfg(test)]
mod trial;
#[cfg(test)]
mod trial_tests;
