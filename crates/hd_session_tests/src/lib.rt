//! Tests of calls, sessions, decks, what the commands do over a store, and serving over frames: lists of calls, accesses, growths, reads and writes that are refused,
//! what calls cost, and volumes with bytes changed.
#![tactic(auto)]

#[cfg(test)]
mod access_tests;
#[cfg(test)]
mod acts;
#[cfg(test)]
mod bases;
#[cfg(test)]
mod calls;
#[cfg(test)]
mod changed_tests;
#[cfg(test)]
mod costs_tests;
#[cfg(test)]
mod count_tests;
#[cfg(test)]
mod flush_tests;
#[cfg(test)]
mod growth_tests;
#[cfg(test)]
mod lasting;
#[cfg(test)]
mod list_tests;
#[cfg(test)]
mod list_text;
#[cfg(test)]
mod list_trial;
#[cfg(test)]
mod outcomes;
#[cfg(test)]
mod played;
#[cfg(test)]
mod rows;
#[cfg(test)]
mod searches;
#[cfg(test)]
mod serve_act;
#[cfg(test)]
mod session_act;
#[cfg(test)]
mod sources;
#[cfg(test)]
mod stores;
#[cfg(test)]
mod stream_tests;
#[cfg(test)]
mod streams;
#[cfg(test)]
mod texts;
#[cfg(test)]
mod trial;
