//! The tests of the resolver, from outside, that no row of `vectors_resolver` and no play of `tests/plays` can hold: its
//! steps alone, in a network in memory, and shared by many workers.
#![tactic(auto)]

#[cfg(test)]
mod engine_tests;
#[cfg(test)]
mod simnet_tests;
#[cfg(test)]
mod threads_tests;
