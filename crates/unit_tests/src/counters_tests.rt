//! The tests of `counters`, from outside: what outcomes are added to by rows, and texts with worked values.
mod outcomes_tests;
mod responses_tests;
