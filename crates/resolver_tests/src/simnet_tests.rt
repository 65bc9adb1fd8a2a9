//! The tests of `simnet` and `play`, from outside: what no script can order, and scripts that are made.
mod play_tests;
mod tests;
mod texts;
