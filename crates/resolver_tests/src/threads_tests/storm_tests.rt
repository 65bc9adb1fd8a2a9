//! The tests of `storm`, from outside: by what it makes public. Storms are rows of tests/commands.
mod small;
mod step_tests;
