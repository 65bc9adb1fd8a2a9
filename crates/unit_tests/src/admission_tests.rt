//! The tests of `admission`, from outside: each move by rows, and lists of moves against the plain definition.
mod moves;
mod moves_tests;
mod plain;
mod random_tests;
