//! The tests of `book`, `pool`, `workers` and `storm`, from outside: machines that many workers share.
mod book_tests;
mod pool_tests;
mod storm_tests;
mod workers_tests;
