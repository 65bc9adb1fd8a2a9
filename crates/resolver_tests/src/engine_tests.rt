//! The tests of `engine`, from outside, that no row of `vectors_resolver` can hold: each change of one byte of a message,
//! what comes while memory is refused, and steps on bytes beside steps on what was read of them.
mod bytes;
mod fixtures;
mod reply_tests;
mod starved_tests;
mod talks;
mod tests;
mod typed_step_tests;
mod world_tests;
