//! The tests of `play`, from outside: by what it makes public. Worked plays are texts (tests/plays, tools/plays).
mod dice;
mod made;
mod tests;
