//! The tests of `authority`, from outside: by what it makes public.
mod made;
mod plain_tests;
mod tests;
