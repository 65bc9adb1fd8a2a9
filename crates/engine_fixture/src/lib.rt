//! A resolver for tests: what it is told and what comes of it, in short words.
//!
//! `TestResolver` holds a resolver with one hint, and notes the last ask that went out: `Ask` makes the events that
//! answer it. `Out` says in short what a step brought.
//!
//! ```text
//! let mut resolver = TestResolver::new(rt.alloc(), Addr([192, 0, 2, 1]))?;
//! let query = resolver.query(3, 0, QUERY)?;
//! assert_eq!(rt; resolver.step(&query), Out::Asked(1));
//! let ask = resolver.ask();
//! let reply = ask.told(20, under(rt.alloc(), ask.id, FOUND)?);
//! assert_eq!(rt; resolver.step(&reply), Out::Replied);
//! ```
#![tactic(auto)]

mod ask;
mod out;
mod resolver;

pub use ask::{Ask, bounded, under};
pub use out::Out;
pub use resolver::TestResolver;
