//! A client's query, and the question of a refusal, shared.
ghost use Rattle.std.specs.Prelude.{◌≡◌, IfOk, option_copied};

use crate::queries::Query;
use memory::{Heap, Starved};
use std::alloc::{AllocError, Allocator, Global};
use std::marker::Model;
use std::ops::Deref;
use std::sync::Arc;
use wire::Echo;

/// A client's query, kept once for all that hold it: a clone counts up and takes no memory, and the last one frees it.
/// Contracts see the query.
pub struct SharedQuery<A: Allocator = Global> {
    query: Arc<Query<A>, A>,
}

impl<A: Allocator> Model for SharedQuery<A> {
    ghost use Rattle.std.specs.Arc.{arc_value};
    ghost use Rattle.front.specs.declared.queries.Query.{Query as QuerySpec};

    ghost Value = { QuerySpec A };

    ghost view = { λ s. arc_value s.query };
}

impl<A: Heap> SharedQuery<A> {
    /// This query.
    pub fn new(alloc: A, query: Query<A>) -> Result<SharedQuery<A>, Starved>
        ensures { IfOk result (λ s. s ≡ query) }
    {
        Ok(SharedQuery {
            query: Arc::new(alloc, query)?,
        })
    }
}

impl<A: Allocator> Deref for SharedQuery<A> {
    type Target = Query<A>;

    ghost deref_gives = { λ s q. q ≡ s };

    fn deref(&self) -> &Query<A>
        ensures { result.now ≡ self.now }
    {
        &self.query
    }
}

impl<A: Allocator> Clone for SharedQuery<A> {
    ghost is_clone = { λ x y. y ≡ x };

    fn clone(&self) -> Result<SharedQuery<A>, AllocError> {
        Ok(SharedQuery {
            query: self.query.clone()?,
        })
    }
}

// By hand, so that whatever drops it calls this.
impl<A: Allocator> Drop for SharedQuery<A> {
    fn drop(self) {
        let SharedQuery { query } = self;
        drop(query);
    }
}

/// The question that a refusal repeats, kept once for all that hold it, as a query is: so a request, which is moved more
/// often than its question is read, is short. Contracts see the question.
pub struct SharedEcho<A: Allocator = Global> {
    echo: Arc<Echo<A>, A>,
}

impl<A: Allocator> Model for SharedEcho<A> {
    ghost use Rattle.std.specs.Arc.{arc_value};
    ghost use Rattle.message_grammar.specs.Messages.{Question};

    ghost Value = { Question };

    ghost view = { λ s. arc_value s.echo };
}

impl<A: Heap> SharedEcho<A> {
    /// This question.
    pub fn new(alloc: A, echo: Echo<A>) -> Result<SharedEcho<A>, Starved>
        ensures { IfOk result (λ s. s ≡ echo) }
    {
        Ok(SharedEcho {
            echo: Arc::new(alloc, echo)?,
        })
    }
}

/// The question, if there is one, lent.
pub fn lent_echo<A: Allocator>(echo: &Option<SharedEcho<A>>) -> Option<&Echo<A>>
    ensures { option_copied result ≡ echo.now }
{
    match echo {
        None => None,
        Some(echo) => Some(&**echo),
    }
}

impl<A: Allocator> Deref for SharedEcho<A> {
    type Target = Echo<A>;

    ghost deref_gives = { λ s q. q ≡ s };

    fn deref(&self) -> &Echo<A>
        ensures { result.now ≡ self.now }
    {
        &self.echo
    }
}

impl<A: Allocator> Clone for SharedEcho<A> {
    ghost is_clone = { λ x y. y ≡ x };

    fn clone(&self) -> Result<SharedEcho<A>, AllocError> {
        Ok(SharedEcho {
            echo: self.echo.clone()?,
        })
    }
}

// By hand, so that whatever drops it calls this.
impl<A: Allocator> Drop for SharedEcho<A> {
    fn drop(self) {
        let SharedEcho { echo } = self;
        drop(echo);
    }
}
