//! Laws of the definitions: what they say is one thing.
ghost use Rattle.front.specs.Laws.{OneReading, OneLocalAnswer, EchoIsQuestion};

use std::alloc::Allocator;

/// The bytes of a client have one meaning at most.
pub fn reading_is_one<A: Allocator>(_alloc: A)
    ensures { OneReading A }
{}

/// Local zones have one answer to a query at most.
pub fn local_answer_is_one<A: Allocator>(_alloc: A)
    ensures { OneLocalAnswer A }
{}

/// A reply repeats the question that the query's bytes have, in the client's own letters: in lower case its name is the
/// query's, its type is the query's, and its class is IN.
pub fn echo_is_question<A: Allocator>(_alloc: A)
    ensures { EchoIsQuestion A }
{}
