//! Laws of the definitions: functions that do nothing, whose clauses are proved.
ghost use Rattle.events.specs.Laws.{IdIsInMessage, LocalAnswerIsPlain};

use std::alloc::Allocator;

/// The ID in the first bytes of a message is that of the message (RFC 1035, section 4.1.1).
pub fn id_is_in_message()
    ensures { IdIsInMessage }
{}

/// The answer of local zones does not depend on its allocator.
pub fn local_answer_is_plain<A: Allocator>(_alloc: A)
    ensures { LocalAnswerIsPlain A }
{}
