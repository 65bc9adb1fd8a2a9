//! The use of an input: first the penalty of its server changes, down for a reply whatever that says, up for none. Then
//! the message is used, or the search goes on.
ghost use Rattle.std.specs.Prelude.{IfOk, OnErr};
ghost use Rattle.message_grammar.specs.Messages.{Message};
ghost use Rattle.wire.specs.declared.via.Via.{Via};
ghost use Rattle.classify.specs.Read.{IsReadingOf};
ghost use Rattle.classify.specs.Views.{reading_view};
ghost use Rattle.resolution.specs.Jobs.{Told, point};
ghost use Rattle.resolution.specs.Rules.{Enters};
ghost use Rattle.resolution.specs.Stops.{EntersInPart};
ghost use Rattle.iterate.specs.Inputs.{IsSoughtIn};
ghost use Rattle.iterate.specs.Views.{input_view, task_view};

use crate::calls::Input;
use crate::job::Job;
use crate::replies::use_reply;
use crate::task::Task;
use classify::Reading;
use lookup::Stores;
use memory::{Heap, Starved};
use rdata::Addr;
use std::hash::BuildHasher;

/// The next task after an input. The penalty of a server that did not answer is raised.
pub(crate) fn enter<S: BuildHasher + Drop, A: Heap>(
    job: &mut Job<A>,
    input: Input,
    stores: &mut Stores<S, A>,
    now: u64,
) -> Result<Task<A>, Starved>
    ensures enters { IfOk result (λ t. Enters now (input_view input) job.old stores.old (point (task_view t) job.new stores.new)) }
    ensures part { OnErr result (EntersInPart now (input_view input) job.old stores.old stores.new) }
{
    match input {
        Input::Start => Ok(Task::Seek),
        Input::TimedOut(server) | Input::TcpFailed(server) => {
            stores.timed_out(server)?;
            Ok(Task::Go)
        }
    }
}

/// The next task after a message of this server was accepted. The server's penalty is halved, whatever the message says.
pub(crate) fn enter_by_reply<S: BuildHasher + Drop, A: Heap>(
    alloc: A,
    job: &mut Job<A>,
    server: Addr,
    reading: &Reading<A>,
    stores: &mut Stores<S, A>,
    now: u64,
) -> Result<Task<A>, Starved>
    ensures enters { (way : Via) (m : Message) → IsReadingOf way m (reading_view reading.now) → IsSoughtIn job.old (reading_view reading.now) → IfOk result (λ t. Enters now (Told way server m) job.old stores.old (point (task_view t) job.new stores.new)) }
    ensures part { (way : Via) (m : Message) → IsReadingOf way m (reading_view reading.now) → IsSoughtIn job.old (reading_view reading.now) → OnErr result (EntersInPart now (Told way server m) job.old stores.old stores.new) }
{
    stores.answered(server);
    Ok(use_reply(alloc, job, server, reading, stores, now)?)
}
