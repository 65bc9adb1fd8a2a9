//! Use of the messages that are accepted for a query (RFC 1034, section 5.3.3, step 4).
ghost use Rattle.std.specs.Prelude.{◌≡◌, ◌⊎◌, ℕ, IfOk, OnOk, OnErr};
ghost use Rattle.zone.specs.Links.{Link as LinkSpec};
ghost use Rattle.zone.specs.Views.{link_view};
ghost use Rattle.message_grammar.specs.Messages.{Message};
ghost use Rattle.wire.specs.declared.via.Via.{Via};
ghost use Rattle.classify.specs.Classes.{class_of};
ghost use Rattle.classify.specs.Read.{IsReadingOf};
ghost use Rattle.classify.specs.Views.{reading_view};
ghost use Rattle.resolution.specs.Jobs.{Stores as StoresSpec, Search as SearchSpec, Told, Go, point, with_answer, with_failure, with_told, is_server_failure, received_link, IsCutOf, with_frame, level_of};
ghost use Rattle.resolution.specs.Rules.{KeepsAnswer, IsAnswered, IsReferred, ByClass, Enters};
ghost use Rattle.resolution.specs.Stops.{IsToldInPart, EntersInPart};
ghost use Rattle.frames.specs.Frames.{opened};
ghost use Rattle.lookup.specs.Views.{with_cut};
ghost use Rattle.iterate.specs.Inputs.{IsSoughtIn, IsReadingFor};
ghost use Rattle.iterate.specs.Moves.{with_search};
ghost use Rattle.iterate.specs.Views.{task_view};

use crate::job::Job;
use crate::search::Search;
use crate::serving::use_server_address;
use crate::task::Task;
use classify::{Class, Reading, Referral, narrow, narrow_law, received};
use lookup::{Stores, Taken};
use memory::{Heap, Starved};
use rdata::Addr;
use referral::Cut;
use std::alloc::Allocator;
use std::hash::BuildHasher;
use zone::Link;

// A link was accepted for the innermost search, which is over. One of the query's own name is used for it; one of a
// server's name is used by the search around.
fn answer_search<S: BuildHasher + Drop, A: Heap>(
    job: &mut Job<A>,
    link: Taken<A>,
    stores: &Stores<S, A>,
) -> Result<Task<A>, Starved>
    ensures { (s : SearchSpec) (l : LinkSpec) (now : ℕ) (before : StoresSpec) → link ≡ received_link s.name l now → KeepsAnswer now s l before stores.now → IfOk result (λ t. IsAnswered now s (job.old).searches l (with_search job.old s) before (point (task_view t) job.new stores.now)) }
{
    match job.pop() {
        None => Ok(Task::Take(link)),
        Some(around) => {
            let heard = use_server_address(job, around, &link, stores);
            drop(link);
            heard?;
            Ok(Task::Go)
        }
    }
}

// Caches a server's answer, and uses it for the search.
fn answer<S: BuildHasher + Drop, A: Heap>(
    job: &mut Job<A>,
    search: Search<A>,
    link: Link<A>,
    stores: &mut Stores<S, A>,
    now: u64,
) -> Result<Task<A>, Starved>
    ensures by { IfOk result (λ t. IsAnswered now search (job.old).searches (link_view link) (with_search job.old search) stores.old (point (task_view t) job.new stores.new)) }
    ensures stops { OnErr result ((stores.new ≡ stores.old) ⊎ KeepsAnswer now search (link_view link) stores.old stores.new) }
{
    let kind = search.kind();
    let name = search.into_name();
    let kept = received(link);
    let stored = stores.keep_link(&name, kind, &kept, now);
    let link = Taken::accepted(name, kept, now);
    match stored {
        Err(starved) => {
            drop(link);
            Err(starved)
        }
        Ok(()) => answer_search(job, link, stores),
    }
}

// The cut that a referral leads to.
// For the proof: it says of `Referral::into_cut` what the rules of a query speak of.
fn cut_from<A: Heap>(alloc: A, referral: Referral<A>) -> Result<Cut<A>, Starved>
    ensures { IfOk result (IsCutOf referral.owner referral.servers referral.addresses) }
{
    Ok(referral.into_cut(alloc)?)
}

// Starts the search anew at this cut, which is cached.
fn reopen<S: BuildHasher + Drop, A: Heap>(
    alloc: A,
    job: &mut Job<A>,
    mut search: Search<A>,
    cut: &Cut<A>,
    ttl: u32,
    stores: &mut Stores<S, A>,
    now: u64,
) -> Result<(), Starved>
    ensures job { OnOk result (job.new ≡ with_search job.old (with_frame search (opened (level_of stores.old) search.frame.nesting cut.now))) }
    ensures kept { OnOk result (stores.new ≡ with_cut stores.old cut.now ttl now) }
    ensures err { OnErr result (stores.new ≡ stores.old) }
{
    match stores.open(alloc, cut, search.frame().nesting()) {
        Err(starved) => {
            drop(search);
            Err(starved)
        }
        Ok(frame) => {
            search.reopen(frame);
            job.push(search)?;
            stores.keep_cut(alloc, cut, ttl, now)?;
            Ok(())
        }
    }
}

// Follows a referral, and caches it.
fn refer<S: BuildHasher + Drop, A: Heap>(
    alloc: A,
    job: &mut Job<A>,
    search: Search<A>,
    referral: Referral<A>,
    stores: &mut Stores<S, A>,
    now: u64,
) -> Result<(), Starved>
    ensures by { OnOk result (IsReferred now search (job.old).searches referral.owner referral.servers referral.addresses referral.ttl (with_search job.old search) stores.old (point Go job.new stores.new)) }
    ensures err { OnErr result (stores.new ≡ stores.old) }
{
    let ttl = referral.ttl;
    match cut_from(alloc, referral) {
        Err(starved) => {
            drop(search);
            Err(starved)
        }
        Ok(cut) => {
            let reopened = reopen(alloc, job, search, &cut, ttl, stores, now);
            drop(cut);
            Ok(reopened?)
        }
    }
}

// Caches that the server failed to answer the question of the search, where its message says so (RFC 2308, section
// 7.1).
fn note_failure<S: BuildHasher + Drop, A: Heap>(
    search: &Search<A>,
    server: Addr,
    reading: &Reading<A>,
    stores: &mut Stores<S, A>,
    now: u64,
) -> Result<(), Starved>
    ensures ok { (m : Message) → reading.now.failed ≡ is_server_failure m → OnOk result (stores.new ≡ with_failure now search.now server m stores.old) }
    ensures err { OnErr result (stores.new ≡ stores.old) }
{
    if reading.failed {
        stores.failed(search.name(), search.kind(), server, now)?;
    }
    Ok(())
}

// The task after a message for this search, the innermost one, which was taken out of the job.
fn use_reply_for<S: BuildHasher + Drop, A: Heap>(
    alloc: A,
    job: &mut Job<A>,
    search: Search<A>,
    server: Addr,
    reading: &Reading<A>,
    stores: &mut Stores<S, A>,
    now: u64,
) -> Result<Task<A>, Starved>
    ensures by { (via : Via) (m : Message) → IsReadingFor search via m (reading_view reading.now) → IfOk result (λ t. ByClass now server search (job.old).searches (class_of search.frame.zone search.name search.kind via m) (with_search job.old search) stores.old (point (task_view t) job.new stores.new)) }
    ensures part { (via : Via) (m : Message) → IsReadingFor search via m (reading_view reading.now) → (before : StoresSpec) → stores.old ≡ with_told now search server m before → OnErr result (IsToldInPart now search via server m before stores.new) }
{
    let zone = search.frame().zone();
    narrow_law(zone);
    match narrow(alloc, zone, &reading.class) {
        Err(starved) => {
            drop(search);
            Err(starved)
        }
        Ok(Class::Answer(link)) => answer(job, search, link, stores, now),
        Ok(Class::Referral(referral)) => {
            refer(alloc, job, search, referral, stores, now)?;
            Ok(Task::Go)
        }
        Ok(Class::Truncated) => {
            job.push(search)?;
            Ok(Task::Again(server))
        }
        Ok(Class::Failed(_)) => {
            job.push(search)?;
            Ok(Task::Go)
        }
    }
}

/// The task after a message was accepted for the innermost search. An answer is cached and used, a referral is cached
/// and followed, and after truncation the ask is sent again over TCP. Any other message is of no use, but that a server
/// failed to answer is cached. Without a search a message changes nothing.
pub(crate) fn use_reply<S: BuildHasher + Drop, A: Heap>(
    alloc: A,
    job: &mut Job<A>,
    server: Addr,
    reading: &Reading<A>,
    stores: &mut Stores<S, A>,
    now: u64,
) -> Result<Task<A>, Starved>
    ensures enters { (via : Via) (m : Message) → IsReadingOf via m (reading_view reading.now) → IsSoughtIn job.old (reading_view reading.now) → (before : StoresSpec) → stores.old ≡ with_answer before server → IfOk result (λ t. Enters now (Told via server m) job.old before (point (task_view t) job.new stores.new)) }
    ensures part { (via : Via) (m : Message) → IsReadingOf via m (reading_view reading.now) → IsSoughtIn job.old (reading_view reading.now) → (before : StoresSpec) → stores.old ≡ with_answer before server → OnErr result (EntersInPart now (Told via server m) job.old before stores.new) }
{
    match job.pop() {
        None => Ok(Task::Go),
        Some(search) => match note_failure(&search, server, reading, stores, now) {
            Err(starved) => {
                drop(search);
                Err(starved)
            }
            Ok(()) => use_reply_for(alloc, job, search, server, reading, stores, now),
        },
    }
}
