//! The example in the head of `open_queries`.
ghost use Rattle.open_queries.specs.Lookups.{HasNo, IsFree};

use events::{Ask, ClientQuery};
use iterate::Job;
use memory::Heap;
use open_queries::{Open, Queries};
use rdata::Addr;
use std::test::Fail;

pub fn example<H: Heap>(
    queries: &mut Queries<H>,
    client_query: ClientQuery<H>,
    job: Job<H>,
    ask: Ask<H>,
    server: Addr,
) -> Result<(), Fail>
    requires fresh { HasNo queries.old 1 }
    requires free { IsFree queries.old ask }
{
    // None that is open has this number or this ask.
    queries.put(Open {
        number: 1,
        client_query,
        job,
        ask,
        due: 1_000,
    })?;
    if let Some(number) = queries.find(7, server, 4660) {
        if let Some(open) = queries.take_out(number) {
            let (client_query, job) = open.into_work();
        }
    }
    Ok(())
}
