//! The text of the counters, in the exposition format of Prometheus (version 0.0.4).
ghost use Rattle.std.specs.Prelude.{◌≡◌, ◌≤◌, ◌++◌, codes, length, IfOk, OnOk, string_bytes};
ghost use Rattle.std.specs.List.{flat_map};
ghost use Rattle.counters.specs.Counters.{counters};
ghost use Rattle.counters.specs.Exposition.{ask_metrics, bucket_line, bucket_lines, buckets, client_metrics, count_line, counter_line, exposition, gauge, head, loss_metrics, metric, origin_metrics, store_line, store_sizes, sum_line, times, times_in, totals, value};

use crate::counter::{COUNTERS, Counter};
use crate::labels::{AskFault, Bucket, QueryType, Rcode, SocketFault, Source, Way};
use crate::stores::StoreSizes;
use causes::Cause;
use memory::Starved;
use std::alloc::Allocator;

const QUERIES: [Counter; 22] = [
    Counter::Query(Way::Udp, QueryType::A),
    Counter::Query(Way::Udp, QueryType::Ns),
    Counter::Query(Way::Udp, QueryType::Cname),
    Counter::Query(Way::Udp, QueryType::Soa),
    Counter::Query(Way::Udp, QueryType::Ptr),
    Counter::Query(Way::Udp, QueryType::Mx),
    Counter::Query(Way::Udp, QueryType::Txt),
    Counter::Query(Way::Udp, QueryType::Aaaa),
    Counter::Query(Way::Udp, QueryType::Srv),
    Counter::Query(Way::Udp, QueryType::Https),
    Counter::Query(Way::Udp, QueryType::Other),
    Counter::Query(Way::Tcp, QueryType::A),
    Counter::Query(Way::Tcp, QueryType::Ns),
    Counter::Query(Way::Tcp, QueryType::Cname),
    Counter::Query(Way::Tcp, QueryType::Soa),
    Counter::Query(Way::Tcp, QueryType::Ptr),
    Counter::Query(Way::Tcp, QueryType::Mx),
    Counter::Query(Way::Tcp, QueryType::Txt),
    Counter::Query(Way::Tcp, QueryType::Aaaa),
    Counter::Query(Way::Tcp, QueryType::Srv),
    Counter::Query(Way::Tcp, QueryType::Https),
    Counter::Query(Way::Tcp, QueryType::Other),
];

const REPLIES: [Counter; 7] = [
    Counter::Reply(Rcode::NoError),
    Counter::Reply(Rcode::FormErr),
    Counter::Reply(Rcode::ServFail),
    Counter::Reply(Rcode::NxDomain),
    Counter::Reply(Rcode::NotImp),
    Counter::Reply(Rcode::Refused),
    Counter::Reply(Rcode::Other),
];

const CAUSES: [Counter; 8] = [
    Counter::Failure(Cause::TooManyOpen),
    Counter::Failure(Cause::DeadlineOver),
    Counter::Failure(Cause::ChainTooLong),
    Counter::Failure(Cause::TooManyAsks),
    Counter::Failure(Cause::NoServerLeft),
    Counter::Failure(Cause::ReplyTooLarge),
    Counter::Failure(Cause::KnownFailure),
    Counter::Failure(Cause::TooManyLookUps),
];

const SOURCES: [Counter; 3] = [
    Counter::Answer(Source::Local),
    Counter::Answer(Source::Cache),
    Counter::Answer(Source::Servers),
];

const ASKS: [Counter; 2] = [Counter::Ask(Way::Udp), Counter::Ask(Way::Tcp)];

const FAILED: [Counter; 12] = [
    Counter::FailedAsk(Way::Udp, AskFault::Barred),
    Counter::FailedAsk(Way::Udp, AskFault::Descriptors),
    Counter::FailedAsk(Way::Udp, AskFault::Refused),
    Counter::FailedAsk(Way::Udp, AskFault::Reset),
    Counter::FailedAsk(Way::Udp, AskFault::Crowded),
    Counter::FailedAsk(Way::Udp, AskFault::Silent),
    Counter::FailedAsk(Way::Tcp, AskFault::Barred),
    Counter::FailedAsk(Way::Tcp, AskFault::Descriptors),
    Counter::FailedAsk(Way::Tcp, AskFault::Refused),
    Counter::FailedAsk(Way::Tcp, AskFault::Reset),
    Counter::FailedAsk(Way::Tcp, AskFault::Crowded),
    Counter::FailedAsk(Way::Tcp, AskFault::Silent),
];

const SOCKET_FAULTS: [Counter; 6] = [
    Counter::FailedSocket(SocketFault::Send),
    Counter::FailedSocket(SocketFault::Receive),
    Counter::FailedSocket(SocketFault::Accept),
    Counter::FailedSocket(SocketFault::Descriptors),
    Counter::FailedSocket(SocketFault::Stream),
    Counter::FailedSocket(SocketFault::Poll),
];

const BUCKETS: [Bucket; 13] = [
    Bucket::Ms1,
    Bucket::Ms5,
    Bucket::Ms10,
    Bucket::Ms25,
    Bucket::Ms50,
    Bucket::Ms100,
    Bucket::Ms250,
    Bucket::Ms500,
    Bucket::Ms1000,
    Bucket::Ms2500,
    Bucket::Ms5000,
    Bucket::Ms10000,
    Bucket::Longer,
];

/// Appends the text of all counters, whose cells hold these values, of how many queries wait for other servers, and of
/// how many entries each store has. Where memory is refused, a part of it stands.
pub fn put_metrics<A: Allocator>(
    out: &mut String<A>,
    cells: &[u64; COUNTERS],
    waiting: u64,
    stores: StoreSizes,
) -> Result<(), Starved>
    ensures { OnOk result (string_bytes out.new ≡ string_bytes out.old ++ exposition cells.now waiting stores) }
{
    put_client_metrics(out, cells)?;
    put_ask_metrics(out, cells)?;
    put_loss_metrics(out, cells)?;
    put_times(out, cells)?;
    put_gauge(
        out,
        "resolverd_open_queries",
        "Queries that wait for other servers.",
        waiting,
    )?;
    put_store_sizes(out, stores)
}

// The lines of the stores.
#[tactic(auto, unfolding(crate::specs::Exposition::store_sizes))]
fn put_store_sizes<A: Allocator>(out: &mut String<A>, stores: StoreSizes) -> Result<(), Starved>
    ensures { OnOk result (string_bytes out.new ≡ string_bytes out.old ++ store_sizes stores) }
{
    put_head(
        out,
        "resolverd_store_entries",
        "Entries of each store, expired ones among them.",
        "gauge",
    )?;
    put_store_size(out, "cache", stores.cache)?;
    put_store_size(out, "delegations", stores.delegations)?;
    put_store_size(out, "penalties", stores.penalties)?;
    put_store_size(out, "failures", stores.failures)
}

fn put_store_size<A: Allocator>(
    out: &mut String<A>,
    store: &str,
    size: usize,
) -> Result<(), Starved>
    ensures { OnOk result (string_bytes out.new ≡ string_bytes out.old ++ store_line store.now size) }
{
    write!(out, "resolverd_store_entries{{store=\"{store}\"}} {size}\n")?;
    Ok(())
}

// The lines of queries and of their replies.
#[tactic(auto, unfolding(crate::specs::Exposition::client_metrics))]
fn put_client_metrics<A: Allocator>(
    out: &mut String<A>,
    cells: &[u64; COUNTERS],
) -> Result<(), Starved>
    ensures { OnOk result (string_bytes out.new ≡ string_bytes out.old ++ client_metrics cells.now) }
{
    put_metric(
        out,
        "resolverd_queries_total",
        "Queries that came, by the way and the type.",
        &QUERIES,
        cells,
    )?;
    put_metric(
        out,
        "resolverd_replies_total",
        "Replies that went to clients, by the RCODE.",
        &REPLIES,
        cells,
    )?;
    put_metric(
        out,
        "resolverd_truncated_replies_total",
        "Replies that were cut to fit into a datagram.",
        &[Counter::Truncated],
        cells,
    )?;
    put_origin_metrics(out, cells)
}

// The lines of what replies came of.
#[tactic(auto, unfolding(crate::specs::Exposition::origin_metrics))]
fn put_origin_metrics<A: Allocator>(
    out: &mut String<A>,
    cells: &[u64; COUNTERS],
) -> Result<(), Starved>
    ensures { OnOk result (string_bytes out.new ≡ string_bytes out.old ++ origin_metrics cells.now) }
{
    put_metric(
        out,
        "resolverd_failures_total",
        "Replies of SERVFAIL, by the cause.",
        &CAUSES,
        cells,
    )?;
    put_metric(
        out,
        "resolverd_answers_total",
        "Replies of NOERROR and NXDOMAIN, by what they were made of.",
        &SOURCES,
        cells,
    )
}

// The lines of asks to other servers.
#[tactic(auto, unfolding(crate::specs::Exposition::ask_metrics))]
fn put_ask_metrics<A: Allocator>(
    out: &mut String<A>,
    cells: &[u64; COUNTERS],
) -> Result<(), Starved>
    ensures { OnOk result (string_bytes out.new ≡ string_bytes out.old ++ ask_metrics cells.now) }
{
    put_metric(
        out,
        "resolverd_asks_total",
        "Asks to other servers, by the way.",
        &ASKS,
        cells,
    )?;
    put_metric(
        out,
        "resolverd_failed_asks_total",
        "Asks without a reply, by the way and the reason.",
        &FAILED,
        cells,
    )?;
    put_metric(
        out,
        "resolverd_foreign_datagrams_total",
        "Datagrams to an open ask that did not repeat it.",
        &[Counter::ForeignDatagram],
        cells,
    )
}

// The lines of what was held or dropped, and of what failed.
#[tactic(auto, unfolding(crate::specs::Exposition::loss_metrics))]
fn put_loss_metrics<A: Allocator>(
    out: &mut String<A>,
    cells: &[u64; COUNTERS],
) -> Result<(), Starved>
    ensures { OnOk result (string_bytes out.new ≡ string_bytes out.old ++ loss_metrics cells.now) }
{
    put_metric(
        out,
        "resolverd_held_queries_total",
        "Queries that waited for an equal one.",
        &[Counter::HeldQuery],
        cells,
    )?;
    put_metric(
        out,
        "resolverd_dropped_queries_total",
        "Queries that were dropped before the resolver.",
        &[Counter::DroppedQuery],
        cells,
    )?;
    put_metric(
        out,
        "resolverd_refused_memory_total",
        "Growths that were refused for want of memory.",
        &[Counter::RefusedMemory],
        cells,
    )?;
    put_metric(
        out,
        "resolverd_socket_faults_total",
        "Sockets that failed, by what failed.",
        &SOCKET_FAULTS,
        cells,
    )
}

// The lines of a number that goes up and down.
#[tactic(auto, unfolding(crate::specs::Exposition::gauge))]
fn put_gauge<A: Allocator>(
    out: &mut String<A>,
    name: &str,
    help: &str,
    value: u64,
) -> Result<(), Starved>
    ensures { OnOk result (string_bytes out.new ≡ string_bytes out.old ++ gauge name.now help.now value) }
{
    put_head(out, name, help, "gauge")?;
    write!(out, "{name} {value}\n")?;
    Ok(())
}

// What the cell of a counter holds.
fn value(cells: &[u64; COUNTERS], counter: Counter) -> u64
    ensures { result ≡ value cells.now counter }
{
    cells[counter.place()]
}

fn put_head<A: Allocator>(
    out: &mut String<A>,
    name: &str,
    help: &str,
    kind: &str,
) -> Result<(), Starved>
    ensures { OnOk result (string_bytes out.new ≡ string_bytes out.old ++ head name.now help.now kind.now) }
{
    write!(out, "# HELP {name} {help}\n# TYPE {name} {kind}\n")?;
    Ok(())
}

// The lines of a metric of counters.
#[tactic(auto, unfolding(crate::specs::Exposition::metric))]
fn put_metric<A: Allocator>(
    out: &mut String<A>,
    name: &str,
    help: &str,
    counters: &[Counter],
    cells: &[u64; COUNTERS],
) -> Result<(), Starved>
    ensures { OnOk result (string_bytes out.new ≡ string_bytes out.old ++ metric cells.now name.now help.now counters.now) }
{
    put_head(out, name, help, "counter")?;
    put_counters(out, counters, cells)
}

// The lines of these counters.
fn put_counters<A: Allocator>(
    out: &mut String<A>,
    counters: &[Counter],
    cells: &[u64; COUNTERS],
) -> Result<(), Starved>
    ensures { OnOk result (string_bytes out.new ≡ string_bytes out.old ++ flat_map (counter_line cells.now) counters.now) }
{
    for counter in counters {
        put_counter(out, *counter, cells)?;
    }
    Ok(())
}

fn put_counter<A: Allocator>(
    out: &mut String<A>,
    counter: Counter,
    cells: &[u64; COUNTERS],
) -> Result<(), Starved>
    ensures { OnOk result (string_bytes out.new ≡ string_bytes out.old ++ counter_line cells.now counter) }
{
    let value = value(cells, counter);
    write!(out, "{counter} {value}\n")?;
    Ok(())
}

// The lines of the times from query to reply.
#[tactic(auto, unfolding(crate::specs::Exposition::times))]
fn put_times<A: Allocator>(out: &mut String<A>, cells: &[u64; COUNTERS]) -> Result<(), Starved>
    ensures { OnOk result (string_bytes out.new ≡ string_bytes out.old ++ times cells.now) }
{
    put_head(
        out,
        "resolverd_reply_seconds",
        "Seconds from query to reply.",
        "histogram",
    )?;
    let count = put_buckets(out, &BUCKETS, cells)?;
    put_totals(out, count, cells)
}

// The lines of the sum and of the number of the times.
fn put_totals<A: Allocator>(
    out: &mut String<A>,
    count: u128,
    cells: &[u64; COUNTERS],
) -> Result<(), Starved>
    ensures { OnOk result (string_bytes out.new ≡ string_bytes out.old ++ totals cells.now count) }
{
    put_sum(out, cells)?;
    put_count(out, count)
}

fn put_sum<A: Allocator>(out: &mut String<A>, cells: &[u64; COUNTERS]) -> Result<(), Starved>
    ensures { OnOk result (string_bytes out.new ≡ string_bytes out.old ++ sum_line cells.now) }
{
    let sum = Counter::WaitedMillis;
    let millis = value(cells, sum);
    write!(out, "{sum} {millis}e-3\n")?;
    Ok(())
}

fn put_count<A: Allocator>(out: &mut String<A>, count: u128) -> Result<(), Starved>
    ensures { OnOk result (string_bytes out.new ≡ string_bytes out.old ++ count_line count) }
{
    write!(out, "resolverd_reply_seconds_count {count}\n")?;
    Ok(())
}

// The lines of these buckets, each with those before it in it, and how many times they hold.
fn put_buckets<A: Allocator>(
    out: &mut String<A>,
    buckets: &[Bucket],
    cells: &[u64; COUNTERS],
) -> Result<u128, Starved>
    requires { length buckets.now ≤ 13 }
    ensures { IfOk result (λ n. (n ≡ times_in cells.now buckets.now) × (string_bytes out.new ≡ string_bytes out.old ++ bucket_lines cells.now 0 buckets.now)) }
{
    let mut before = 0;
    for bucket in buckets {
        before += u128::from(value(cells, Counter::Waited(*bucket)));
        put_bucket(out, *bucket, before)?;
    }
    Ok(before)
}

fn put_bucket<A: Allocator>(out: &mut String<A>, bucket: Bucket, count: u128) -> Result<(), Starved>
    ensures { OnOk result (string_bytes out.new ≡ string_bytes out.old ++ bucket_line bucket count) }
{
    let counter = Counter::Waited(bucket);
    write!(out, "{counter} {count}\n")?;
    Ok(())
}
