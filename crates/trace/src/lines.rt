//! The lines of a trace.
ghost use Rattle.std.specs.Prelude.{◌≡◌, ◌++◌, OnOk, codes, decimal, string_bytes};
ghost use Rattle.dname.specs.Text.{name_text};
ghost use Rattle.rdata.specs.Kept.{datum};
ghost use Rattle.zone.specs.Views.{link_view};
ghost use Rattle.classify.specs.Views.{class_view};
ghost use Rattle.trace.specs.Lines.{alias_text, cause_line, cause_words, class_line, class_text, code_text, denial_text, failure_text, indent, link_text, loss_line, loss_words, referral_text, search_line, servers_text};

use causes::Cause;
use classify::{Class, Failure, Referral};
use dname::Name;
use memory::Starved;
use rdata::{RData, RType};
use std::alloc::Allocator;
use zone::Link;

/// Why there is nothing to class.
#[derive(Clone, Copy, Debug, PartialEq, Eq)]
pub(crate) enum Loss {
    /// No reply came while it was waited for.
    Silent,
    /// Over TCP: no connection, or no whole reply to the question.
    Broken,
    /// A datagram came that repeats no ID or question of the ask; the ask is still open.
    Foreign,
    /// The address lies in a block in which no server is asked.
    Barred,
    /// The system sent nothing.
    Unsent,
}

/// Appends what a reply is used for, that came so many milliseconds after its ask, in a search that deep.
#[tactic(auto, unfolding(crate::specs::Lines::class_line))]
pub(crate) fn put_class<A: Allocator, B: Allocator>(
    out: &mut String<B>,
    depth: usize,
    passed_ms: u64,
    class: &Class<A>,
    rcode: u8,
) -> Result<(), Starved>
    ensures { OnOk result (string_bytes out.new ≡ string_bytes out.old ++ class_line depth passed_ms (class_view class.now) rcode) }
{
    out.push_str(indent(depth))?;
    write!(out, "  {passed_ms} ms: ")?;
    put_use(out, class, rcode)?;
    out.push_str("\n")?;
    Ok(())
}

/// Appends why there is nothing to class, that much later.
#[tactic(auto, unfolding(crate::specs::Lines::loss_line))]
pub(crate) fn put_loss<B: Allocator>(
    out: &mut String<B>,
    depth: usize,
    passed_ms: u64,
    loss: Loss,
) -> Result<(), Starved>
    ensures { OnOk result (string_bytes out.new ≡ string_bytes out.old ++ loss_line depth passed_ms loss) }
{
    out.push_str(indent(depth))?;
    write!(out, "  {passed_ms} ms: ")?;
    out.push_str(loss_words(loss))?;
    out.push_str("\n")?;
    Ok(())
}

/// Appends `look up NAME TYPE`, in the search that waits for it.
#[tactic(auto, unfolding(crate::specs::Lines::search_line))]
pub(crate) fn put_search<A: Allocator, B: Allocator>(
    out: &mut String<B>,
    depth: usize,
    name: &Name<A>,
    kind: RType,
) -> Result<(), Starved>
    ensures { OnOk result (string_bytes out.new ≡ string_bytes out.old ++ search_line depth name.now kind) }
{
    out.push_str(indent(depth))?;
    write!(out, "look up {name} {kind}\n")?;
    Ok(())
}

/// Appends the cause of a SERVFAIL in words.
#[tactic(auto, unfolding(crate::specs::Lines::cause_line))]
pub(crate) fn put_cause<B: Allocator>(out: &mut String<B>, cause: Cause) -> Result<(), Starved>
    ensures { OnOk result (string_bytes out.new ≡ string_bytes out.old ++ cause_line cause) }
{
    let number = cause.number();
    let words = cause_words(cause);
    write!(out, "cause {number}: {words}\n")?;
    Ok(())
}

/// What the lines of a search that deep begin with; none stands deeper than in three others.
pub(crate) fn indent(depth: usize) -> &'static str
    ensures { result.now ≡ indent depth }
{
    match depth {
        0 => "",
        1 => "  ",
        2 => "    ",
        _ => "      ",
    }
}

fn loss_words(loss: Loss) -> &'static str
    ensures { result.now ≡ loss_words loss }
{
    match loss {
        Loss::Silent => "silent",
        Loss::Broken => "no connection, or no whole reply on it",
        Loss::Foreign =>
            "a datagram that repeats no ID or question of the ask; it is waited for still",
        Loss::Barred => "not asked: no server stands at such an address",
        Loss::Unsent => "not sent: the system refused it",
    }
}

fn cause_words(cause: Cause) -> &'static str
    ensures { result.now ≡ cause_words cause }
{
    match cause {
        Cause::TooManyOpen => "too many queries are open",
        Cause::DeadlineOver => "its ten seconds are over",
        Cause::ChainTooLong => "more than eight aliases",
        Cause::TooManyAsks => "its forty asks are used up",
        Cause::NoServerLeft => "no server is left to ask",
        Cause::ReplyTooLarge => "the reply is too large",
        Cause::KnownFailure =>
            "no server is left to ask, and one was passed over that failed to answer the same less than 30 seconds before",
        Cause::TooManyLookUps => "its 64 look-ups of servers' addresses are used up",
    }
}

// Appends what a reply is used for.
fn put_use<A: Allocator, B: Allocator>(
    out: &mut String<B>,
    class: &Class<A>,
    rcode: u8,
) -> Result<(), Starved>
    ensures { OnOk result (string_bytes out.new ≡ string_bytes out.old ++ class_text (class_view class.now) rcode) }
{
    match class {
        Class::Answer(link) => put_link(out, link),
        Class::Referral(referral) => put_referral(out, referral),
        Class::Truncated => put_words(out, "truncated"),
        Class::Failed(failure) => put_failure(out, *failure, rcode),
    }
}

fn put_words<B: Allocator>(out: &mut String<B>, words: &str) -> Result<(), Starved>
    ensures { OnOk result (string_bytes out.new ≡ string_bytes out.old ++ words.now) }
{
    out.push_str(words)?;
    Ok(())
}

fn put_link<A: Allocator, B: Allocator>(out: &mut String<B>, link: &Link<A>) -> Result<(), Starved>
    ensures { OnOk result (string_bytes out.new ≡ string_bytes out.old ++ link_text (link_view link.now)) }
{
    match link {
        Link::Found(set) => put_count(out, set.len()),
        Link::Alias(record) => put_alias(out, &record.value),
        Link::NoData(soa) => put_denial(out, "NODATA", &soa.owner),
        Link::NxDomain(soa) => put_denial(out, "NXDOMAIN", &soa.owner),
    }
}

fn put_count<B: Allocator>(out: &mut String<B>, count: usize) -> Result<(), Starved>
    ensures { OnOk result (string_bytes out.new ≡ string_bytes out.old ++ (codes "answer, " ++ decimal count ++ codes " records")) }
{
    write!(out, "answer, {count} records")?;
    Ok(())
}

fn put_alias<A: Allocator, B: Allocator>(
    out: &mut String<B>,
    value: &RData<A>,
) -> Result<(), Starved>
    ensures { OnOk result (string_bytes out.new ≡ string_bytes out.old ++ alias_text (datum value.now)) }
{
    match value {
        RData::Cname(target) => put_target(out, target),
        _ => put_words(out, "alias"),
    }
}

fn put_target<A: Allocator, B: Allocator>(
    out: &mut String<B>,
    target: &Name<A>,
) -> Result<(), Starved>
    ensures { OnOk result (string_bytes out.new ≡ string_bytes out.old ++ (codes "alias to " ++ name_text target.now)) }
{
    write!(out, "alias to {target}")?;
    Ok(())
}

#[tactic(auto, unfolding(crate::specs::Lines::denial_text))]
fn put_denial<A: Allocator, B: Allocator>(
    out: &mut String<B>,
    word: &str,
    zone: &Name<A>,
) -> Result<(), Starved>
    ensures { OnOk result (string_bytes out.new ≡ string_bytes out.old ++ denial_text word.now zone.now) }
{
    out.push_str(word)?;
    write!(out, " of the zone {zone}")?;
    Ok(())
}

fn put_referral<A: Allocator, B: Allocator>(
    out: &mut String<B>,
    referral: &Referral<A>,
) -> Result<(), Starved>
    ensures { OnOk result (string_bytes out.new ≡ string_bytes out.old ++ referral_text (referral.now).owner (referral.now).servers (referral.now).addresses) }
{
    let servers = referral.servers.len();
    let addresses = referral.addresses.len();
    put_servers(out, &referral.owner, servers, addresses)
}

#[tactic(auto, unfolding(crate::specs::Lines::servers_text))]
fn put_servers<A: Allocator, B: Allocator>(
    out: &mut String<B>,
    zone: &Name<A>,
    servers: usize,
    addresses: usize,
) -> Result<(), Starved>
    ensures { OnOk result (string_bytes out.new ≡ string_bytes out.old ++ servers_text zone.now servers addresses) }
{
    write!(
        out,
        "referral to {zone}, {servers} servers, {addresses} addresses"
    )?;
    Ok(())
}

fn put_failure<B: Allocator>(
    out: &mut String<B>,
    failure: Failure,
    rcode: u8,
) -> Result<(), Starved>
    ensures { OnOk result (string_bytes out.new ≡ string_bytes out.old ++ failure_text failure rcode) }
{
    match failure {
        Failure::BadCode => put_code(out, rcode),
        Failure::NoAuthority => put_words(
            out,
            "no use: an answer without AA, of a server that does not hold the zone",
        ),
        Failure::Empty => put_words(out, "no use: no answer, no denial and no referral in it"),
        Failure::Foreign => put_words(out, "no use: a denial or a referral of another zone"),
        Failure::TruncatedOverTcp => put_words(out, "no use: truncated, over TCP"),
    }
}

// Appends the RCODE of a reply that has no use for it (RFC 1035, section 4.1.1).
fn put_code<B: Allocator>(out: &mut String<B>, rcode: u8) -> Result<(), Starved>
    ensures { OnOk result (string_bytes out.new ≡ string_bytes out.old ++ code_text rcode) }
{
    match rcode {
        1 => put_words(out, "no use: FORMERR"),
        2 => put_words(out, "no use: SERVFAIL"),
        3 => put_words(out, "no use: NXDOMAIN, beside records of the name"),
        4 => put_words(out, "no use: NOTIMP"),
        5 => put_words(out, "no use: REFUSED"),
        _ => put_number(out, rcode),
    }
}

fn put_number<B: Allocator>(out: &mut String<B>, rcode: u8) -> Result<(), Starved>
    ensures { OnOk result (string_bytes out.new ≡ string_bytes out.old ++ (codes "no use: RCODE " ++ decimal rcode)) }
{
    write!(out, "no use: RCODE {rcode}")?;
    Ok(())
}
