//! What a server's file says that is taken and may not be meant, and what it makes.
ghost use Rattle.std.specs.Prelude.{◌≡◌, ◌++◌, IfOk, OnOk, length, not, string_bytes};
ghost use Rattle.config_report.specs.Notes.{hints_text, is_loopback, listen_text, metrics_text, note, notes_text, open_text, readers_line, sockets_text, strangers_line, total_text};

use config::{Endpoint, ServeConfig};
use limits::{MAX_SERVERS, MAX_SOCKETS};
use memory::{Heap, Starved};
use rdata::Addr;
use std::alloc::Allocator;

/// A line `note: SENTENCE` for each thing that a server's file says and an operator may not mean: no hint or more than
/// are used, addresses that strangers reach, any free port, few sockets, or a seed. None where there is nothing.
pub fn notes<A: Heap>(alloc: A, config: &ServeConfig<'_, A>) -> Result<String<A>, Starved>
    ensures { IfOk result (λ s. string_bytes s ≡ notes_text config.now) }
{
    let mut out = String::new(alloc);
    put_hints(&mut out, hint_count(config))?;
    put_listen(&mut out, &config.listen)?;
    put_metrics(&mut out, &config.metrics)?;
    put_sockets(&mut out, config.sockets)?;
    put_if(
        &mut out,
        config.seed.is_some(),
        "note: seed: for tests alone: whoever knows it foretells each ID\n",
    )?;
    Ok(out)
}

// How many hints the file has.
fn hint_count<A: Allocator>(config: &ServeConfig<'_, A>) -> usize
    ensures { result ≡ length (config.now).hints }
{
    config.hints.as_slice().len()
}

// Appends the notes on so many hints.
fn put_hints<A: Allocator>(out: &mut String<A>, hints: usize) -> Result<(), Starved>
    ensures { OnOk result (string_bytes out.new ≡ string_bytes out.old ++ hints_text hints) }
{
    put_if(
        out,
        hints == 0,
        "note: no hint: a recursive query for a name outside of the local zones ends as SERVFAIL\n",
    )?;
    put_if(
        out,
        MAX_SERVERS < hints,
        "note: more than 16 hints: those behind the sixteenth are not used\n",
    )
}

// Appends the notes on where it listens.
fn put_listen<A: Allocator>(out: &mut String<A>, listen: &Endpoint) -> Result<(), Starved>
    ensures { OnOk result (string_bytes out.new ≡ string_bytes out.old ++ listen_text listen.now) }
{
    put_open(out, listen)?;
    put_if(
        out,
        listen.port == 0,
        "note: port 0: it listens at any port that is free, another one after each start\n",
    )
}

// Appends the note on where the counters are served.
fn put_metrics<A: Allocator>(out: &mut String<A>, metrics: &Option<Endpoint>) -> Result<(), Starved>
    ensures { OnOk result (string_bytes out.new ≡ string_bytes out.old ++ metrics_text metrics.now) }
{
    match metrics {
        Some(at) => put_readable(out, at.address),
        None => Ok(()),
    }
}

fn put_readable<A: Allocator>(out: &mut String<A>, address: Addr) -> Result<(), Starved>
    ensures { OnOk result (string_bytes out.new ≡ string_bytes out.old ++ note (not (is_loopback address.0)) (readers_line address.0)) }
{
    if is_loopback(address) {
        return Ok(());
    }
    put_readers(out, address)
}

fn put_readers<A: Allocator>(out: &mut String<A>, address: Addr) -> Result<(), Starved>
    ensures { OnOk result (string_bytes out.new ≡ string_bytes out.old ++ readers_line address.0) }
{
    write!(
        out,
        "note: metrics {address}: whoever reaches this address reads the counters\n"
    )?;
    Ok(())
}

// Appends the note on so many socket numbers.
fn put_sockets<A: Allocator>(out: &mut String<A>, sockets: u32) -> Result<(), Starved>
    ensures { OnOk result (string_bytes out.new ≡ string_bytes out.old ++ sockets_text sockets) }
{
    put_if(
        out,
        sockets < u32::from(MAX_SOCKETS),
        "note: sockets: 16 is usual; with fewer, each ask draws its number and its ID from fewer pairs\n",
    )
}

// Appends the note on an address that is not this machine's own.
fn put_open<A: Allocator>(out: &mut String<A>, listen: &Endpoint) -> Result<(), Starved>
    ensures { OnOk result (string_bytes out.new ≡ string_bytes out.old ++ open_text listen.now) }
{
    if is_loopback(listen.address) {
        return Ok(());
    }
    put_strangers(out, listen.address)
}

fn put_strangers<A: Allocator>(out: &mut String<A>, address: Addr) -> Result<(), Starved>
    ensures { OnOk result (string_bytes out.new ≡ string_bytes out.old ++ strangers_line address.0) }
{
    write!(
        out,
        "note: listen {address}: it answers whoever reaches this address: a packet filter has to say who may\n"
    )?;
    Ok(())
}

// Whether the address is in 127.0.0.0/8, which no other machine reaches (RFC 1122, section 3.2.1.3).
fn is_loopback(address: Addr) -> bool
    ensures { result ≡ is_loopback address.0 }
{
    let [first, _, _, _] = address.0;
    first == 127
}

// Appends a line where something holds.
fn put_if<A: Allocator>(out: &mut String<A>, holds: bool, line: &str) -> Result<(), Starved>
    ensures { OnOk result (string_bytes out.new ≡ string_bytes out.old ++ note holds line.now) }
{
    if holds {
        out.push_str(line)?;
    }
    Ok(())
}

/// Appends `ok Z zones R records H hints`.
pub fn put_total<A: Allocator>(
    out: &mut String<A>,
    zones: usize,
    records: usize,
    hints: usize,
) -> Result<(), Starved>
    ensures { OnOk result (string_bytes out.new ≡ string_bytes out.old ++ total_text zones records hints) }
{
    write!(out, "ok {zones} zones {records} records {hints} hints\n")?;
    Ok(())
}
