//! Delegations whose servers are named in other zones: what a resolver has learnt of them.
use crate::hostile::bytes::{
    A_TYPE, NS_TYPE, QUESTION, pointer, put_label, put_middle, put_root_soa,
};
use crate::hostile::talk::{Says, Talk};
use memory::{Heap, Starved};

/// How many addresses of a server's name are cached, where they are many.
pub const ADDRESSES: u16 = 4_000;

// Sixteen names: a front, a number from `from` on, and an end.
fn sixteen<H: Heap>(
    alloc: H,
    front: &str,
    from: u16,
    end: &str,
) -> Result<Vec<String<H>, H>, Starved> {
    let mut names = Vec::new(alloc);
    for n in 0..16u16 {
        names.push(numbered(alloc, front, from.saturating_add(n), end)?)?;
    }
    Ok(names)
}

fn numbered<H: Heap>(alloc: H, front: &str, number: u16, end: &str) -> Result<String<H>, Starved> {
    let mut name = String::new(alloc);
    write!(name, "{front}{number}{end}")?;
    Ok(name)
}

// A zone of that number, with these servers.
fn delegate<H: Heap>(
    talk: &mut Talk<H>,
    front: &str,
    number: u16,
    servers: Vec<String<H>, H>,
) -> Result<(), Starved> {
    let zone = numbered(talk.heap(), front, number, "")?;
    talk.delegate(zone.as_str(), &servers)
}

// A zone of that number, with one server.
fn delegate_to_one<H: Heap>(
    talk: &mut Talk<H>,
    zone: &str,
    server: Result<String<H>, Starved>,
) -> Result<(), Starved> {
    let mut own = Vec::new(talk.heap());
    own.push(server?)?;
    talk.delegate(zone, &own)
}

/// The servers of `a.` are named in sixteen zones, those of each of these in sixteen others, and those of all 256 in
/// `d0.`, whose one server has no address: 274 delegations.
pub fn learn_tree<H: Heap>(talk: &mut Talk<H>) -> Result<(), Starved> {
    let heap = talk.heap();
    delegate_to_one(talk, "d0", numbered(heap, "ns.d", 0, ""))?;
    for c in 0..256u16 {
        learn_leaf(talk, c)?;
    }
    for b in 0..16u16 {
        delegate(
            talk,
            "b",
            b,
            sixteen(heap, "s.c", b.saturating_mul(16), "")?,
        )?;
    }
    talk.delegate("a", &sixteen(heap, "s.b", 0, "")?)
}

// The zone of that number whose servers are named in `d0.`.
fn learn_leaf<H: Heap>(talk: &mut Talk<H>, number: u16) -> Result<(), Starved> {
    let heap = talk.heap();
    let end = numbered(heap, "c", number, ".d0")?;
    delegate(talk, "c", number, sixteen(heap, "s", 0, end.as_str())?)
}

// Four zones, whose names end with a number, and the zone e. whose four servers are named in them.
fn learn_four<H: Heap>(talk: &mut Talk<H>) -> Result<(), Starved> {
    let heap = talk.heap();
    let mut servers = Vec::new(heap);
    for z in 0..4u16 {
        servers.push(numbered(heap, "ns.z", z, "")?)?;
    }
    talk.delegate("e", &servers)
}

/// The addresses 10.9.0.0, 10.9.0.1 and so on, of the name that is asked for.
pub fn many_addresses<H: Heap>(alloc: H) -> Result<Vec<u8, H>, Starved> {
    let mut records = Vec::new(alloc);
    for n in 0..ADDRESSES {
        put_address(&mut records, n)?;
    }
    Ok(records)
}

fn put_address<H: Heap>(out: &mut Vec<u8, H>, number: u16) -> Result<(), Starved> {
    let [high, low] = number.to_be_bytes();
    out.extend_from_slice(&QUESTION)?;
    put_middle(out, A_TYPE, 4)?;
    out.extend_from_slice(&[10, 9, high, low])?;
    Ok(())
}

/// Sixteen names of servers have 4,000 addresses each, the same ones. The servers of four zones have these names, and
/// those of `e.` are named in the four. All that are asked for what is sought in these zones failed to answer it.
pub fn learn_many_addresses<H: Heap>(talk: &mut Talk<H>) -> Result<(), Starved> {
    let names = sixteen(talk.heap(), "n", 0, "")?;
    let learnt = learn_addresses(talk, &names);
    drop(names);
    learnt?;
    talk.fail_all()?;
    for _ in 0..3 {
        talk.ask("x.e", A_TYPE)?;
        talk.fail_all()?;
    }
    Ok(())
}

// These names have the addresses, and the zones their servers.
fn learn_addresses<H: Heap>(talk: &mut Talk<H>, names: &[String<H>]) -> Result<(), Starved> {
    let records = many_addresses(talk.heap())?;
    let told = tell_all(talk, names, &records);
    drop(records);
    told?;
    for z in 0..4u16 {
        delegate_to(talk, z, names)?;
    }
    learn_four(talk)
}

// Each of these names is answered with these addresses.
fn tell_all<H: Heap>(
    talk: &mut Talk<H>,
    names: &[String<H>],
    records: &[u8],
) -> Result<(), Starved> {
    for name in names {
        talk.ask(name.as_str(), A_TYPE)?;
        talk.tell_by_tcp(Says::answer(ADDRESSES, records))?;
    }
    Ok(())
}

// The zone of that number, with these servers.
fn delegate_to<H: Heap>(
    talk: &mut Talk<H>,
    number: u16,
    servers: &[String<H>],
) -> Result<(), Starved> {
    let zone = numbered(talk.heap(), "z", number, "")?;
    talk.delegate(zone.as_str(), servers)
}

/// A name of 127 labels, one of 1,296.
pub fn long_name<H: Heap>(alloc: H, number: u16) -> Result<String<H>, Starved> {
    let mut name = String::new(alloc);
    for _ in 0..125 {
        name.push_str("a.")?;
    }
    write!(name, "{}.{}", letter(number / 36), letter(number % 36))?;
    Ok(name)
}

fn letter(number: u16) -> char {
    char::from_digit(u32::from(number % 36), 36).unwrap_or('0')
}

fn long_names<H: Heap>(alloc: H, from: u16, count: u16) -> Result<Vec<String<H>, H>, Starved> {
    let mut names = Vec::new(alloc);
    for n in 0..count {
        names.push(long_name(alloc, from.saturating_add(n))?)?;
    }
    Ok(names)
}

/// Cache and delegations are full: of names of 127 labels that do not exist, and of zones without a server. The last 64
/// of these names are those of the servers of four zones, and those of `e.` are named in the four.
pub fn learn_long_names<H: Heap>(talk: &mut Talk<H>) -> Result<(), Starved> {
    let heap = talk.heap();
    let names = long_names(heap, 0, 1_024)?;
    let learnt = learn_no_names(talk, &names);
    drop(names);
    learnt?;
    for z in 0..4u16 {
        let from = 960u16.saturating_add(z.saturating_mul(16));
        delegate(talk, "z", z, long_names(heap, from, 16)?)?;
    }
    learn_four(talk)
}

// None of these names exists, and each is that of a zone's server.
fn learn_no_names<H: Heap>(talk: &mut Talk<H>, names: &[String<H>]) -> Result<(), Starved> {
    let mut soa = Vec::new(talk.heap());
    put_root_soa(&mut soa)?;
    let denied = deny_all(talk, names, &soa);
    drop(soa);
    denied?;
    for server in names {
        learn_long_zone(talk, server)?;
    }
    Ok(())
}

// Each of these names is denied.
fn deny_all<H: Heap>(talk: &mut Talk<H>, names: &[String<H>], soa: &[u8]) -> Result<(), Starved> {
    for name in names {
        talk.ask(name.as_str(), A_TYPE)?;
        talk.tell(Says::name_error(soa))?;
    }
    Ok(())
}

// The zone of 126 labels that this server's name stands in, which names no other.
fn learn_long_zone<H: Heap>(talk: &mut Talk<H>, server: &String<H>) -> Result<(), Starved> {
    let own = match server.clone() {
        Ok(own) => Ok(own),
        Err(_) => Err(Starved),
    };
    delegate_to_one(talk, server.as_str().get(2..).unwrap_or(""), own)
}

/// How many servers the large referral has.
pub const SERVERS: u16 = 3_600;

/// The records of a referral of 3,600 servers, whose names have 250 bytes: the first one stands in full, the others end
/// with it. The zone is that of the question's last label, before which one of a byte stands.
pub fn many_servers<H: Heap>(talk: &Talk<H>) -> Result<Vec<u8, H>, Starved> {
    let mut records = Vec::new(talk.heap());
    let data = talk.question_size().saturating_add(24);
    put_first_server(&mut records)?;
    for n in 1..SERVERS {
        put_server(&mut records, n, data.saturating_add(4))?;
    }
    Ok(records)
}

fn put_first_server<H: Heap>(out: &mut Vec<u8, H>) -> Result<(), Starved> {
    out.extend_from_slice(&pointer(14))?;
    put_middle(out, NS_TYPE, 253)?;
    put_long_server(out)
}

// The server of that number, whose name ends as the one at that place.
fn put_server<H: Heap>(out: &mut Vec<u8, H>, number: u16, end: usize) -> Result<(), Starved> {
    out.extend_from_slice(&pointer(14))?;
    put_middle(out, NS_TYPE, 6)?;
    put_label(out, &digits(number))?;
    out.extend_from_slice(&pointer(end))?;
    Ok(())
}

// 63 labels of three bytes: 253 bytes.
fn put_long_server<H: Heap>(out: &mut Vec<u8, H>) -> Result<(), Starved> {
    for _ in 0..63 {
        put_label(out, b"zzz")?;
    }
    out.push(0)?;
    Ok(())
}

fn digits(number: u16) -> [u8; 3] {
    [digit(number / 1_296), digit(number / 36), digit(number)]
}

fn digit(number: u16) -> u8 {
    u8::try_from(letter(number)).unwrap_or(b'0')
}
