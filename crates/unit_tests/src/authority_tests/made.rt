//! Catalogs, and zones and questions made from a seed.

use authority::Catalog;
use dname::Name;
use memory::{Heap, Starved};
use rand_chacha::ChaCha8Rng;
use rand_core::{Rng, SeedableRng};
use rdata::{RType, Record, Records};
use record_fixtures::{Row, Value, name, record, records};
use zone::Zone;

/// The catalog of these zones. One that is refused counts as out of memory.
pub fn known<A: Heap>(zones: Vec<Zone<A>, A>) -> Result<Catalog<A>, Starved> {
    match Catalog::new(zones) {
        Ok(catalog) => Ok(catalog),
        Err(_) => Err(Starved),
    }
}

const ORIGIN: &str = "zone.example";

// What a record is, drawn from these, so that it is an address at an owner of its own twice as often as anything else:
// the first labels that its owner may have, and its data, or `None` for one of four addresses.
const KINDS: &[(&[&'static str], Option<Value<'static>>)] = &[
    (&["a.", "b.", "*."], None),
    (&["a.", "b.", "*."], None),
    (&["a.", "b.", "*."], Some(Value::Txt("words"))),
    // A delegation, its server's address, and an alias.
    (&["d."], Some(Value::Ns("ns.d.zone.example"))),
    (&["ns.d."], None),
    (&["w."], Some(Value::Cname("a.zone.example"))),
];

/// Zones and questions that follow from a seed. `d` at the left end of an owner makes a delegation, `w` an alias,
/// and no owner has either of them further to the right but a server's, so that each zone keeps the rules.
#[derive(Drop)]
pub struct Maker<A: Heap> {
    words: ChaCha8Rng,
    alloc: A,
}

impl<A: Heap> Maker<A> {
    /// The seed's.
    pub fn new(alloc: A, seed: u8) -> Maker<A> {
        Maker {
            words: ChaCha8Rng::from_seed([seed; 32]),
            alloc,
        }
    }

    // One of these; `None` where there are none.
    fn one_of<T: Copy>(&mut self, among: &[T]) -> Option<T> {
        let word = self.words.next_u32() as usize;
        among.get(word.checked_rem(among.len())?).copied()
    }

    fn put_owner(
        &mut self,
        text: &mut String<A>,
        first: &[&'static str],
        others: &[&'static str],
    ) -> Result<(), Starved> {
        for among in [first, others, others] {
            text.push_str(self.one_of(among).unwrap_or("a"))?;
        }
        Ok(text.push_str(ORIGIN)?)
    }

    // A name in the zone: one of the first labels, and up to two of the others above it.
    fn owner(
        &mut self,
        first: &[&'static str],
        others: &[&'static str],
    ) -> Result<String<A>, Starved> {
        let mut text = String::new(self.alloc);
        self.put_owner(&mut text, first, others)?;
        Ok(text)
    }

    // A record of one of the kinds, at an owner fit for it.
    fn record(&mut self) -> Result<Record<A>, Starved> {
        let (first, data) = self.one_of(KINDS).unwrap_or((&[], None));
        let value = match data {
            Some(value) => value,
            None => Value::A((self.words.next_u32() % 4) as u8),
        };
        let owner = self.owner(first, &["", "", "a.", "b."])?;
        record(self.alloc, (owner.as_str(), 60, value))
    }

    // The zone's SOA, its server and forty records more, some of them repeats.
    fn records(&mut self) -> Result<Records<A>, Starved> {
        let top: [Row<'static>; 2] = [
            (ORIGIN, 3600, Value::Soa(60)),
            (ORIGIN, 3600, Value::Ns("ns.d.zone.example")),
        ];
        let mut records = records(self.alloc, &top)?;
        self.put_more(&mut records)?;
        Ok(records)
    }

    fn put_more(&mut self, records: &mut Records<A>) -> Result<(), Starved> {
        for _ in 0..40 {
            records.push(self.record()?)?;
        }
        Ok(())
    }

    /// A zone of such records.
    pub fn zone(&mut self) -> Result<Zone<A>, Starved> {
        let records = self.records()?;
        match Zone::build(name(self.alloc, ORIGIN)?, records) {
            Ok(zone) => Ok(zone),
            Err(_) => Err(Starved),
        }
    }

    /// A question in the zone: at, beneath and beside its owners.
    pub fn question(&mut self) -> Result<(Name<A>, RType), Starved> {
        let kinds = [RType::A, RType::Txt, RType::Ns, RType::Cname];
        let asked = self.asked()?;
        let kind = self.one_of(&kinds).unwrap_or(RType::A);
        Ok((asked, kind))
    }

    fn asked(&mut self) -> Result<Name<A>, Starved> {
        let first = ["", "a.", "b.", "d.", "ns.d.", "w.", "x.", "*."];
        let others = ["", "a.", "b.", "d.", "w.", "x.", "*."];
        let asked = self.owner(&first, &others)?;
        name(self.alloc, asked.as_str())
    }
}
