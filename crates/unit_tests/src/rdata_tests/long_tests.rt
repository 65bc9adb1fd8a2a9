use super::addresses_at;
use memory::Starved;
use rdata::{Addr, RData, Record, Records};
use record_fixtures::name;
use std::alloc::Global;
use std::test::Fail;

// An address for each number, and one more for each of the first.
fn addresses(alloc: Global, many: u32, repeated: u32) -> Result<Records, Starved> {
    let owner = name(alloc, "a.example")?;
    let mut records = Records::new(alloc);
    for count in [many, repeated] {
        for number in 0..count {
            records.push(Record {
                owner: owner.clone()?,
                ttl: 300 + number % 7,
                value: RData::A(Addr(number.to_be_bytes())),
            })?;
        }
    }
    Ok(records)
}

// RFC 2181, sections 5 and 5.2.
#[test]
fn many_records_made_one_set(rt: HostRuntime) -> Result<(), Fail> {
    let records = addresses(rt.alloc(), 99_000, 1_000)?;
    let found = addresses_at(rt.alloc(), records.as_slice(), 300, 0)?;
    assert_eq!(rt; found, (99_000, 99_000, None));
    Ok(())
}
