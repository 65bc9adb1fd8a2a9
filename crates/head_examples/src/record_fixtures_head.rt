//! The example in the head of `record_fixtures`.
use memory::Heap;
use record_fixtures::{Value, name, records};
use std::test::Fail;
use zone::Zone;

fn example<H: Heap>(alloc: H) -> Result<(), Fail> {
    let rows = [
        ("example", 60, Value::Soa(60)),
        ("example", 60, Value::Ns("ns.example")),
    ];
    let zone = Zone::build(name(alloc, "example")?, records(alloc, &rows)?)?;
    Ok(())
}

#[test]
fn runs(rt: HostRuntime) -> Result<(), Fail> {
    example(rt.alloc())
}
