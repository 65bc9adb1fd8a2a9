//! The example in the head of `counters`.
use counters::{Cells, Outcome, StoreSizes, Way, count, put_metrics};
use std::alloc::Global;
use std::test::Fail;

fn example(alloc: Global, mut text: String, stores: StoreSizes) -> Result<(), Fail> {
    let cells = Cells::new(alloc)?;
    count(&mut cells.adder(), Outcome::Asked(Way::Udp));
    put_metrics(&mut text, &cells.values(), 0, stores)?;
    Ok(())
}

#[test]
fn runs(rt: HostRuntime) -> Result<(), Fail> {
    let stores = StoreSizes {
        cache: 5,
        delegations: 4,
        penalties: 3,
        failures: 2,
    };
    example(rt.alloc(), String::new(rt.alloc()), stores)
}
