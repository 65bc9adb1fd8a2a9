//! The example in the head of `simnet`.
use engine::Settings;
use events::Bytes;
use memory::Heap;
use simnet::{Sim, SimEvent};
use std::test::Fail;
use wire::Via;
use worlds::World;

pub fn example<H: Heap>(
    alloc: H,
    world: World<H>,
    settings: Settings,
    bytes: Bytes<H>,
) -> Result<(), Fail> {
    let mut sim = Sim::new(alloc, world, settings)?;
    let asked = sim.step(SimEvent::Client {
        moment: 0,
        client: 1,
        way: Via::Udp,
        bytes,
    })?; // SimAction::Sent { number: 1 }
    let again = sim.step(SimEvent::CarryTruncated {
        moment: 10,
        number: 1,
    })?; // SimAction::Asked { number: 2 }
    let reply = sim.step(SimEvent::CarryTcp {
        moment: 20,
        number: 2,
    })?;
    Ok(())
}
