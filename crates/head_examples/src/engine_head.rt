//! The example in the head of `engine`.
use engine::{Config, Core, Settings};
use events::{Action, Bytes, Event};
use memory::Heap;
use rdata::Addr;
use std::test::Fail;
use wire::Via;

pub fn example<H: Heap>(alloc: H, settings: Settings, bytes: Bytes<H>) -> Result<(), Fail> {
    let hints = Vec::from_slice(alloc, &[Addr([198, 41, 0, 4])])?;
    let mut core = Core::new(
        alloc,
        Config {
            local: Vec::new(alloc),
            hints,
            settings,
        },
    )?;
    let actions = core.step(&Event::Client {
        moment: 0,
        client: 3,
        way: Via::Udp,
        bytes,
    })?;
    match &actions.first {
        Some(Action::Reply { .. }) => {} // to the client
        Some(Action::Send { .. }) => {} // to a server
        _ => {}
    }
    Ok(())
}
