//! The example in the head of `config_report`.
use config::read_config;
use config_report::line_report;
use memory::{Heap, Starved};
use std::test::Fail;

fn example<A: Heap>(alloc: A, text: &str) -> Result<(), Starved> {
    if let Err(error) = read_config(alloc, text) {
        let report = line_report(alloc, "resolverd.conf", text, error)?;
    }
    Ok(())
}

#[test]
fn runs(rt: HostRuntime) -> Result<(), Fail> {
    example(rt.alloc(), "listen 127.0.0.1 5300\ncache 0\n")?;
    Ok(())
}
