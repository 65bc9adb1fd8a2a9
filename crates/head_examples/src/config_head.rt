//! The example in the head of `config`.
use config::read_config;
use std::test::Fail;

#[test]
fn example(rt: HostRuntime) -> Result<(), Fail> {
    let text = "listen 127.0.0.1 5300\nhint 198.41.0.4\nlocal example. example.zone\n";
    let config = read_config(rt.alloc(), text)?;
    assert_eq!(rt;
        (config.listen.port, config.port, config.locals.len()),
        (5300, 53, 1)
    );
    Ok(())
}
