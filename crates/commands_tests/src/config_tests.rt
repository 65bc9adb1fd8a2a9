//! Files of a server, by examples.
use config::{ServeConfig, read_config};
use memory::Heap;
use rdata::Addr;
use refusing_alloc::Refusing;
use std::test::Fail;
use text_lines::LineKind;

const WHOLE: &str =
    "; a server\n\nlisten 127.0.0.1 5300\nport 5353\nhint 198.41.0.4\n hint\t170.247.170.2\nlocal corp.example. corp.zone\nlocal . \tr/\u{e9}.zone \ncache 1000000\ndelegations 1\npenalties 7\nfailures 8\nsockets 16\nworkers 1\nstreams 256\nclients 1024\nloops 16\nseed 000102030405060708090A0b0c0d0e0f101112131415161718191a1b1c1d1e1f\n";

fn has_numbers<A: Heap>(config: &ServeConfig<'_, A>, numbers: [u32; 10]) -> bool {
    let port = u32::from(config.port);
    numbers
        == [
            port,
            config.cache,
            config.delegations,
            config.penalties,
            config.failures,
            config.sockets,
            config.workers,
            config.streams,
            config.clients,
            config.loops,
        ]
}

// Whether it is what the whole text says, its numbers aside.
fn is_whole<A: Heap>(config: &ServeConfig<'_, A>) -> bool {
    let local = config.locals.get(1);
    config.listen.address == Addr([127, 0, 0, 1])
        && config.listen.port == 5_300
        && config.hints.len() == 2
        && config.hints.get(1) == Some(&Addr([170, 247, 170, 2]))
        && config.locals.len() == 2
        && local.is_some_and(|local| local.file == "r/\u{e9}.zone")
        && config
            .seed
            .is_some_and(|seed| seed[10] == 10 && seed[31] == 31)
}

#[test]
fn each_line_is_read(rt: HostRuntime) -> Result<(), Fail> {
    match read_config(rt.alloc(), WHOLE) {
        Err(_) => assert!(rt; false, "the text is a server's"),
        Ok(config) => {
            assert!(rt; is_whole(&config));
            assert!(rt; has_numbers(&config, [5353, 1_000_000, 1, 7, 8, 16, 1, 256, 1_024, 16]));
        }
    }
    Ok(())
}

#[test]
fn what_is_left_out_is_as_usual(rt: HostRuntime) -> Result<(), Fail> {
    match read_config(rt.alloc(), "listen 0.0.0.0 0") {
        Err(_) => assert!(rt; false, "the text is a server's"),
        Ok(config) => {
            assert!(rt; has_numbers(&config, [53, 1024, 1024, 1024, 1024, 16, 4, 1, 256, 1]));
            assert!(rt;
                config.seed.is_none() && config.hints.is_empty() && config.locals.is_empty()
            );
        }
    }
    Ok(())
}

#[test]
fn the_greatest_port_is_one(rt: HostRuntime) -> Result<(), Fail> {
    match read_config(rt.alloc(), "listen 0.0.0.0 65535\nport 65535") {
        Err(_) => assert!(rt; false, "the text is a server's"),
        Ok(config) => {
            assert_eq!(rt; (config.listen.port, config.port), (65_535, 65_535));
        }
    }
    Ok(())
}

#[test]
fn each_growth_may_be_refused(rt: HostRuntime) -> Result<(), Fail> {
    let heap = Refusing::new(rt.alloc());
    assert!(rt; read_config(&heap, WHOLE).is_ok());
    let growths = heap.growths();
    for n in 0..growths {
        heap.refuse_after(n);
        match read_config(&heap, WHOLE) {
            Ok(_) => assert!(rt; false, "growth {n}"),
            Err(error) => assert!(rt; error.kind == LineKind::Memory, "growth {n}"),
        }
    }
    Ok(())
}
