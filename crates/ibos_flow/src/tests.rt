use super::*;
use ibos_kinds::{Endpoint, Heading, Instance, Local, Proto, Rule};
use std::test::Fail;

const LOCAL: Local = Local {
    addr: 0xC000_020A,
    mac: 0x0200_0000_0001,
    gateway: 0x0200_0000_00FE,
};

const REMOTE: Endpoint = Endpoint {
    addr: 0xC633_6401,
    port: 80,
};

const OTHER: Endpoint = Endpoint {
    addr: 0xC633_6402,
    port: 80,
};

// From port 80 of 198.51.100.1 to port 65,520 of 192.0.2.10, a UDP datagram without a checksum.
const COMES_IN: &[u8; 44] = b"\x02\0\0\0\0\x01\x02\0\0\0\0\xfe\x08\0\
    \x45\0\0\x1e\0\x02\0\0\x40\x11\x8e\x8e\xc6\x33\x64\x01\xc0\0\x02\x0a\
    \0\x50\xff\xf0\0\x0a\0\0hi";

#[test]
fn frames_find_their_flows(rt: HostRuntime) -> Result<(), Fail> {
    let who = Instance { tab: 63, ord: 31 };
    let mut table = FlowTable::new(rt.alloc())?;
    table.begin(who, REMOTE)?;
    let port = 65_520;
    let heading = Heading {
        proto: Proto::Udp,
        port,
        remote: REMOTE,
    };
    let foreign = Heading {
        proto: Proto::Udp,
        port,
        remote: OTHER,
    };
    assert_eq!(rt; read_in(&LOCAL, COMES_IN), Ok(heading));
    assert_eq!(rt; read_out(&LOCAL, COMES_IN), Err(Rule::F3));
    assert_eq!(rt; read_in(&LOCAL, &COMES_IN[..13]), Err(Rule::F1));
    assert_eq!(rt; table.find(&heading), Err(Rule::F12));
    assert_eq!(rt; table.bind(who, Proto::Udp), Ok(0));
    assert_eq!(rt; table.find(&heading), Ok((who, 0)));
    assert_eq!(rt; table.find(&foreign), Err(Rule::F13));
    assert_eq!(rt; table.check(who, &heading), Ok(0));
    assert_eq!(rt;
        table.check(Instance { tab: 63, ord: 30 }, &heading),
        Err(Rule::F12)
    );
    assert_eq!(rt; table.bind(who, Proto::Tcp), Ok(1));
    assert_eq!(rt; table.close(who, 0), Ok(()));
    assert_eq!(rt; table.close(who, 0), Err(Rule::N2));
    assert_eq!(rt; table.find(&heading), Err(Rule::F12));
    assert_eq!(rt; table.bind(who, Proto::Udp), Ok(2));
    Ok(())
}

#[test]
fn ports_have_their_places(rt: HostRuntime) -> Result<(), Fail> {
    let who = Instance { tab: 1, ord: 0 };
    let mut table = FlowTable::new(rt.alloc())?;
    table.begin(who, REMOTE)?;
    assert_eq!(rt; table.bind(who, Proto::Udp), Ok(0));
    let places = table.places();
    let wanted = PortPlace {
        bound: true,
        proto: Proto::Udp,
        remote: REMOTE,
    };
    assert_eq!(rt; places.len(), 32_768);
    assert_eq!(rt; places[512], wanted);
    assert_eq!(rt; places.iter().filter(|place| place.bound).count(), 1);
    Ok(())
}
