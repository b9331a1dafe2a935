use crate::{HostFault, Hosts, HostsFault, Page, UrlFault};
use ibos_kinds::Rule;
use std::alloc::Global;
use std::process::Abort;
use std::test::Fail;

const TABLE: &[u8] = b"self 192.0.2.10 02:00:00:00:00:01
gateway 02:00:00:00:00:FE
host a.example 198.51.100.1
host 203.0.113.9 203.0.113.9
";

fn fault_of(alloc: Global, text: &[u8]) -> Option<HostsFault> {
    match Hosts::read(alloc, text) {
        Ok(_) => None,
        Err(fault) => Some(fault),
    }
}

#[test]
fn a_host_table_is_read_or_refused(rt: HostRuntime) -> Result<(), Fail> {
    let hosts = Hosts::read(rt.alloc(), TABLE)?;
    assert_eq!(rt; hosts.local().addr, 0xc000_020a);
    assert_eq!(rt; hosts.local().mac, 0x0200_0000_0001);
    assert_eq!(rt; hosts.local().gateway, 0x0200_0000_00fe);
    assert_eq!(rt; hosts.address(b"203.0.113.9"), Some(0xcb00_7109));
    assert_eq!(rt; hosts.address(b"c.example"), None);
    for (text, line, fault) in [
        (b"\r".as_slice(), 2, HostFault::NoSelf),
        (b"# x\n\ngateway 02:00:00:00:00:fe", 4, HostFault::NoSelf),
        (b"\nself 1.2.3.04 02:00:00:00:00:01", 2, HostFault::Form),
        (b"self 1.2.3.4 02:00:00:00:00:01:02", 1, HostFault::Form),
        (b"host a 1.2.3.4\nhost a 1.2.3.5\nx", 2, HostFault::Twice),
    ] {
        assert_eq!(rt;
            fault_of(rt.alloc(), text),
            Some(HostsFault::At { line, fault })
        );
    }
    Ok(())
}

// The first rule that a URL breaks.
fn denial(alloc: Global, hosts: &Hosts, url: &[u8]) -> Option<UrlFault> {
    match Page::read(alloc, hosts, url) {
        Ok(_) => None,
        Err(fault) => Some(fault),
    }
}

fn check_page(rt: &impl Abort, page: &Page, url: &[u8], origin: &[u8], port: u16) {
    assert_eq!(rt; page.url(), url);
    assert_eq!(rt; page.origin(), origin);
    assert_eq!(rt; page.endpoint().addr, 0xc633_6401);
    assert_eq!(rt; page.endpoint().port, port);
}

#[test]
fn pages_are_read_or_denied(rt: HostRuntime) -> Result<(), Fail> {
    let alloc = rt.alloc();
    let hosts = Hosts::read(alloc, TABLE)?;
    let page = Page::read(alloc, &hosts, b"http://A.example:80/x")?;
    check_page(&rt, &page, b"http://a.example/x", b"http://a.example", 80);
    let page = Page::read(alloc, &hosts, b"https://a.example:8080/?q#f")?;
    let (url, origin) = (b"https://a.example:8080/?q#f", b"https://a.example:8080");
    check_page(&rt, &page, url, origin, 8080);
    for (url, rule) in [
        (b"http://a.example/\xff".as_slice(), Rule::U4),
        (b"ftp://user@a.example/", Rule::U5),
        (b"http://:word@c.example/", Rule::U6),
        (b"http://c.example/", Rule::U9),
    ] {
        assert_eq!(rt; denial(alloc, &hosts, url), Some(UrlFault::Denied(rule)));
    }
    Ok(())
}
