ghost use Rattle.std.specs.Prelude.{◌≡◌, ◌<◌, Some};
ghost use Rattle.ibos_page.specs.Tabs.{live_at};

use super::*;
use ibos_kinds::{Endpoint, Instance, Rule};
use ibos_origin::{Hosts, Page};
use std::alloc::Global;
use std::process::Abort;
use std::test::Fail;

const HOSTS: &[u8] = b"self 192.0.2.10 02:00:00:00:00:01\n\
    gateway 02:00:00:00:00:fe\n\
    host a.example 198.51.100.1\n\
    host b.example 198.51.100.2\n";

fn page(alloc: Global, url: &[u8]) -> Result<Page, Fail> {
    let hosts = Hosts::read(alloc, HOSTS)?;
    Ok(Page::read(alloc, &hosts, url)?)
}

// Opens a page in a tab, and says which instance it is.
fn open(rt: &impl Abort, tabs: &mut Tabs, tab: u8, page: Page) -> Instance
    requires { tab < 64 }
{
    let may = tabs.may_start(tab);
    assert!(rt; may.is_ok());
    tabs.start(tab, page)
}

fn assert_lives(rt: &impl Abort, tabs: &Tabs, who: Instance)
    ensures { live_at tabs.now who.tab ≡ Some who }
{
    assert_eq!(rt; tabs.live(who), Ok(()));
}

#[test]
fn an_instance_starts_moves_leaves_and_ends(rt: HostRuntime) -> Result<(), Fail> {
    let alloc = rt.alloc();
    let mut tabs = Tabs::new(alloc)?;
    let first = open(&rt, &mut tabs, 5, page(alloc, b"http://a.example/1")?);
    assert_eq!(rt; first, Instance { tab: 5, ord: 0 });
    assert_eq!(rt; tabs.may_start(5), Err(Rule::U1));
    assert_eq!(rt; tabs.live(Instance { tab: 5, ord: 1 }), Err(Rule::P1));
    assert_eq!(rt; tabs.live(Instance { tab: 255, ord: 0 }), Err(Rule::P1));
    assert_eq!(rt; tabs.switch(4), Err(Rule::U2));
    assert_eq!(rt;
        tabs.go(first, page(alloc, b"http://a.example/2")?),
        Ok(Moved::Same)
    );
    assert_lives(&rt, &tabs, first);
    assert_eq!(rt; tabs.url(first), b"http://a.example/2".as_slice());
    assert_eq!(rt; tabs.origin(first), b"http://a.example".as_slice());
    assert_eq!(rt;
        tabs.endpoint(first),
        Endpoint {
            addr: 0xc633_6401,
            port: 80
        }
    );
    let second = Instance { tab: 5, ord: 1 };
    assert_eq!(rt;
        tabs.go(first, page(alloc, b"http://b.example:81/")?),
        Ok(Moved::New(second))
    );
    assert_eq!(rt; tabs.live(first), Err(Rule::P2));
    assert_eq!(rt; tabs.active(), Some(second));
    assert_eq!(rt; tabs.close(5), Ok(second));
    assert_eq!(rt; tabs.close(5), Err(Rule::U2));
    assert_eq!(rt; tabs.active(), None);
    Ok(())
}

#[test]
fn closing_an_inactive_tab_leaves_the_active_one(rt: HostRuntime) -> Result<(), Fail> {
    let alloc = rt.alloc();
    let mut tabs = Tabs::new(alloc)?;
    let first = open(&rt, &mut tabs, 5, page(alloc, b"http://a.example/")?);
    let second = open(&rt, &mut tabs, 6, page(alloc, b"http://b.example/")?);
    assert_eq!(rt; tabs.close(5), Ok(first));
    assert_eq!(rt; tabs.active(), Some(second));
    assert_eq!(rt; tabs.live(second), Ok(()));
    Ok(())
}
