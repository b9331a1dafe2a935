// Acts on tabs.
ghost use Rattle.std.specs.Prelude.{◌≡◌, ◌<◌, [], false, Some, Ok, Err, OnOk, is_some};
ghost use Rattle.std.specs.Prelude.{if◌then◌else◌};
ghost use Rattle.ibos_model.specs.Journal.{is_ok};
ghost use Rattle.ibos_model.specs.Outcomes.{accepted, denied, close_outcome};
ghost use Rattle.ibos_origin.specs.Pages.{allowed};
ghost use Rattle.ibos_page.specs.Tabs.{seat_at, live_at, start_in, closed, with_seat, without};
ghost use Rattle.ibos_kernel.specs.Tables.{started_by, with_started, go_at, with_gone, IsBeside};
ghost use Rattle.ibos_kernel.specs.Tables.{ContentsFollow};

use ibos_frame::Screen;
use ibos_kinds::{Bytes, Head, Instance, Item, Memory, Outcome, Rule};
use ibos_origin::{Hosts, Page, UrlFault};
use ibos_page::{Moved, Tabs};
use std::alloc::Global;

/// The user opens a URL in a tab.
pub fn start(
    tabs: &mut Tabs,
    screen: &mut Screen,
    hosts: &Hosts,
    alloc: Global,
    tab: u8,
    url: &[u8],
    out: &mut Outcome,
) -> Result<(), Memory>
    requires tab { tab < 64 }
    requires beside { IsBeside tabs.old screen.old }
    requires head { out.old.head ≡ Head.Ok }
    requires items { out.old.items ≡ [] }
    ensures outcome { OnOk result (out.new
        ≡ started_by (start_in tabs.old tab) (allowed hosts.now url.now)) }
    ensures tabs { OnOk result (tabs.new ≡ (if is_ok out.new.head
        then with_started tabs.old tab (allowed hosts.now url.now) else tabs.old)) }
    ensures follows { OnOk result (ContentsFollow tabs.old tabs.new screen.old screen.new) }
    ensures chrome { OnOk result (screen.new.chrome ≡ screen.old.chrome) }
    ensures denied { OnOk result (is_ok out.new.head ≡ false → screen.new ≡ screen.old) }
{
    let who = match tabs.may_start(tab) {
        Ok(who) => who,
        Err(rule) => {
            out.head = Head::Denied(rule);
            return Ok(());
        }
    };
    match Page::read(alloc, hosts, url) {
        Ok(page) => {
            let url = Bytes::from_slice(alloc, page.url())?;
            out.push(Item::Opened { who, url })?;
            screen.begin(who)?;
            let _ = tabs.start(tab, page);
            Ok(())
        }
        Err(UrlFault::Denied(rule)) => {
            out.head = Head::Denied(rule);
            Ok(())
        }
        Err(UrlFault::Memory) => Err(Memory),
    }
}

/// The user makes a tab the active one.
pub fn switch(tabs: &mut Tabs, tab: u8, out: &mut Outcome)
    requires tab { tab < 64 }
    requires head { out.old.head ≡ Head.Ok }
    requires items { out.old.items ≡ [] }
    ensures outcome { out.new ≡ (if is_some (seat_at tabs.old tab).page then accepted []
        else denied Rule.U2) }
    ensures tabs { tabs.new ≡ (if is_ok out.new.head then record tabs.old { active = Some tab }
        else tabs.old) }
{
    if let Err(rule) = tabs.switch(tab) {
        out.head = Head::Denied(rule);
    }
}

/// The user closes a tab.
pub fn close(tabs: &mut Tabs, screen: &mut Screen, tab: u8, out: &mut Outcome) -> Result<(), Memory>
    requires tab { tab < 64 }
    requires beside { IsBeside tabs.old screen.old }
    requires head { out.old.head ≡ Head.Ok }
    requires items { out.old.items ≡ [] }
    ensures outcome { OnOk result (out.new ≡ close_outcome (live_at tabs.old tab)) }
    ensures tabs { OnOk result (tabs.new ≡ (if is_ok out.new.head
        then record (with_seat tabs.old tab (closed (seat_at tabs.old tab)))
        { active = without tab tabs.old.active } else tabs.old)) }
    ensures follows { OnOk result (ContentsFollow tabs.old tabs.new screen.old screen.new) }
    ensures chrome { OnOk result (screen.new.chrome ≡ screen.old.chrome) }
    ensures denied { OnOk result (is_ok out.new.head ≡ false → screen.new ≡ screen.old) }
{
    match tabs.close(tab) {
        Ok(who) => {
            screen.end(who);
            out.push(Item::Ended { who })?;
            Ok(())
        }
        Err(rule) => {
            out.head = Head::Denied(rule);
            Ok(())
        }
    }
}

/// A renderer leaves for a URL.
pub fn go(
    tabs: &mut Tabs,
    screen: &mut Screen,
    hosts: &Hosts,
    alloc: Global,
    who: Instance,
    url: &[u8],
    out: &mut Outcome,
) -> Result<(), Memory>
    requires lives { live_at tabs.old who.tab ≡ Some who }
    requires beside { IsBeside tabs.old screen.old }
    requires head { out.old.head ≡ Head.Ok }
    requires items { out.old.items ≡ [] }
    ensures outcome { OnOk result (out.new ≡ go_at tabs.old who (allowed hosts.now url.now)) }
    ensures tabs { OnOk result (tabs.new ≡ (if is_ok out.new.head
        then with_gone tabs.old who (allowed hosts.now url.now) else tabs.old)) }
    ensures follows { OnOk result (ContentsFollow tabs.old tabs.new screen.old screen.new) }
    ensures chrome { OnOk result (screen.new.chrome ≡ screen.old.chrome) }
    ensures denied { OnOk result (is_ok out.new.head ≡ false → screen.new ≡ screen.old) }
{
    match Page::read(alloc, hosts, url) {
        Ok(page) => {
            let url = Bytes::from_slice(alloc, page.url())?;
            go_to(tabs, screen, who, page, url, out)?;
            Ok(())
        }
        Err(UrlFault::Denied(rule)) => {
            out.head = Head::Denied(rule);
            Ok(())
        }
        Err(UrlFault::Memory) => Err(Memory),
    }
}

fn go_to(
    tabs: &mut Tabs,
    screen: &mut Screen,
    who: Instance,
    page: Page,
    url: Bytes,
    out: &mut Outcome,
) -> Result<(), Memory>
    requires lives { live_at tabs.old who.tab ≡ Some who }
    requires beside { IsBeside tabs.old screen.old }
    requires url { url ≡ page.url }
    requires head { out.old.head ≡ Head.Ok }
    requires items { out.old.items ≡ [] }
    ensures outcome { OnOk result (out.new ≡ go_at tabs.old who (Ok page)) }
    ensures tabs { OnOk result (tabs.new ≡ (if is_ok out.new.head
        then with_gone tabs.old who (Ok page) else tabs.old)) }
    ensures follows { OnOk result (ContentsFollow tabs.old tabs.new screen.old screen.new) }
    ensures chrome { OnOk result (screen.new.chrome ≡ screen.old.chrome) }
    ensures denied { OnOk result (is_ok out.new.head ≡ false → screen.new ≡ screen.old) }
{
    match tabs.go(who, page) {
        Ok(Moved::Same) => {
            out.push(Item::Moved { who, url })?;
            Ok(())
        }
        Ok(Moved::New(next)) => {
            screen.end(who);
            screen.begin(next)?;
            out.push(Item::Ended { who })?;
            out.push(Item::Opened { who: next, url })?;
            Ok(())
        }
        Err(rule) => {
            out.head = Head::Denied(rule);
            Ok(())
        }
    }
}
