// The user's keys and clicks.
ghost use Rattle.std.specs.Prelude.{◌≡◌, ◌<◌, [], ◌∷◌, None, Some, true, false, OnOk, IfSome};
ghost use Rattle.std.specs.Prelude.{is_some, if◌then◌else◌};
ghost use Rattle.ibos_kinds.specs.declared.names.Key.{Key};
ghost use Rattle.ibos_kinds.specs.Limits.{IsKey};
ghost use Rattle.ibos_kinds.specs.Keyboard.{key_byte};
ghost use Rattle.ibos_kinds.specs.declared.act.Act.TheVariants.{Press, Click};
ghost use Rattle.ibos_model.specs.Journal.{is_ok};
ghost use Rattle.ibos_model.specs.Outcomes.{click_outcome, page_key_outcome};
ghost use Rattle.ibos_origin.specs.Pages.{allowed};
ghost use Rattle.ibos_page.specs.Tabs.{live_at, active_in};
ghost use Rattle.ibos_kernel.specs.Tables.{press_at, enter_at, with_pressed, with_entered};
ghost use Rattle.ibos_kernel.specs.Tables.{focus_by, IsBeside, ContentsFollow};

use crate::tabs::go;
use ibos_focus::{ClickDone, Focus, KeyDone, Spot};
use ibos_frame::Screen;
use ibos_kinds::{Head, Instance, Item, Key, Memory, Outcome};
use ibos_origin::Hosts;
use ibos_page::Tabs;
use std::alloc::Global;

/// Whether the act was accepted.
pub fn is_accepted(out: &Outcome) -> bool
    ensures { result ≡ is_ok out.now.head }
{
    matches!(out.head, Head::Ok)
}

/// The user presses a key.
pub fn press(
    tabs: &mut Tabs,
    screen: &mut Screen,
    focus: &mut Focus,
    hosts: &Hosts,
    alloc: Global,
    key: Key,
    out: &mut Outcome,
) -> Result<(), Memory>
    requires key { IsKey key }
    requires beside { IsBeside tabs.old screen.old }
    requires entry { tabs.old.active ≡ None → focus.old.spot ≡ Spot.Entry }
    requires head { out.old.head ≡ Head.Ok }
    requires items { out.old.items ≡ [] }
    ensures outcome { OnOk result (out.new ≡ press_at hosts.now tabs.old focus.old key) }
    ensures tabs { OnOk result (tabs.new
        ≡ with_pressed hosts.now tabs.old focus.old (is_ok out.new.head) key) }
    ensures focus { OnOk result (focus.new
        ≡ focus_by tabs.old.active focus.old (is_ok out.new.head) (Press key)) }
    ensures follows { OnOk result (ContentsFollow tabs.old tabs.new screen.old screen.new) }
    ensures chrome { OnOk result (screen.new.chrome ≡ screen.old.chrome) }
    ensures denied { OnOk result (is_ok out.new.head ≡ false → screen.new ≡ screen.old) }
{
    let active = tabs.active();
    match focus.key(key, active.is_some()) {
        Ok(KeyDone::ToPage(byte)) => tell_key(active, byte, out),
        Ok(KeyDone::Edited) => Ok(()),
        Ok(KeyDone::Enter) => enter(tabs, screen, focus, hosts, alloc, active, out),
        Err(rule) => {
            out.head = Head::Denied(rule);
            Ok(())
        }
    }
}

// A key for the active instance.
fn tell_key(active: Option<Instance>, byte: u8, out: &mut Outcome) -> Result<(), Memory>
    requires head { out.old.head ≡ Head.Ok }
    requires items { out.old.items ≡ [] }
    ensures outcome { OnOk result ((key : Key) → byte ≡ key_byte key → out.new
        ≡ page_key_outcome active key) }
{
    if let Some(who) = active {
        out.push(Item::KeyTo { who, byte })?;
    }
    Ok(())
}

// Enter at the entry line: the active instance goes to the page that stands there. An accepted one
// empties the line.
fn enter(
    tabs: &mut Tabs,
    screen: &mut Screen,
    focus: &mut Focus,
    hosts: &Hosts,
    alloc: Global,
    active: Option<Instance>,
    out: &mut Outcome,
) -> Result<(), Memory>
    requires active { active ≡ active_in tabs.old }
    requires some { is_some active ≡ true }
    requires lives { IfSome active (λ who. live_at tabs.old who.tab ≡ Some who) }
    requires beside { IsBeside tabs.old screen.old }
    requires head { out.old.head ≡ Head.Ok }
    requires items { out.old.items ≡ [] }
    ensures outcome { OnOk result (out.new
        ≡ enter_at tabs.old active (allowed hosts.now focus.old.entry_line)) }
    ensures tabs { OnOk result (tabs.new ≡ (if is_ok out.new.head
        then with_entered tabs.old active (allowed hosts.now focus.old.entry_line) else tabs.old)) }
    ensures focus { OnOk result (focus.new ≡ (if is_ok out.new.head
        then record { entry_line = []; spot = Spot.Content } else focus.old)) }
    ensures follows { OnOk result (ContentsFollow tabs.old tabs.new screen.old screen.new) }
    ensures chrome { OnOk result (screen.new.chrome ≡ screen.old.chrome) }
    ensures denied { OnOk result (is_ok out.new.head ≡ false → screen.new ≡ screen.old) }
{
    let Some(who) = active else { unreachable!() };
    go(tabs, screen, hosts, alloc, who, focus.entry(), out)?;
    if is_accepted(out) {
        focus.clear();
        focus.to(Spot::Content);
    }
    Ok(())
}

/// The user clicks on a cell of the screen.
pub fn click(
    focus: &mut Focus,
    active: Option<Instance>,
    row: u32,
    col: u32,
    out: &mut Outcome,
) -> Result<(), Memory>
    requires head { out.old.head ≡ Head.Ok }
    requires items { out.old.items ≡ [] }
    ensures outcome { OnOk result (out.new ≡ click_outcome active row col) }
    ensures focus { OnOk result (focus.new
        ≡ focus_by None focus.old (is_ok out.new.head) (Click row col)) }
{
    match focus.click(row, col, active.is_some()) {
        Ok(ClickDone::Content { row, col }) => {
            if let Some(who) = active {
                out.push(Item::ClickTo { who, row, col })?;
            }
            Ok(())
        }
        Ok(ClickDone::Chrome) | Ok(ClickDone::Entry) => Ok(()),
        Err(rule) => {
            out.head = Head::Denied(rule);
            Ok(())
        }
    }
}
