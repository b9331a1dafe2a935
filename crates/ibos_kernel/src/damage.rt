// Which rows of the chrome an act may change, and the writing of those rows.
ghost use Rattle.std.specs.Prelude.{◌≡◌, ◌≢◌, ◌<◌, ℕ, false, Some, IfSome};
ghost use Rattle.ibos_kinds.specs.declared.names.Instance.{Instance};
ghost use Rattle.ibos_kinds.specs.Screens.{padded};
ghost use Rattle.ibos_page.specs.Tabs.{live_at};
ghost use Rattle.ibos_frame.specs.ScreenStates.{chrome_at, content_of};
ghost use Rattle.ibos_model.specs.Focus.{is_tab};
ghost use Rattle.ibos_model.specs.Screen.{state_text, entry_line_text};
ghost use Rattle.ibos_kernel.specs.Tables.{bar_at, is_entry};
ghost use Rattle.ibos_kernel.specs.Tables as tables;
ghost use Rattle.ibos_kernel.specs.DamagedRows as spec;

use crate::chrome::{Row, bar_row, entry_row, state_row};
use arrayvec::ArrayVec;
use ibos_focus::{Focus, Spot};
use ibos_frame::Screen;
use ibos_kinds::{Act, Instance, Key};
use ibos_page::Tabs;

/// The rows of the chrome whose texts are to be written again: the state, the address bar, and the
/// entry line.
#[derive(Clone, Copy)]
pub struct Damage {
    pub state: bool,
    pub bar: bool,
    pub entry: bool,
}

/// Whether an act is one of cookies or of stored objects, of which nothing is seen.
pub fn is_quiet(act: &Act) -> bool
    ensures { result ≡ tables.is_quiet act.now }
{
    match act {
        Act::CookieSet { .. } | Act::CookieGet { .. } => true,
        Act::Put { .. } | Act::Ask { .. } => true,
        Act::StoreAnswer { .. } | Act::StoreNone { .. } | Act::StoreLose { .. } => true,
        _ => false,
    }
}

/// The rows whose texts an act may change, if it is accepted.
pub fn damage_of(tabs: &Tabs, focus: &Focus, act: &Act) -> Damage
    ensures { result ≡ spec.damage_of tabs.now focus.now act.now }
{
    match act {
        Act::Start { .. } | Act::Switch { .. } => tab_damage(true),
        Act::Close { tab } => tab_damage(is_active(tabs, *tab)),
        Act::Go { who, .. } => tab_damage(is_active(tabs, who.tab)),
        Act::Press { key } => key_damage(focus.spot(), *key),
        Act::Click { row, .. } => click_damage(focus.spot(), *row),
        _ => Damage {
            state: false,
            bar: false,
            entry: false,
        },
    }
}

fn is_active(tabs: &Tabs, tab: u8) -> bool
    ensures { result ≡ is_tab tab tabs.now.active }
{
    tabs.is_active(tab)
}

// What is typed stays when another instance becomes the active one, or shows another URL.
fn tab_damage(is_active: bool) -> Damage
    ensures { result ≡ spec.tab_damage is_active }
{
    Damage {
        state: is_active,
        bar: is_active,
        entry: false,
    }
}

fn key_damage(spot: Spot, key: Key) -> Damage
    ensures { result ≡ spec.key_damage spot key }
{
    let is_typed = spot == Spot::Entry;
    let enters = is_typed && key == Key::Enter;
    Damage {
        state: enters,
        bar: enters,
        entry: is_typed,
    }
}

fn click_damage(spot: Spot, row: u32) -> Damage
    ensures { result ≡ spec.click_damage spot row }
{
    let state = match spot {
        Spot::Entry => row > 2,
        Spot::Content => row == 2,
    };
    Damage {
        state,
        bar: false,
        entry: false,
    }
}

/// Writes the state, where it may be another.
pub fn write_state(screen: &mut Screen, active: Option<Instance>, spot: Spot, is_damaged: bool)
    requires kept { is_damaged ≡ false → chrome_at screen.old 0
        ≡ padded (state_text active (is_entry spot)) }
    ensures row { chrome_at screen.new 0 ≡ padded (state_text active (is_entry spot)) }
    ensures rows { (r : ℕ) → r < 3 → r ≢ 0 → chrome_at screen.new r ≡ chrome_at screen.old r }
    ensures contents { (q : Instance) → content_of screen.new q ≡ content_of screen.old q }
    ensures shown { screen.new.shown ≡ screen.old.shown }
{
    if is_damaged {
        screen.chrome(0, state_row(active, spot).as_slice());
    }
}

/// Writes the address bar, where it may be another.
pub fn write_bar(screen: &mut Screen, tabs: &Tabs, active: Option<Instance>, is_damaged: bool)
    requires lives { IfSome active (λ who. live_at tabs.now who.tab ≡ Some who) }
    requires kept { is_damaged ≡ false → chrome_at screen.old 1 ≡ padded (bar_at tabs.now active) }
    ensures row { chrome_at screen.new 1 ≡ padded (bar_at tabs.now active) }
    ensures rows { (r : ℕ) → r < 3 → r ≢ 1 → chrome_at screen.new r ≡ chrome_at screen.old r }
    ensures contents { (q : Instance) → content_of screen.new q ≡ content_of screen.old q }
    ensures shown { screen.new.shown ≡ screen.old.shown }
{
    if is_damaged {
        screen.chrome(1, address_row(tabs, active).as_slice());
    }
}

/// Writes the entry line, where it may be another.
pub fn write_entry(screen: &mut Screen, entry: &[u8], is_damaged: bool)
    requires kept { is_damaged ≡ false → chrome_at screen.old 2
        ≡ padded (entry_line_text entry.now) }
    ensures row { chrome_at screen.new 2 ≡ padded (entry_line_text entry.now) }
    ensures rows { (r : ℕ) → r < 3 → r ≢ 2 → chrome_at screen.new r ≡ chrome_at screen.old r }
    ensures contents { (q : Instance) → content_of screen.new q ≡ content_of screen.old q }
    ensures shown { screen.new.shown ≡ screen.old.shown }
{
    if is_damaged {
        screen.chrome(2, entry_row(entry).as_slice());
    }
}

// The address bar of the active instance, if there is one.
fn address_row(tabs: &Tabs, active: Option<Instance>) -> Row
    requires { IfSome active (λ who. live_at tabs.now who.tab ≡ Some who) }
    ensures { result.items ≡ bar_at tabs.now active }
{
    match active {
        Some(who) => bar_row(tabs.url(who)),
        None => ArrayVec::new(),
    }
}
