// What acts of the pages' half read and change: the host table, the tabs, the jars, the stored
// objects, the screen and the focus.
ghost use Rattle.std.specs.Prelude.{◌≡◌, ◌<◌, ◌+◌, ◌*◌, ℕ, [], None, true, false, length};
ghost use Rattle.std.specs.Prelude.{slice_index, IsOk, OnOk};
ghost use Rattle.ibos_kinds.specs.Limits.{Fits, IsKey};
ghost use Rattle.ibos_kinds.specs.Screens.{padded};
ghost use Rattle.ibos_kinds.specs.declared.names.Instance.{Instance};
ghost use Rattle.ibos_kinds.specs.declared.act.Act.TheVariants.{Start, Switch, Close, Press, Click};
ghost use Rattle.ibos_kinds.specs.declared.act.Act.TheVariants.{Look, Go, Draw, CookieSet};
ghost use Rattle.ibos_kinds.specs.declared.act.Act.TheVariants.{CookieGet};
ghost use Rattle.ibos_page.specs.Tabs.{admission};
ghost use Rattle.ibos_frame.specs.ScreenStates.{chrome_at, content_of, seen_at};
ghost use Rattle.ibos_model.specs.Journal.{is_ok};
ghost use Rattle.ibos_net.specs.NetStanding.{is_net};
ghost use Rattle.ibos_route.specs.Parties.{admission_of};
ghost use Rattle.ibos_kernel.specs.DamagedRows.{is_damaged};
ghost use Rattle.ibos_kernel.specs.Tables.{Makes, takes_none, IsTied, IsComposed, IsBeside};
ghost use Rattle.ibos_kernel.specs.Tables.{IsOpenWhereLive, Serves, chrome_by, is_live};
ghost use Rattle.ibos_kernel.specs.Tables.{requests_after};
ghost use Rattle.ibos_kernel.specs.Tables as tables;
ghost use Rattle.ibos_kernel.specs.Storage.{IsAskedWhereLive, IsFew, asked_by};
ghost use Rattle.ibos_store.specs.Stores.{requests_of};
ghost use Rattle.ibos_model.specs.Stored.{is_about};

use crate::cookies::{get, set};
use crate::damage::{Damage, damage_of, is_quiet, write_bar, write_entry, write_state};
use crate::input::{click, is_accepted, press};
use crate::instances::{ended_in, opened_in};
use crate::screens::look;
use crate::storage::{follow, make_stored};
use crate::tabs::{close, go, start, switch};
use ibos_cookie::Jars;
use ibos_focus::{Focus, Spot};
use ibos_frame::Screen;
use ibos_kinds::{Act, Bytes, Head, Instance, Key, Memory, Outcome};
use ibos_origin::Hosts;
use ibos_page::Tabs;
use ibos_route::admit;
use ibos_store::Store;
use std::alloc::Global;
use std::marker::Model;

/// What acts of the pages' half read and change.
#[derive(Drop)]
pub struct Parts {
    pub hosts: Hosts,
    pub tabs: Tabs,
    pub jars: Jars,
    pub store: Store,
    pub screen: Screen,
    pub focus: Focus,
}

impl Model for Parts {
    ghost use Rattle.ibos_kernel.specs.Tables as spec;

    ghost Value = { spec.Parts };

    ghost view = { λ p. record {
      hosts = p.hosts;
      tabs = p.tabs;
      jars = p.jars;
      store = p.store;
      screen = p.screen;
      focus = p.focus;
    } };
}

impl Parts {
    /// Makes one act, and fills `out`, which is as new, with its outcome.
    pub fn serve(&mut self, alloc: Global, act: &Act, out: &mut Outcome) -> Result<(), Memory>
        requires pages { is_net act.now ≡ false }
        requires fits { Fits act.now }
        requires tied { IsTied self.old.tabs self.old.screen self.old.focus }
        requires asked { IsAskedWhereLive self.old.tabs self.old.store }
        requires few { IsFew self.old.store }
        requires head { out.old.head ≡ Head.Ok }
        requires items { out.old.items ≡ [] }
        ensures serves { OnOk result (Serves self.old act.now out.new self.new) }
        ensures free { takes_none act.now ≡ true → IsOk result }
        ensures hosts { self.new.hosts ≡ self.old.hosts }
    {
        if let Err(rule) = admit(&self.tabs, act) {
            out.head = Head::Denied(rule);
            return Ok(());
        }
        // The screen stays as it is.
        if is_quiet(act) {
            self.make_quiet(alloc, act, out)?;
            return Ok(());
        }
        let damage = damage_of(&self.tabs, &self.focus, act);
        self.make_and_follow(alloc, act, out)?;
        if is_accepted(out) {
            self.redraw(damage);
        }
        Ok(())
    }

    // Makes an act that is admitted. Requests end with their instance, and one that starts has
    // none.
    fn make_and_follow(&mut self, alloc: Global, act: &Act, out: &mut Outcome) -> Result<(), Memory>
        requires pages { is_net act.now ≡ false }
        requires seen { tables.is_quiet act.now ≡ false }
        requires fits { Fits act.now }
        requires admitted { admission_of self.old.tabs act.now ≡ None }
        requires tied { IsTied self.old.tabs self.old.screen self.old.focus }
        requires asked { IsAskedWhereLive self.old.tabs self.old.store }
        requires few { IsFew self.old.store }
        requires head { out.old.head ≡ Head.Ok }
        requires items { out.old.items ≡ [] }
        ensures makes { OnOk result (Makes self.old act.now out.new self.new) }
        ensures requests { OnOk result ((q : Instance) → requests_of self.new.store q
            ≡ requests_after self.old (is_ok out.new.head) act.now (is_live self.new.tabs q) q) }
        ensures free { takes_none act.now ≡ true → IsOk result }
        ensures hosts { self.new.hosts ≡ self.old.hosts }
    {
        self.make(alloc, act, out)?;
        if is_accepted(out) {
            follow(&mut self.store, ended_in(out), opened_in(out))?;
        }
        Ok(())
    }

    fn make(&mut self, alloc: Global, act: &Act, out: &mut Outcome) -> Result<(), Memory>
        requires pages { is_net act.now ≡ false }
        requires seen { tables.is_quiet act.now ≡ false }
        requires fits { Fits act.now }
        requires admitted { admission_of self.old.tabs act.now ≡ None }
        requires tied { IsTied self.old.tabs self.old.screen self.old.focus }
        requires asked { IsAskedWhereLive self.old.tabs self.old.store }
        requires few { IsFew self.old.store }
        requires head { out.old.head ≡ Head.Ok }
        requires items { out.old.items ≡ [] }
        ensures makes { OnOk result (Makes self.old act.now out.new self.new) }
        ensures requests { OnOk result ((q : Instance) → requests_of self.new.store q
            ≡ asked_by (is_about q act.now) (is_ok out.new.head) act.now
            (requests_of self.old.store q)) }
        ensures free { takes_none act.now ≡ true → IsOk result }
        ensures hosts { self.new.hosts ≡ self.old.hosts }
    {
        match act {
            Act::Start { tab, url } => self.start(alloc, *tab, url, out)?,
            Act::Switch { tab } => self.switch(*tab, out),
            Act::Close { tab } => self.close(*tab, out)?,
            Act::Press { key } => self.press(alloc, *key, out)?,
            Act::Click { row, col } => self.click(*row, *col, out)?,
            Act::Look => look(&self.screen, alloc, out)?,
            Act::Go { who, url } => self.go(alloc, *who, url, out)?,
            Act::Draw {
                who,
                row,
                col,
                height,
                width,
                pixels,
            } => {
                if let Err(rule) = self
                    .screen
                    .draw(*who, *row, *col, *height, *width, pixels.as_slice())
                {
                    out.head = Head::Denied(rule);
                }
            }
            // The acts of the net half, and those of which nothing is seen.
            _ => unreachable!(),
        }
        Ok(())
    }

    // Makes an act that is admitted and of which nothing is seen. It starts and ends no instance.
    fn make_quiet(&mut self, alloc: Global, act: &Act, out: &mut Outcome) -> Result<(), Memory>
        requires quiet { tables.is_quiet act.now ≡ true }
        requires admitted { admission_of self.old.tabs act.now ≡ None }
        requires tied { IsTied self.old.tabs self.old.screen self.old.focus }
        requires asked { IsAskedWhereLive self.old.tabs self.old.store }
        requires few { IsFew self.old.store }
        requires head { out.old.head ≡ Head.Ok }
        requires items { out.old.items ≡ [] }
        ensures makes { OnOk result (Makes self.old act.now out.new self.new) }
        ensures requests { OnOk result ((q : Instance) → requests_of self.new.store q
            ≡ asked_by (is_about q act.now) (is_ok out.new.head) act.now
            (requests_of self.old.store q)) }
        ensures screen { self.new.screen ≡ self.old.screen }
        ensures free { takes_none act.now ≡ true → IsOk result }
        ensures hosts { self.new.hosts ≡ self.old.hosts }
    {
        match act {
            Act::CookieSet { who, text, .. } => {
                set(&mut self.jars, self.tabs.origin(*who), text.as_slice(), out)?;
            }
            Act::CookieGet { who, .. } => {
                get(&self.jars, alloc, self.tabs.origin(*who), *who, out)?;
            }
            Act::Put { .. }
            | Act::Ask { .. }
            | Act::StoreAnswer { .. }
            | Act::StoreNone { .. }
            | Act::StoreLose { .. } => {
                make_stored(&self.tabs, &mut self.store, alloc, act, out)?;
            }
            // The other acts.
            _ => unreachable!(),
        }
        Ok(())
    }

    // Writes all rows of the chrome, and shows the content of the active instance.
    pub fn compose(&mut self)
        requires open { IsOpenWhereLive self.old.tabs self.old.screen }
        ensures hosts { self.new.hosts ≡ self.old.hosts }
        ensures tabs { self.new.tabs ≡ self.old.tabs }
        ensures jars { self.new.jars ≡ self.old.jars }
        ensures store { self.new.store ≡ self.old.store }
        ensures focus { self.new.focus ≡ self.old.focus }
        ensures contents { (q : Instance) → content_of self.new.screen q
            ≡ content_of self.old.screen q }
        ensures composed { IsComposed self.new.tabs self.new.screen self.new.focus }
        ensures beside { IsBeside self.new.tabs self.new.screen }
    {
        self.redraw(Damage {
            state: true,
            bar: true,
            entry: true,
        });
    }

    // Writes the damaged rows of the chrome, and shows the content of the active instance.
    fn redraw(&mut self, damage: Damage)
        requires open { IsOpenWhereLive self.old.tabs self.old.screen }
        requires rest { (r : ℕ) → r < 3 → is_damaged damage r ≡ false → chrome_at self.old.screen r
            ≡ padded (chrome_by self.old.tabs self.old.focus r) }
        ensures hosts { self.new.hosts ≡ self.old.hosts }
        ensures tabs { self.new.tabs ≡ self.old.tabs }
        ensures jars { self.new.jars ≡ self.old.jars }
        ensures store { self.new.store ≡ self.old.store }
        ensures focus { self.new.focus ≡ self.old.focus }
        ensures contents { (q : Instance) → content_of self.new.screen q
            ≡ content_of self.old.screen q }
        ensures composed { IsComposed self.new.tabs self.new.screen self.new.focus }
        ensures beside { IsBeside self.new.tabs self.new.screen }
    {
        let active = self.tabs.active();
        self.screen.show(active);
        write_state(&mut self.screen, active, self.focus.spot(), damage.state);
        write_bar(&mut self.screen, &self.tabs, active, damage.bar);
        write_entry(&mut self.screen, self.focus.entry(), damage.entry);
    }

    /// What is seen of the screen.
    pub fn pixels(&self) -> &[u8]
        ensures count { length result.now ≡ 2000 }
        ensures pixels { (r c : ℕ) → r < 25 → c < 80 → slice_index result.now (80 * r + c)
            ≡ seen_at self.now.screen r c }
    {
        self.screen.pixels()
    }

    fn start(
        &mut self,
        alloc: Global,
        tab: u8,
        url: &Bytes,
        out: &mut Outcome,
    ) -> Result<(), Memory>
        requires tab { tab < 64 }
        requires tied { IsTied self.old.tabs self.old.screen self.old.focus }
        requires head { out.old.head ≡ Head.Ok }
        requires items { out.old.items ≡ [] }
        ensures makes { OnOk result (Makes self.old (Start tab url.now) out.new self.new) }
        ensures hosts { self.new.hosts ≡ self.old.hosts }
        ensures store { self.new.store ≡ self.old.store }
    {
        start(
            &mut self.tabs,
            &mut self.screen,
            &self.hosts,
            alloc,
            tab,
            url.as_slice(),
            out,
        )?;
        if is_accepted(out) {
            self.focus.to(Spot::Content);
        }
        Ok(())
    }

    fn switch(&mut self, tab: u8, out: &mut Outcome)
        requires tab { tab < 64 }
        requires tied { IsTied self.old.tabs self.old.screen self.old.focus }
        requires head { out.old.head ≡ Head.Ok }
        requires items { out.old.items ≡ [] }
        ensures makes { Makes self.old (Switch tab) out.new self.new }
        ensures hosts { self.new.hosts ≡ self.old.hosts }
        ensures store { self.new.store ≡ self.old.store }
    {
        switch(&mut self.tabs, tab, out);
        if is_accepted(out) {
            self.focus.to(Spot::Content);
        }
    }

    fn close(&mut self, tab: u8, out: &mut Outcome) -> Result<(), Memory>
        requires tab { tab < 64 }
        requires tied { IsTied self.old.tabs self.old.screen self.old.focus }
        requires head { out.old.head ≡ Head.Ok }
        requires items { out.old.items ≡ [] }
        ensures makes { OnOk result (Makes self.old (Close tab) out.new self.new) }
        ensures hosts { self.new.hosts ≡ self.old.hosts }
        ensures store { self.new.store ≡ self.old.store }
    {
        let was_active = self.tabs.is_active(tab);
        close(&mut self.tabs, &mut self.screen, tab, out)?;
        if is_accepted(out) && was_active {
            self.focus.to(Spot::Entry);
        }
        Ok(())
    }

    fn press(&mut self, alloc: Global, key: Key, out: &mut Outcome) -> Result<(), Memory>
        requires key { IsKey key }
        requires tied { IsTied self.old.tabs self.old.screen self.old.focus }
        requires head { out.old.head ≡ Head.Ok }
        requires items { out.old.items ≡ [] }
        ensures makes { OnOk result (Makes self.old (Press key) out.new self.new) }
        ensures hosts { self.new.hosts ≡ self.old.hosts }
        ensures store { self.new.store ≡ self.old.store }
    {
        press(
            &mut self.tabs,
            &mut self.screen,
            &mut self.focus,
            &self.hosts,
            alloc,
            key,
            out,
        )?;
        Ok(())
    }

    fn click(&mut self, row: u32, col: u32, out: &mut Outcome) -> Result<(), Memory>
        requires tied { IsTied self.old.tabs self.old.screen self.old.focus }
        requires head { out.old.head ≡ Head.Ok }
        requires items { out.old.items ≡ [] }
        ensures makes { OnOk result (Makes self.old (Click row col) out.new self.new) }
        ensures hosts { self.new.hosts ≡ self.old.hosts }
        ensures store { self.new.store ≡ self.old.store }
    {
        let active = self.tabs.active();
        click(&mut self.focus, active, row, col, out)?;
        Ok(())
    }

    fn go(
        &mut self,
        alloc: Global,
        who: Instance,
        url: &Bytes,
        out: &mut Outcome,
    ) -> Result<(), Memory>
        requires admitted { admission self.old.tabs who ≡ None }
        requires tied { IsTied self.old.tabs self.old.screen self.old.focus }
        requires head { out.old.head ≡ Head.Ok }
        requires items { out.old.items ≡ [] }
        ensures makes { OnOk result (Makes self.old (Go who url.now) out.new self.new) }
        ensures hosts { self.new.hosts ≡ self.old.hosts }
        ensures store { self.new.store ≡ self.old.store }
    {
        go(
            &mut self.tabs,
            &mut self.screen,
            &self.hosts,
            alloc,
            who,
            url.as_slice(),
            out,
        )?;
        Ok(())
    }
}
