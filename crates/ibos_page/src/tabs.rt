// Tabs and their instances.
ghost use Rattle.std.specs.Prelude.{◌≡◌, ◌<◌, ◌+◌, ◌↔◌, ℕ, length, Some, None, Ok, Err, IfOk, OnOk};
ghost use Rattle.std.specs.Prelude.{OnErr, IsOk, IsTrue, IsNone, is_some, ok_or, IfSome};
ghost use Rattle.std.specs.Prelude.{if◌then◌else◌};
ghost use Rattle.ibos_page.specs.Tabs.{origin_with};
ghost use Rattle.ibos_page.specs.Tabs as spec;

use crate::pages::Pages;
use ibos_kinds::{Endpoint, Instance, Memory, Rule};
use ibos_origin::Page;
use std::alloc::Global;
use std::marker::Model;

const MAX_INSTANCES: u8 = 32;

/// What became of an instance that went to a page: it stays, within its origin, or it ended and the
/// tab's next one started.
#[derive(Clone, Copy, Debug, PartialEq, Eq)]
pub enum Moved {
    Same,
    New(Instance),
}

/// The 64 tabs, their instances, and which tab is active. A tab has one live instance at a time,
/// the newest, and at most 32 in all. No call but `new` takes memory.
///
/// # Examples
///
/// ```
/// use ibos_kinds::{Instance, Rule};
/// use ibos_origin::Page;
/// use ibos_page::Tabs;
///
/// fn open(tabs: &mut Tabs, page: Page) -> Result<Instance, Rule> {
///     tabs.may_start(5)?;
///     Ok(tabs.start(5, page))
/// }
/// ```
#[derive(Drop)]
pub struct Tabs {
    pages: Pages,
    active: Option<u8>,
}

impl Model for Tabs {
    ghost use Rattle.ibos_page.specs.Tabs.{TabTable, IsTable};

    ghost Value = { TabTable };

    ghost view = { λ t. record { seats = t.pages; active = t.active } };

    ghost invariant = { λ t. IsTable t.pages t.active };
}

impl Tabs {
    ghost use Rattle.ibos_kinds.specs.declared.names.Instance.{Instance};
    ghost use Rattle.ibos_page.specs.Tabs.{empty_seat, seat_at, live_at, live_in, active_in};
    ghost use Rattle.ibos_page.specs.Tabs.{next_at, start_in, opened, moved, closed, with_seat};
    ghost use Rattle.ibos_page.specs.Tabs.{without, admission, admitted_by, go_in};

    /// No tab has had an instance, and none is active. All the room is reserved here.
    pub fn new(alloc: Global) -> Result<Tabs, Memory>
        ensures seats { IfOk result (λ tabs. (tab : ℕ) → seat_at tabs tab ≡ empty_seat) }
        ensures room { IfOk result (λ tabs. length tabs.seats ≡ 64) }
        ensures active { IfOk result (λ tabs. tabs.active ≡ None) }
    {
        Ok(Tabs {
            pages: Pages::new(alloc)?,
            active: None,
        })
    }

    /// The instance that would start in a tab, or why none would: U1 where one lives, U3 where
    /// there have been 32.
    pub fn may_start(&self, tab: u8) -> Result<Instance, Rule>
        requires { tab < 64 }
        ensures { result ≡ start_in self.now tab }
    {
        if self.pages.is_live(tab) {
            return Err(Rule::U1);
        }
        let count = self.pages.count(tab);
        if count >= MAX_INSTANCES {
            return Err(Rule::U3);
        }
        Ok(Instance { tab, ord: count })
    }

    /// Starts the tab's next instance with a page, and makes the tab active.
    pub fn start(&mut self, tab: u8, page: Page) -> Instance
        requires tab { tab < 64 }
        requires may { IsOk (start_in self.old tab) }
        ensures who { result ≡ next_at self.old tab }
        ensures table { self.new
            ≡ record (with_seat self.old tab (opened page (seat_at self.old tab)))
            { active = Some tab } }
    {
        let who = Instance {
            tab,
            ord: self.pages.count(tab),
        };
        self.pages.open(tab, page);
        self.active = Some(tab);
        who
    }

    /// Makes a tab active. U2 exactly where it has no live instance.
    pub fn switch(&mut self, tab: u8) -> Result<(), Rule>
        requires { tab < 64 }
        ensures answer { result ≡ (if is_some (seat_at self.old tab).page then Ok tt
            else Err Rule.U2) }
        ensures ok { OnOk result (self.new ≡ record self.old { active = Some tab }) }
        ensures err { OnErr result (self.new ≡ self.old) }
    {
        if !self.pages.is_live(tab) {
            return Err(Rule::U2);
        }
        self.active = Some(tab);
        Ok(())
    }

    /// Ends the tab's live instance, and answers it. U2 exactly where there is none. Closing the
    /// active tab leaves none active.
    pub fn close(&mut self, tab: u8) -> Result<Instance, Rule>
        requires { tab < 64 }
        ensures answer { result ≡ ok_or (live_at self.old tab) Rule.U2 }
        ensures ok { OnOk result (self.new
            ≡ record (with_seat self.old tab (closed (seat_at self.old tab)))
            { active = without tab self.old.active }) }
        ensures err { OnErr result (self.new ≡ self.old) }
    {
        if !self.pages.is_live(tab) {
            return Err(Rule::U2);
        }
        let who = Instance {
            tab,
            ord: self.pages.count(tab) - 1,
        };
        self.pages.end(tab);
        self.active = without(self.active, tab);
        Ok(who)
    }

    /// A live instance goes to a page. Within its origin it stays and shows the page. To another
    /// origin it ends, and the tab's next one starts there; U3 exactly where its ordinal is 31. The
    /// active tab stays the same. A refused page is dropped.
    pub fn go(&mut self, who: Instance, page: Page) -> Result<Moved, Rule>
        requires { live_at self.old who.tab ≡ Some who }
        ensures answer { result ≡ go_in who (origin_with (seat_at self.old who.tab).page) page }
        ensures stays { result ≡ Ok Moved.Same → self.new
            ≡ with_seat self.old who.tab (moved page (seat_at self.old who.tab)) }
        ensures leaves { (next : Instance) → result ≡ Ok (Moved.New next) → self.new
            ≡ with_seat self.old who.tab (opened page (seat_at self.old who.tab)) }
        ensures err { OnErr result (self.new ≡ self.old) }
    {
        if self.pages.is_of_origin(who.tab, &page) {
            self.pages.show(who.tab, page);
            return Ok(Moved::Same);
        }
        if who.ord >= MAX_INSTANCES - 1 {
            return Err(Rule::U3);
        }
        let next = Instance {
            tab: who.tab,
            ord: who.ord + 1,
        };
        self.pages.open(who.tab, page);
        Ok(Moved::New(next))
    }

    /// Whether an instance lives: P1 where it never started, P2 where it has ended.
    pub fn live(&self, who: Instance) -> Result<(), Rule>
        ensures { result ≡ admitted_by (admission self.now who) }
    {
        if who.tab as usize >= self.pages.len() {
            return Err(Rule::P1);
        }
        let count = self.pages.count(who.tab);
        if self.pages.is_live(who.tab) && who.ord as u16 + 1 == count as u16 {
            return Ok(());
        }
        if who.ord < count {
            Err(Rule::P2)
        } else {
            Err(Rule::P1)
        }
    }

    /// The live instance of the active tab. None exactly where no tab is active.
    pub fn active(&self) -> Option<Instance>
        ensures who { result ≡ active_in self.now }
        ensures none { IsNone result ↔ (self.now.active ≡ None) }
        ensures lives { IfSome result (λ who. live_at self.now who.tab ≡ Some who) }

        // There are 64 tabs, and a live instance is the newest of its tab.
        ensures room { length self.now.seats ≡ 64 }
        ensures newest { (tab : ℕ) (who : Instance) → live_at self.now tab ≡ Some who → who.ord + 1
            ≡ (seat_at self.now tab).count }
    {
        let tab = self.active?;
        Some(Instance {
            tab,
            ord: self.pages.count(tab) - 1,
        })
    }

    /// Whether a tab is the active one.
    pub fn is_active(&self, tab: u8) -> bool
        ensures { IsTrue result ↔ (self.now.active ≡ Some tab) }
    {
        self.active == Some(tab)
    }

    /// The URL that a live instance shows.
    pub fn url(&self, who: Instance) -> &[u8]
        requires { live_at self.now who.tab ≡ Some who }
        ensures { IfSome (seat_at self.now who.tab).page (λ page. result.now ≡ page.url) }
    {
        match self.pages.page(who.tab) {
            Some(page) => page.url(),
            None => unreachable!(),
        }
    }

    /// The origin of a live instance.
    pub fn origin(&self, who: Instance) -> &[u8]
        requires { live_at self.now who.tab ≡ Some who }
        ensures { IfSome (seat_at self.now who.tab).page (λ page. result.now ≡ page.origin) }
    {
        match self.pages.page(who.tab) {
            Some(page) => page.origin(),
            None => unreachable!(),
        }
    }

    /// Where the frames of a live instance go: its host's address, and its URL's port.
    pub fn endpoint(&self, who: Instance) -> Endpoint
        requires { live_at self.now who.tab ≡ Some who }
        ensures { IfSome (seat_at self.now who.tab).page
            (λ page. (result.addr ≡ page.addr) × (result.port ≡ page.port)) }
    {
        match self.pages.page(who.tab) {
            Some(page) => page.endpoint(),
            None => unreachable!(),
        }
    }
}

// The active tab after a tab is closed.
fn without(active: Option<u8>, tab: u8) -> Option<u8>
    ensures { result ≡ spec.without tab active }
{
    match active {
        Some(active) if active == tab => None,
        other => other,
    }
}
