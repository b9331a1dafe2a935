// The pages of live instances, and the tabs that they are in.
ghost use Rattle.std.specs.Prelude.{◌≡◌, ◌≢◌, ◌<◌, ℕ, ◌+◌, length, Some, None, IfOk, IfSome};
ghost use Rattle.std.specs.Prelude.{IfNone, option_copied, bytes_eq, is_some, slice_set};
ghost use Rattle.std.specs.Prelude.{slice_index_or};
ghost use Rattle.slab.specs.Slab.{ContainsKey, HasRoomFor, Updates, get, slab_len};
ghost use Rattle.ibos_page.specs.Tabs.{empty_seat, opened, moved, closed, origin_with};
ghost use Rattle.ibos_page.specs.Places.{held};

use ibos_kinds::Memory;
use ibos_origin::Page;
use slab::Slab;
use std::alloc::Global;
use std::marker::Model;

const TABS: usize = 64;

// How many instances a tab has had, and the key of the live one's page.
#[derive(Clone, Copy, Drop)]
struct Place {
    count: u8,
    key: Option<usize>,
}

/// The pages of live instances, found by their tab. No call but `new` takes memory.
#[derive(Drop)]
pub(crate) struct Pages {
    places: Vec<Place>,
    // Under keys that only `places` has.
    pages: Slab<Page>,
}

impl Model for Pages {
    ghost use Rattle.std.specs.Prelude.{List};
    ghost use Rattle.ibos_page.specs.Seats.{Seat};
    ghost use Rattle.ibos_page.specs.Places.{seats_of, IsKept};

    ghost Value = { List Seat };

    ghost view = { λ p. seats_of p.pages p.places.items };

    ghost invariant = { λ p. IsKept p.places.items p.pages };
}

impl Pages {
    /// No tab has had an instance. All the room is reserved here.
    pub(crate) fn new(alloc: Global) -> Result<Pages, Memory>
        ensures empty { IfOk result (λ seats. (tab : ℕ) → slice_index_or seats tab empty_seat
            ≡ empty_seat) }
        ensures room { IfOk result (λ seats. length seats ≡ 64) }
    {
        let mut places = Vec::with_capacity(alloc, TABS)?;
        'places: for _tab in 0..TABS {
            places.push(Place {
                count: 0,
                key: None,
            })?;
        }
        Ok(Pages {
            places,
            pages: Slab::with_capacity(alloc, TABS)?,
        })
    }

    /// How many tabs there are.
    pub(crate) fn len(&self) -> usize
        ensures { result ≡ length self.now }
    {
        self.places.len()
    }

    /// How many instances a tab has had.
    pub(crate) fn count(&self, tab: u8) -> u8
        requires { tab < 64 }
        ensures { result ≡ (slice_index_or self.now tab empty_seat).count }
    {
        self.places[tab as usize].count
    }

    /// Whether a tab has a live instance.
    pub(crate) fn is_live(&self, tab: u8) -> bool
        requires { tab < 64 }
        ensures { result ≡ is_some (slice_index_or self.now tab empty_seat).page }
    {
        self.places[tab as usize].key.is_some()
    }

    /// The page that a tab's live instance shows.
    pub(crate) fn page(&self, tab: u8) -> Option<&Page>
        requires { tab < 64 }
        ensures { option_copied result ≡ (slice_index_or self.now tab empty_seat).page }
    {
        let key = self.places[tab as usize].key?;
        self.pages.get(key)
    }

    /// Whether a page is of the origin of what a tab shows.
    pub(crate) fn is_of_origin(&self, tab: u8, page: &Page) -> bool
        requires { tab < 64 }
        ensures { result
            ≡ bytes_eq page.now.origin (origin_with (slice_index_or self.now tab empty_seat).page) }
    {
        match self.page(tab) {
            Some(shown) => page.origin() == shown.origin(),
            None => page.origin().is_empty(),
        }
    }

    /// A tab has one instance more, which shows the page.
    pub(crate) fn open(&mut self, tab: u8, page: Page)
        requires tab { tab < 64 }
        requires count { (slice_index_or self.old tab empty_seat).count < 32 }
        ensures { self.new
            ≡ slice_set self.old tab (opened page (slice_index_or self.old tab empty_seat)) }
    {
        self.put(tab, self.count(tab) + 1, page);
    }

    /// A tab's instance shows the page.
    pub(crate) fn show(&mut self, tab: u8, page: Page)
        requires { tab < 64 }
        ensures { self.new
            ≡ slice_set self.old tab (moved page (slice_index_or self.old tab empty_seat)) }
    {
        self.put(tab, self.count(tab), page);
    }

    /// A tab has no live instance.
    pub(crate) fn end(&mut self, tab: u8)
        requires tab { tab < 64 }
        requires live { (slice_index_or self.old tab empty_seat).page ≢ None }
        ensures { self.new
            ≡ slice_set self.old tab (closed (slice_index_or self.old tab empty_seat)) }
    {
        let Place { count, key } = self.places[tab as usize];
        let Some(key) = key else {
            unreachable!();
        };
        self.pages.remove(key);
        self.places[tab as usize] = Place { count, key: None };
    }

    // Gives a tab this count and page, in place of what it had.
    fn put(&mut self, tab: u8, count: u8, page: Page)
        requires { tab < 64 }
        ensures { self.new ≡ slice_set self.old tab (record { count = count; page = Some page }) }
    {
        let key = store(&mut self.pages, self.places[tab as usize].key, page);
        self.places[tab as usize] = Place {
            count,
            key: Some(key),
        };
    }
}

// Puts a page under the key that there is, or else under a fresh one.
#[tactic(auto, using(crate::proofs::Places::written_len, crate::proofs::Places::written_updates))]
fn store(pages: &mut Slab<Page>, own: Option<usize>, page: Page) -> usize
    requires own { IfSome own (ContainsKey pages.old) }
    requires room { IfNone own (HasRoomFor pages.old 1) }
    ensures updates { Updates pages.old pages.new result (Some page) }
    ensures same { IfSome own (λ key. result ≡ key) }
    ensures fresh { IfNone own (get pages.old result ≡ None) }
    ensures len { slab_len pages.new + held own ≡ slab_len pages.old + 1 }
    ensures capacity { pages.new.capacity ≡ pages.old.capacity }
{
    let Some(key) = own else {
        return pages.insert_reserved(page);
    };
    pages[key] = page;
    key
}
