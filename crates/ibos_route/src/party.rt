// Who may act, and who is told.
ghost use Rattle.std.specs.Prelude.{◌≡◌};
ghost use Rattle.ibos_kinds.specs.Parties as kinds;
ghost use Rattle.ibos_page.specs.Tabs.{admitted_by};
ghost use Rattle.ibos_route.specs.Parties.{admission_of};

use ibos_kinds::{Act, Item, Party, Rule, actor, addressee};
use ibos_page::Tabs;

/// Whether an act's actor may act: an instance only while it lives, with P1 where it never started
/// and P2 where it has ended. All others always may.
pub fn admit(tabs: &Tabs, act: &Act) -> Result<(), Rule>
    ensures { result ≡ admitted_by (admission_of tabs.now act.now) }
{
    match actor(act) {
        Party::Page(who) => tabs.live(who),
        Party::Driver | Party::Store | Party::User | Party::Wire | Party::Log => Ok(()),
    }
}

/// The party that an item is addressed to.
pub fn told(item: &Item) -> Party
    ensures { result ≡ kinds.addressee item.now }
{
    addressee(item)
}
