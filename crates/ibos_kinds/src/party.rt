// Who acts, and who is told.
ghost use Rattle.std.specs.Prelude.{◌≡◌};
ghost use Rattle.ibos_kinds.specs.Parties as spec;

use crate::{Act, Instance, Item};

/// Who acts, or is told.
#[derive(Clone, Copy, Debug, PartialEq, Eq)]
pub enum Party {
    /// The processes of a page instance.
    Page(Instance),
    /// The network driver.
    Driver,
    /// The storage process.
    Store,
    /// Who uses the tabs and looks at the screen.
    User,
    /// The wire's other end.
    Wire,
    /// Nobody: it is written down only.
    Log,
}

/// The party that acts.
pub fn actor(act: &Act) -> Party
    ensures { result ≡ spec.actor act.now }
{
    match act {
        Act::Start { .. } | Act::Switch { .. } | Act::Close { .. } => Party::User,
        Act::Press { .. } | Act::Click { .. } | Act::Look => Party::User,
        Act::Go { who, .. } => Party::Page(*who),
        Act::Draw { who, .. } => Party::Page(*who),
        Act::CookieSet { who, .. } => Party::Page(*who),
        Act::CookieGet { who, .. } => Party::Page(*who),
        Act::Bind { who, .. } => Party::Page(*who),
        Act::Unbind { who, .. } => Party::Page(*who),
        Act::Done { who } => Party::Page(*who),
        Act::RegRead { .. } | Act::RegWrite { .. } => Party::Driver,
        Act::RxPost { .. } | Act::RxBell => Party::Driver,
        Act::WireIn { .. } | Act::WireOut => Party::Wire,
        Act::Fill { who, .. } => Party::Page(*who),
        Act::Submit { who, .. } => Party::Page(*who),
        Act::TxPost { .. } | Act::TxBell => Party::Driver,
        Act::Put { who, .. } => Party::Page(*who),
        Act::Ask { who, .. } => Party::Page(*who),
        Act::StoreAnswer { .. } | Act::StoreNone { .. } | Act::StoreLose { .. } => Party::Store,
    }
}

/// The party that an item is addressed to.
pub fn addressee(item: &Item) -> Party
    ensures { result ≡ spec.addressee item.now }
{
    match item {
        Item::Opened { who, .. } => Party::Page(*who),
        Item::Moved { who, .. } => Party::Page(*who),
        Item::Ended { who } => Party::Page(*who),
        Item::KeyTo { who, .. } => Party::Page(*who),
        Item::ClickTo { who, .. } => Party::Page(*who),
        Item::Cookies { who, .. } => Party::Page(*who),
        Item::RowIs { .. } => Party::User,
        Item::FlowIs { who, .. } => Party::Page(*who),
        Item::Arrived { who, .. } => Party::Page(*who),
        Item::ValueIs { .. } => Party::Driver,
        Item::LentIs { .. } => Party::Driver,
        Item::VerdictIs { .. } => Party::Wire,
        Item::Dropped { .. } => Party::Log,
        Item::Home { who, .. } => Party::Page(*who),
        Item::SendIs { .. } | Item::Returned { .. } => Party::Driver,
        Item::SentIs { .. } | Item::Idle => Party::Wire,
        Item::Accepted { .. } => Party::Log,
        Item::VersionIs { who, .. } => Party::Page(*who),
        Item::RequestIs { who, .. } => Party::Page(*who),
        Item::Object { who, .. } => Party::Page(*who),
        Item::NoObject { who, .. } => Party::Page(*who),
        Item::StorePut { .. } | Item::StoreAsk { .. } => Party::Store,
    }
}
