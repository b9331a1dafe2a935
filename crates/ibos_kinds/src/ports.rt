// Local ports.
ghost use Rattle.std.specs.Prelude.{◌≡◌, ◌<◌, ◌↔◌, None, IfSome};
ghost use Rattle.ibos_kinds.specs.Limits.{IsNamed};
ghost use Rattle.ibos_kinds.specs.Ports.{AreApart, AreOwned, HaveOwners, owner_of, port_of};

use crate::Instance;

// The first local port.
const FIRST: u16 = 32_768;

/// The local port of one of an instance's 16 flows: from 32,768 on, 512 ports for each tab and 16
/// for each of its instances.
pub fn local_port(who: Instance, flow: u8) -> u16
    requires who { IsNamed who }
    requires flow { flow < 16 }
    ensures { result ≡ port_of who flow }
{
    FIRST + 512 * u16::from(who.tab) + 16 * u16::from(who.ord) + u16::from(flow)
}

/// Whose port it is, and of which flow. None exactly where it is below 32,768.
#[tactic(auto, unfolding(crate::specs::Ports::owner_of))]
pub fn instance_of_port(port: u16) -> Option<(Instance, u8)>
    ensures owner { result ≡ owner_of port }
    ensures none { (result ≡ None) ↔ (port < 32768) }
    ensures port { IfSome result (λ owner. port_of owner.0 owner.1 ≡ port) }
    ensures named { IfSome result (λ owner. IsNamed owner.0 × (owner.1 < 16)) }
{
    if port < FIRST {
        return None;
    }
    let place = port - FIRST;
    let who = Instance {
        tab: (place / 512) as u8,
        ord: (place / 16 % 32) as u8,
    };
    Some((who, (port % 16) as u8))
}

/// Each port from 32,768 on is that of one flow of one instance.
pub fn ports_are_apart()
    ensures owned { AreOwned }
    ensures owners { HaveOwners }
    ensures apart { AreApart }
{}
