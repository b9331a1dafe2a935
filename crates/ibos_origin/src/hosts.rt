// The host table.
ghost use Rattle.std.specs.Prelude.{◌≡◌, ◌-◌, ◌^◌, ◌<◌, Ok, OnOk, IfOk, IfErr, Some, None};
ghost use Rattle.ibos_origin.specs.Hosts.{address_of};

use crate::fault::{HostFault, HostsFault};
use crate::host_line::{HostLine, read_host_line};
use crate::index::HostIndex;
use ibos_kinds::Local;
use ibos_text::next_line;
use std::alloc::Global;
use std::marker::Model;

// In bytes.
const MAX_TABLE: usize = 4_194_304;

const MAX_HOSTS: usize = 4096;

/// The host table of a run: this machine's addresses, and the hosts that pages may name.
///
/// # Examples
///
/// ```
/// use ibos_origin::{Hosts, HostsFault};
/// use std::process::Abort;
///
/// const TABLE: &[u8] = b"self 192.0.2.10 02:00:00:00:00:01
/// gateway 02:00:00:00:00:fe
/// host a.example 198.51.100.1
/// ";
///
/// fn look_up(rt: &(impl Abort + AllocGlobal)) -> Result<(), HostsFault> {
///     let hosts = Hosts::read(rt.alloc(), TABLE)?;
///     assert_eq!(rt; hosts.address(b"a.example"), Some(0xc633_6401));
///     assert_eq!(rt; hosts.address(b"b.example"), None);
///     Ok(())
/// }
/// ```
#[derive(Debug, Drop)]
pub struct Hosts {
    local: Local,
    hosts: HostIndex,
}

impl Model for Hosts {
    ghost use Rattle.ibos_origin.specs.Hosts.{HostTable};

    ghost Value = { HostTable };

    ghost view = { λ h. record { local = h.local; hosts = h.hosts } };

    ghost use Rattle.ibos_origin.specs.Tables.{IsSound};

    ghost invariant = { λ h. IsSound (record { local = h.local; hosts = h.hosts }) };
}

impl Hosts {
    ghost use Rattle.ibos_origin.specs.Tables.{hosts_in, IsSound};
    ghost use Rattle.ibos_origin.specs.Reads.{Reads};

    /// Reads a host table, or tells its first fault.
    ///
    /// | Line | says |
    /// |---|---|
    /// | `self ADDR MAC` | the addresses of this machine |
    /// | `gateway MAC` | the next hop of every frame |
    /// | `host NAME ADDR` | where a host is, for up to 4,096 names |
    /// | empty, or `#` first | nothing |
    ///
    /// Spaces part the words. ADDR is an IPv4 address as in `192.0.2.1`, MAC six bytes as in
    /// `02:00:5e:10:00:01`, and NAME up to 253 of the bytes `-._0-9a-z`.
    #[tactic(auto, unfolding(crate::specs::Tables::hosts_in))]
    pub fn read(alloc: Global, bytes: &[u8]) -> Result<Hosts, HostsFault>
        ensures { Reads result (hosts_in bytes.now) }
    {
        if bytes.len() > MAX_TABLE {
            return Err(HostsFault::At {
                line: 0,
                fault: HostFault::TooLong,
            });
        }
        let mut table = PartialTable::new(alloc);
        let mut rest = bytes;
        'lines: while let Some((line, after)) = next_line(rest) {
            table.read_line(alloc, line)?;
            rest = after;
        }
        let (local, hosts) = table.finish()?;
        Ok(Hosts { local, hosts })
    }

    /// Does nothing: its clause says what holds of each host table.
    pub fn sound(&self)
        ensures { IsSound self.now }
    {
        let _ = &self.local;
    }

    /// This machine's own addresses and the gateway's MAC address.
    pub fn local(&self) -> Local
        ensures { result ≡ self.now.local }
    {
        self.local
    }

    /// The address of the host of that name. None exactly where no host line has that name.
    pub fn address(&self, host: &[u8]) -> Option<u32>
        ensures { result ≡ address_of self.now.hosts host.now }
    {
        self.hosts.address(host)
    }
}

// What the lines so far have said.
#[derive(Drop)]
struct PartialTable {
    lines: u32,
    own: Option<(u32, u64)>,
    gateway: Option<u64>,
    hosts: HostIndex,
}

impl Model for PartialTable {
    ghost use Rattle.ibos_origin.specs.Tables.{PartialTable};

    ghost Value = { PartialTable };

    ghost view = { λ t.
        record { lines = t.lines; own = t.own; gateway = t.gateway; hosts = t.hosts } };
}

impl PartialTable {
    ghost use Rattle.ibos_origin.specs.Tables.{nothing_read, with_line, with_host_line, at_line};
    ghost use Rattle.ibos_origin.specs.Tables.{table_of};
    ghost use Rattle.ibos_origin.specs.HostLines.{Own, Gateway, Named};
    ghost use Rattle.ibos_origin.specs.Reads.{Refuses, Reads};

    fn new(alloc: Global) -> PartialTable
        ensures { result ≡ nothing_read }
    {
        PartialTable {
            lines: 0,
            own: None,
            gateway: None,
            hosts: HostIndex::new(alloc),
        }
    }

    fn read_line(&mut self, alloc: Global, line: &[u8]) -> Result<(), HostsFault>
        requires { self.old.lines < 2 ^ 32 - 1 }
        ensures ok { OnOk result (with_line (Ok self.old) line.now ≡ Ok self.new) }
        ensures err { IfErr result (λ fault. Refuses fault (with_line (Ok self.old) line.now)) }
    {
        self.lines += 1;
        match read_host_line(line) {
            None => Err(self.fault(HostFault::Form)),
            Some(HostLine::Nothing) => Ok(()),
            Some(HostLine::Own { addr, mac }) => self.set_own(addr, mac),
            Some(HostLine::Gateway { mac }) => self.set_gateway(mac),
            Some(HostLine::Named { name, addr }) => self.add_host(alloc, name, addr),
        }
    }

    fn fault(&self, fault: HostFault) -> HostsFault
        ensures { result ≡ HostsFault.At self.now.lines fault }
    {
        HostsFault::At {
            line: self.lines,
            fault,
        }
    }

    fn set_own(&mut self, addr: u32, mac: u64) -> Result<(), HostsFault>
        ensures ok { OnOk result (with_host_line self.old (Some (Own addr mac)) ≡ Ok self.new) }
        ensures err { IfErr result (λ fault.
            Refuses fault
            (at_line self.old.lines (with_host_line self.old (Some (Own addr mac))))) }
    {
        if self.own.is_some() {
            return Err(self.fault(HostFault::Twice));
        }
        self.own = Some((addr, mac));
        Ok(())
    }

    fn set_gateway(&mut self, mac: u64) -> Result<(), HostsFault>
        ensures ok { OnOk result (with_host_line self.old (Some (Gateway mac)) ≡ Ok self.new) }
        ensures err { IfErr result (λ fault.
            Refuses fault (at_line self.old.lines (with_host_line self.old (Some (Gateway mac))))) }
    {
        if self.gateway.is_some() {
            return Err(self.fault(HostFault::Twice));
        }
        self.gateway = Some(mac);
        Ok(())
    }

    fn add_host(&mut self, alloc: Global, name: &[u8], addr: u32) -> Result<(), HostsFault>
        ensures ok { OnOk result (with_host_line self.old (Some (Named name.now addr))
            ≡ Ok self.new) }
        ensures err { IfErr result (λ fault. Refuses fault
            (at_line self.old.lines (with_host_line self.old (Some (Named name.now addr))))) }
    {
        if self.hosts.address(name).is_some() {
            return Err(self.fault(HostFault::Twice));
        }
        if self.hosts.len() >= MAX_HOSTS {
            return Err(self.fault(HostFault::Many));
        }
        self.hosts.push(alloc, name, addr)?;
        Ok(())
    }

    fn finish(self) -> Result<(Local, HostIndex), HostsFault>
        requires { self.lines < 2 ^ 32 - 1 }
        ensures ok { IfOk result (λ table.
            table_of (Ok self) ≡ Ok (record { local = table.0; hosts = table.1 })) }
        ensures err { IfErr result (λ fault. Refuses fault (table_of (Ok self))) }
    {
        let PartialTable {
            lines,
            own,
            gateway,
            hosts,
        } = self;
        match (own, gateway) {
            (Some((addr, mac)), Some(gateway)) => Ok((Local { addr, mac, gateway }, hosts)),
            _ => Err(HostsFault::At {
                line: lines + 1,
                fault: HostFault::NoSelf,
            }),
        }
    }
}
