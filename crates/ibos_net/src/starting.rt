// The net half of a run that begins.
ghost use Rattle.std.specs.Prelude.{◌≡◌, ◌≢◌, ◌<◌, None, length, IfOk, OnOk};
ghost use Rattle.ibos_kinds.specs.declared.names.Endpoint.{Endpoint as Far};
ghost use Rattle.ibos_kinds.specs.declared.names.Instance.{Instance as Page};
ghost use Rattle.ibos_nic.specs.declared.reg.Reg.{Reg as Register};
ghost use Rattle.ibos_nic.specs.Registers.{reset};
ghost use Rattle.ibos_model.specs.Network.{no_network};
ghost use Rattle.ibos_model.specs.Rings.{address_high, address_low};
ghost use Rattle.ibos_model.specs.Tabs.{Life, Unborn};
ghost use Rattle.ibos_net.specs.NetStanding.{AreRegisters, IsSafe, NetStands, areas_of, posts_of};

use crate::parts::Parts;
use ibos_flow::FlowTable;
use ibos_kinds::{Local, Memory};
use ibos_mediate::{Mediator, bells_end, frames_are_counted, relation_begins};
use ibos_nic::{Nic, Reg};
use ibos_pool::{Mem, Pool};
use ibos_recv::Inboxes;
use ibos_send::Sends;
use std::alloc::Global;

// The first four bytes of a MAC address, the first lowest.
fn address_low(mac: u64) -> u32
    ensures { result ≡ address_low mac }
{
    let [_, _, b0, b1, b2, b3, _, _] = mac.to_be_bytes();
    u32::from(b0) + 0x100 * u32::from(b1) + 0x1_0000 * u32::from(b2) + 0x100_0000 * u32::from(b3)
}

// The last two bytes likewise, and the bit that makes the address valid.
fn address_high(mac: u64) -> u32
    ensures { result ≡ address_high mac }
{
    let [_, _, _, _, _, _, b4, b5] = mac.to_be_bytes();
    u32::from(b4) + 0x100 * u32::from(b5) + 0x8000_0000
}

impl Parts {
    fn empty(alloc: Global) -> Result<Parts, Memory>
        ensures stands { IfOk result (λ parts. (life : Page → Life) (remote : Page → Far)
            → ((p : Page) → life p ≡ Unborn) → NetStands life remote no_network parts) }
        ensures safe { IfOk result IsSafe }
        ensures areas { IfOk result (λ parts. areas_of parts ≡ 1) }
        ensures posts { IfOk result (λ parts. posts_of parts ≡ 0) }
    {
        // called for what their clauses say
        relation_begins();
        frames_are_counted();
        bells_end();
        let mem = Mem::new(alloc)?;
        let mut pool = Pool::new(alloc)?;
        let flows = FlowTable::new(alloc)?;
        let inboxes = Inboxes::new(alloc)?;
        let sends = match Sends::new(alloc) {
            Ok(sends) => sends,
            Err(Memory) => {
                inboxes.close(&mut pool);
                return Err(Memory);
            }
        };
        match Mediator::new(alloc) {
            Ok(med) => Ok(Parts {
                med,
                mem,
                pool,
                flows,
                inboxes,
                sends,
            }),
            Err(Memory) => {
                inboxes.close(&mut pool);
                sends.close(&mut pool);
                Err(Memory)
            }
        }
    }

    fn set_address<N: Nic>(&self, local: &Local, nic: &mut N)
        requires reset { (r : Register) → N.regs nic.old r ≡ reset r }
        ensures registers { AreRegisters local.now no_network (N.regs nic.new) }
        ensures log { N.log nic.new ≡ N.log nic.old }
    {
        nic.write(Reg::Ral0, address_low(local.mac), &self.mem);
        nic.write(Reg::Rah0, address_high(local.mac), &self.mem);
    }

    /// What no act has changed, over a device at reset. It writes the station's address.
    pub(crate) fn new<N: Nic>(alloc: Global, local: &Local, nic: &mut N) -> Result<Parts, Memory>
        requires reset { (r : Register) → N.regs nic.old r ≡ reset r }
        ensures stands { IfOk result (λ parts. (life : Page → Life) (remote : Page → Far)
            → ((p : Page) → life p ≡ Unborn) → NetStands life remote no_network parts) }
        ensures safe { IfOk result IsSafe }
        ensures registers { OnOk result (AreRegisters local.now no_network (N.regs nic.new)) }
        ensures areas { IfOk result (λ parts. areas_of parts ≡ 1) }
        ensures posts { IfOk result (λ parts. posts_of parts ≡ 0) }
        ensures log { N.log nic.new ≡ N.log nic.old }
    {
        let parts = Parts::empty(alloc)?;
        parts.set_address(local, nic);
        Ok(parts)
    }
}
