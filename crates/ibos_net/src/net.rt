//! The net half, and each of its acts.
ghost use Rattle.std.specs.Prelude.{◌≡◌, ◌≢◌, ◌+◌, ◌<◌, ◌≤◌, ◌^◌, ℕ, [], true, false, length};
ghost use Rattle.std.specs.Prelude.{slice_index_or, IfOk, IsOk, OnErr, OnOk};
ghost use Rattle.ibos_kinds.specs.declared.names.Instance.{Instance};
ghost use Rattle.ibos_kinds.specs.declared.names.Endpoint.{Endpoint};
ghost use Rattle.ibos_kinds.specs.declared.outcome.Head.{Head};
ghost use Rattle.ibos_kinds.specs.Limits.{Fits, IsNamed};
ghost use Rattle.ibos_nic.specs.declared.reg.Reg.{Reg};
ghost use Rattle.ibos_nic.specs.Registers.{reset};
ghost use Rattle.ibos_model.specs.Journal.{is_ok};
ghost use Rattle.ibos_model.specs.Logs.{Loses};
ghost use Rattle.ibos_model.specs.Network.{Network, next_frame, no_network};
ghost use Rattle.ibos_model.specs.Tabs.{Life, Unborn, Alive, Gone};
ghost use Rattle.ibos_net.specs.NetStanding.{AreRegisters, IsBare, IsWithLife, NetMakes};
ghost use Rattle.ibos_net.specs.NetStanding.{NetStands, NetState, areas_of, is_net, net_outcome};
ghost use Rattle.ibos_net.specs.NetStanding.{posts_of, takes_none, with_life, with_remote};

use crate::parts::Parts;
use ibos_kinds::{Act, Endpoint, Instance, Local, Memory, Outcome};
use ibos_nic::Nic;
use std::alloc::Global;
use std::marker::Model;

/// The net half. It can't be dropped: it holds buffers.
pub struct Net {
    parts: Parts,
}

impl Model for Net {
    ghost use Rattle.ibos_net.specs.NetStanding.{IsSafe, NetState};

    ghost Value = { NetState };

    ghost view = { λ n. n.parts };

    ghost invariant = { λ n. IsSafe n.parts };
}

impl Net {
    /// The net half of a run that begins, over a device at reset. It writes the station's address.
    pub fn new<N: Nic>(alloc: Global, local: &Local, nic: &mut N) -> Result<Net, Memory>
        requires reset { (r : Reg) → N.regs nic.old r ≡ reset r }
        ensures stands { IfOk result (λ net. (life : Instance → Life) (remote : Instance → Endpoint)
            → ((p : Instance) → life p ≡ Unborn) → NetStands life remote no_network net) }
        ensures registers { OnOk result (AreRegisters local.now no_network (N.regs nic.new)) }
        ensures areas { IfOk result (λ net. areas_of net ≡ 1) }
        ensures posts { IfOk result (λ net. posts_of net ≡ 0) }
        ensures log { N.log nic.new ≡ N.log nic.old }
    {
        let parts = Parts::new(alloc, local, nic)?;
        Ok(Net { parts })
    }

    /// An instance starts: it has buffers that are zero, no flow and no frame.
    pub fn begin(&mut self, who: Instance, remote: Endpoint) -> Result<(), Memory>
        requires named { IsNamed who }
        requires room { areas_of self.old < 2049 }
        requires together { (life : Instance → Life) × (remotes : Instance → Endpoint)
            × (n : Network) × NetStands life remotes n self.old × (life who ≡ Unborn) }
        ensures stands { OnOk result ((life : Instance → Life) (remotes : Instance → Endpoint)
            (n : Network) → NetStands life remotes n self.old → life who ≡ Unborn → IsBare n who
            → NetStands (with_life who Alive life) (with_remote who remote remotes) n self.new) }
        ensures areas { OnOk result (areas_of self.new ≡ areas_of self.old + 1) }
        ensures posts { posts_of self.new ≡ posts_of self.old }
    {
        self.parts.begin(who, remote)?;
        Ok(())
    }

    /// An instance ends. Its buffers go back to the pool.
    pub fn end(&mut self, who: Instance)
        requires together { (life : Instance → Life) × (remotes : Instance → Endpoint)
            × (n : Network) × NetStands life remotes n self.old × (life who ≡ Alive) }
        ensures stands { (life : Instance → Life) (remotes : Instance → Endpoint)
            (n : Network) → NetStands life remotes n self.old
            → NetStands (with_life who Gone life) remotes n self.new }
        ensures areas { areas_of self.new ≡ areas_of self.old }
        ensures posts { posts_of self.new ≡ posts_of self.old }
    {
        self.parts.end(who);
    }

    /// Makes an act of the net half. After want of memory the log is as it was, or has the one
    /// entry more that the act brings.
    pub fn serve<N: Nic>(
        &mut self,
        alloc: Global,
        local: &Local,
        act: &Act,
        nic: &mut N,
        out: &mut Outcome,
    ) -> Result<(), Memory>
        requires net { is_net act.now ≡ true }
        requires fits { Fits act.now }
        requires posts { posts_of self.old < 2 ^ 31 }
        requires together { (life : Instance → Life) × (remote : Instance → Endpoint)
            × (n : Network) × NetStands life remote n self.old
            × AreRegisters local.now n (N.regs nic.old) × IsWithLife life act.now }
        requires head { out.old.head ≡ Head.Ok }
        requires items { out.old.items ≡ [] }
        ensures makes { OnOk result ((life : Instance → Life) (remote : Instance → Endpoint)
            (n : Network) → NetStands life remote n self.old
            → AreRegisters local.now n (N.regs nic.old) → IsWithLife life act.now
            → NetMakes local.now life remote n act.now out.new self.new (N.regs nic.new)
            (N.log nic.old) (N.log nic.new)) }
        ensures loses { OnErr result ((life : Instance → Life) (remote : Instance → Endpoint)
            (n : Network) → NetStands life remote n self.old
            → AreRegisters local.now n (N.regs nic.old) → IsWithLife life act.now
            → Loses (net_outcome local.now life remote n act.now) act.now (next_frame n)
            (N.log nic.old) (N.log nic.new)) }
        ensures denied { OnOk result (is_ok out.new.head ≡ false → self.new ≡ self.old) }
        ensures areas { areas_of self.new ≡ areas_of self.old }
        ensures posts { OnOk result (posts_of self.new ≤ posts_of self.old + 1) }
        ensures free { takes_none act.now ≡ true → IsOk result }
    {
        match act {
            Act::Bind { who, proto } => self.parts.bind(*who, *proto, out)?,
            Act::Unbind { who, flow } => self.parts.unbind(*who, *flow, out),
            Act::Done { who } => self.parts.done(*who, out),
            Act::RegRead { offset } => self.parts.read(*offset, nic, out)?,
            Act::RegWrite { offset, value } => self.parts.write(*offset, *value, nic, out),
            Act::RxPost { slot, handle } => self.parts.post(*slot, *handle, out),
            Act::RxBell => self.parts.bell(alloc, local, out)?,
            Act::WireIn { frame } => self.parts.arrive(alloc, frame.as_slice(), nic, out)?,
            Act::Fill {
                who,
                buffer,
                place,
                bytes,
            } => self
                .parts
                .fill(*who, *buffer, *place, bytes.as_slice(), out),
            Act::Submit { who, buffer, len } => self.parts.submit(*who, *buffer, *len, local, out)?,
            Act::TxPost { slot, send } => self.parts.post_send(*slot, *send, out),
            Act::TxBell => self.parts.bell_sends(out)?,
            Act::WireOut => self.parts.transmit(alloc, nic, out)?,
            // The acts of the pages.
            _ => unreachable!(),
        }
        Ok(())
    }

    /// How many frames of an instance are unread.
    pub fn unread(&self, who: Instance) -> u8
        requires together { (life : Instance → Life) × (remotes : Instance → Endpoint)
            × (n : Network) × NetStands life remotes n self.now × (life who ≡ Alive) }
        ensures { (life : Instance → Life) (remotes : Instance → Endpoint) (n : Network)
            → NetStands life remotes n self.now → life who ≡ Alive
            → result ≡ length (n.unread who) }
    {
        self.parts.unread(who)
    }

    /// An unread frame of an instance, counted from 0 at the oldest.
    pub fn inbox(&self, who: Instance, k: u8) -> &[u8]
        requires together { (life : Instance → Life) × (remotes : Instance → Endpoint)
            × (n : Network) × NetStands life remotes n self.now × (life who ≡ Alive)
            × (k < length (n.unread who)) }
        ensures { (life : Instance → Life) (remotes : Instance → Endpoint) (n : Network)
            → NetStands life remotes n self.now → life who ≡ Alive
            → result.now ≡ slice_index_or (n.unread who) k [] }
    {
        self.parts.frame(who, k)
    }

    /// Gives all buffers back. No call of the device follows.
    pub fn close(self) {
        let Net { parts } = self;
        parts.close();
    }
}

/// The relation asks of each instance only what its life is, and where its origin is if it lives.
pub fn lives_may_change()
    ensures { (life life' : Instance → Life) (remote remote' : Instance → Endpoint) (n : Network)
        (t : NetState) → ((p : Instance) → life' p ≡ life p)
        → ((p : Instance) → life p ≡ Alive → remote' p ≡ remote p)
        → NetStands life remote n t → NetStands life' remote' n t }
{}
