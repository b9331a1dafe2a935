// Frames on their way out: processes write them and submit them, the driver posts them, and they go
// out on the wire.
ghost use Rattle.std.specs.Prelude.{◌≡◌, ◌≢◌, ◌<◌, ◌≤◌, ◌^◌, ◌+◌, [], List, true, false, OnErr};
ghost use Rattle.std.specs.Prelude.{OnOk};
ghost use Rattle.ibos_kinds.specs.declared.names.Local.{Local as Addresses};
ghost use Rattle.ibos_kinds.specs.declared.act.Act.TheVariants.{Fill, Submit, TxBell, TxPost};
ghost use Rattle.ibos_kinds.specs.declared.act.Act.TheVariants.{WireOut};
ghost use Rattle.ibos_nic.specs.declared.log.LogEntry.{LogEntry};
ghost use Rattle.ibos_nic.specs.Registers.{Registers};
ghost use Rattle.ibos_mediate.specs.Relation.{IsAtDevice};
ghost use Rattle.ibos_send.specs.Sends.{count_of, homes_by};
ghost use Rattle.ibos_model.specs.Journal.{is_ok};
ghost use Rattle.ibos_net.specs.NetStanding.{IsSafe, Leaves, Serves, areas_of, posts_of};

use crate::parts::Parts;
use ibos_kinds::{Head, Instance, Item, Local, Memory, Outcome};
use ibos_mediate::{
    frames_are_counted, other_changes_keep_the_frames, other_changes_keep_the_relation,
    transmissions_end_a_frame, transmissions_keep_the_relation,
};
use ibos_nic::Nic;
use ibos_recv::{hands_are_parted, inboxes_keep_their_frames};
use ibos_send::SendFault;
use std::alloc::Global;

impl Parts {
    /// An instance writes into a buffer, from a place on.
    pub(crate) fn fill(
        &mut self,
        who: Instance,
        buffer: u8,
        place: u32,
        bytes: &[u8],
        out: &mut Outcome,
    )
        requires safe { IsSafe self.old }
        requires open { homes_by self.old.sends who ≢ None }
        requires buffer { buffer < 4 }
        requires head { out.old.head ≡ Head.Ok }
        requires items { out.old.items ≡ [] }
        ensures serves { (local : Addresses) (regs : Registers) (log : List LogEntry)
            → Serves local (Fill who buffer place bytes.now) out.new self.old self.new regs regs log
            log }
        ensures safe { IsSafe self.new }
        ensures denied { is_ok out.new.head ≡ false → self.new ≡ self.old }
        ensures areas { areas_of self.new ≡ areas_of self.old }
        ensures posts { posts_of self.new ≡ posts_of self.old }
    {
        // called for what their clauses say
        hands_are_parted();
        inboxes_keep_their_frames();
        other_changes_keep_the_frames();
        other_changes_keep_the_relation();
        match self.sends.fill(who, buffer, place, bytes, &mut self.mem) {
            Ok(()) => {}
            Err(rule) => {
                out.head = Head::Denied(rule);
                return;
            }
        }
    }

    /// An instance wants the first bytes of a buffer sent.
    pub(crate) fn submit(
        &mut self,
        who: Instance,
        buffer: u8,
        len: u32,
        local: &Local,
        out: &mut Outcome,
    ) -> Result<(), Memory>
        requires safe { IsSafe self.old }
        requires open { homes_by self.old.sends who ≢ None }
        requires buffer { buffer < 4 }
        requires few { count_of self.old.sends < 2 ^ 31 }
        requires head { out.old.head ≡ Head.Ok }
        requires items { out.old.items ≡ [] }
        ensures serves { OnOk result ((regs : Registers) (log : List LogEntry)
            → Serves local.now (Submit who buffer len) out.new self.old self.new regs regs log
            log) }
        ensures safe { IsSafe self.new }
        ensures denied { OnOk result (is_ok out.new.head ≡ false → self.new ≡ self.old) }
        ensures areas { areas_of self.new ≡ areas_of self.old }
        ensures posts { posts_of self.new ≤ posts_of self.old + 1 }
    {
        // called for what its clauses say
        hands_are_parted();
        match self
            .sends
            .submit(who, buffer, len, local, &self.flows, &self.mem, out)
        {
            Ok(()) => Ok(()),
            Err(SendFault::Denied(rule)) => {
                out.head = Head::Denied(rule);
                Ok(())
            }
            Err(SendFault::Memory) => Err(Memory),
        }
    }

    /// The driver posts an accepted send.
    pub(crate) fn post_send(&mut self, slot: u32, send: u32, out: &mut Outcome)
        requires safe { IsSafe self.old }
        requires head { out.old.head ≡ Head.Ok }
        requires items { out.old.items ≡ [] }
        ensures serves { (local : Addresses) (regs : Registers) (log : List LogEntry)
            → Serves local (TxPost slot send) out.new self.old self.new regs regs log log }
        ensures safe { IsSafe self.new }
        ensures denied { is_ok out.new.head ≡ false → self.new ≡ self.old }
        ensures areas { areas_of self.new ≡ areas_of self.old }
        ensures posts { posts_of self.new ≤ posts_of self.old + 1 }
    {
        // called for what their clauses say
        hands_are_parted();
        inboxes_keep_their_frames();
        let _areas = self.pool.areas();
        match self.sends.post(slot, send, &mut self.med, &mut self.mem) {
            Ok(()) => {}
            Err(rule) => {
                out.head = Head::Denied(rule);
                return;
            }
        }
    }

    /// The driver asks for the buffers of frames that were sent.
    pub(crate) fn bell_sends(&mut self, out: &mut Outcome) -> Result<(), Memory>
        requires safe { IsSafe self.old }
        requires head { out.old.head ≡ Head.Ok }
        requires items { out.old.items ≡ [] }
        ensures serves { OnOk result ((local : Addresses) (regs : Registers) (log : List LogEntry)
            → Serves local TxBell out.new self.old self.new regs regs log log) }
        ensures safe { IsSafe self.new }
        ensures accepted { is_ok out.new.head ≡ true }
        ensures areas { areas_of self.new ≡ areas_of self.old }
        ensures posts { OnOk result (posts_of self.new ≡ posts_of self.old) }
    {
        // called for what their clauses say
        frames_are_counted();
        hands_are_parted();
        inboxes_keep_their_frames();
        self.sends
            .serve(&mut self.med, &mut self.pool, &mut self.mem, out)?;
        Ok(())
    }

    /// The wire has room for a frame.
    pub(crate) fn transmit<N: Nic>(
        &mut self,
        alloc: Global,
        nic: &mut N,
        out: &mut Outcome,
    ) -> Result<(), Memory>
        requires safe { IsSafe self.old }
        requires device { IsAtDevice self.old.med self.old.mem (N.regs nic.old) }
        requires head { out.old.head ≡ Head.Ok }
        requires items { out.old.items ≡ [] }
        ensures serves { OnOk result ((local : Addresses) → Serves local WireOut out.new
            self.old self.new (N.regs nic.old) (N.regs nic.new) (N.log nic.old) (N.log nic.new)) }
        ensures leaves { OnErr result ((local : Addresses) → Leaves local WireOut
            self.old (N.regs nic.old) (N.log nic.old) (N.log nic.new)) }
        ensures safe { IsSafe self.new }
        ensures accepted { is_ok out.new.head ≡ true }
        ensures areas { areas_of self.new ≡ areas_of self.old }
        ensures posts { posts_of self.new ≡ posts_of self.old }
    {
        // called for what their clauses say
        frames_are_counted();
        transmissions_keep_the_relation();
        transmissions_end_a_frame();
        hands_are_parted();
        inboxes_keep_their_frames();
        if nic.transmit(alloc, &mut self.mem)? {
            let send = self.sends.sent();
            out.push(Item::SentIs { send })?;
        } else {
            out.push(Item::Idle)?;
        }
        Ok(())
    }
}
