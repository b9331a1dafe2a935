// Frames on their way in: buffers are posted for them, and they come from the wire.
ghost use Rattle.std.specs.Prelude.{◌≡◌, ◌≢◌, ◌<◌, ◌≤◌, ◌^◌, ◌+◌, [], ◌∷◌, List, ℕ, true, false};
ghost use Rattle.std.specs.Prelude.{length, OnErr, OnOk, IsOk};
ghost use Rattle.ibos_kinds.specs.declared.names.Local.{Local as Addresses};
ghost use Rattle.ibos_kinds.specs.declared.act.Act.TheVariants.{RxBell, RxPost, WireIn};
ghost use Rattle.ibos_nic.specs.declared.log.LogEntry.{LogEntry};
ghost use Rattle.ibos_nic.specs.Registers.{Registers};
ghost use Rattle.ibos_mediate.specs.Relation.{IsAtDevice};
ghost use Rattle.ibos_model.specs.Journal.{is_ok};
ghost use Rattle.ibos_net.specs.NetStanding.{IsSafe, Leaves, Serves, areas_of, posts_of};

use crate::parts::Parts;
use ibos_kinds::{Handle, Head, Item, Local, Memory, Outcome};
use ibos_mediate::{
    arrivals_add_a_frame, arrivals_keep_the_relation, frames_are_counted, posts_add_a_frame,
};
use ibos_nic::{Nic, descriptors_are_their_bytes};
use ibos_pool::parts_are_apart;
use ibos_recv::{hands_are_parted, inboxes_keep_their_frames, serve};
use std::alloc::Global;

impl Parts {
    /// The driver posts a receive buffer.
    pub(crate) fn post(&mut self, slot: u32, handle: Handle, out: &mut Outcome)
        requires posts { posts_of self.old < 2 ^ 31 }
        requires safe { IsSafe self.old }
        requires head { out.old.head ≡ Head.Ok }
        requires items { out.old.items ≡ [] }
        ensures serves { (local : Addresses) (regs : Registers) (log : List LogEntry)
            → Serves local (RxPost slot handle) out.new self.old self.new regs regs log log }
        ensures safe { IsSafe self.new }
        ensures denied { is_ok out.new.head ≡ false → self.new ≡ self.old }
        ensures areas { areas_of self.new ≡ areas_of self.old }
        ensures posts { posts_of self.new ≤ posts_of self.old + 1 }
    {
        // called for what their clauses say
        descriptors_are_their_bytes();
        parts_are_apart();
        posts_add_a_frame();
        frames_are_counted();
        hands_are_parted();
        inboxes_keep_their_frames();
        match self
            .med
            .rx_post(slot, handle, &mut self.pool, &mut self.mem)
        {
            Ok(()) => {}
            Err(rule) => {
                out.head = Head::Denied(rule);
                return;
            }
        }
    }

    /// A frame comes from the wire.
    pub(crate) fn arrive<N: Nic>(
        &mut self,
        alloc: Global,
        frame: &[u8],
        nic: &mut N,
        out: &mut Outcome,
    ) -> Result<(), Memory>
        requires safe { IsSafe self.old }
        requires device { IsAtDevice self.old.med self.old.mem (N.regs nic.old) }
        requires head { out.old.head ≡ Head.Ok }
        requires items { out.old.items ≡ [] }
        ensures serves { OnOk result ((local : Addresses) → Serves local (WireIn frame.now) out.new
            self.old self.new (N.regs nic.old) (N.regs nic.new) (N.log nic.old) (N.log nic.new)) }
        ensures leaves { OnErr result ((local : Addresses) → Leaves local (WireIn frame.now)
            self.old (N.regs nic.old) (N.log nic.old) (N.log nic.new)) }
        ensures safe { IsSafe self.new }
        ensures accepted { is_ok out.new.head ≡ true }
        ensures areas { areas_of self.new ≡ areas_of self.old }
        ensures posts { posts_of self.new ≡ posts_of self.old }
    {
        // called for what their clauses say
        arrivals_keep_the_relation();
        arrivals_add_a_frame();
        frames_are_counted();
        hands_are_parted();
        inboxes_keep_their_frames();
        let verdict = nic.arrive(alloc, frame, &mut self.mem)?;
        out.push(Item::VerdictIs { verdict })?;
        Ok(())
    }

    /// The driver asks for the frames that were received.
    pub(crate) fn bell(
        &mut self,
        alloc: Global,
        local: &Local,
        out: &mut Outcome,
    ) -> Result<(), Memory>
        requires safe { IsSafe self.old }
        requires head { out.old.head ≡ Head.Ok }
        requires items { out.old.items ≡ [] }
        ensures serves { OnOk result ((regs : Registers) (log : List LogEntry)
            → Serves local.now RxBell out.new self.old self.new regs regs log log) }
        ensures safe { IsSafe self.new }
        ensures accepted { is_ok out.new.head ≡ true }
        ensures areas { areas_of self.new ≡ areas_of self.old }
        ensures posts { OnOk result (posts_of self.new ≡ posts_of self.old) }
    {
        // called for what their clauses say
        frames_are_counted();
        hands_are_parted();
        inboxes_keep_their_frames();
        serve(
            alloc,
            local,
            &mut self.med,
            &mut self.pool,
            &mut self.mem,
            &self.flows,
            &mut self.inboxes,
            out,
        )?;
        Ok(())
    }
}
