// An instance binds and closes flows, and is done with frames.
ghost use Rattle.std.specs.Prelude.{◌≡◌, ◌≢◌, [], List, false, None, OnOk};
ghost use Rattle.ibos_kinds.specs.declared.names.Local.{Local as Addresses};
ghost use Rattle.ibos_kinds.specs.declared.act.Act.TheVariants.{Bind, Done, Unbind};
ghost use Rattle.ibos_kinds.specs.Limits.{IsNamed};
ghost use Rattle.ibos_nic.specs.declared.log.LogEntry.{LogEntry};
ghost use Rattle.ibos_nic.specs.Registers.{Registers};
ghost use Rattle.ibos_flow.specs.Flows.{bound_by};
ghost use Rattle.ibos_model.specs.Journal.{is_ok};
ghost use Rattle.ibos_net.specs.NetStanding.{IsSafe, Serves, areas_of, posts_of};

use crate::parts::Parts;
use ibos_kinds::{Head, Instance, Item, Memory, Outcome, Proto, local_port};
use ibos_recv::inboxes_keep_their_frames;

impl Parts {
    /// An instance binds a flow to the endpoint of its origin.
    pub(crate) fn bind(
        &mut self,
        who: Instance,
        proto: Proto,
        out: &mut Outcome,
    ) -> Result<(), Memory>
        requires named { IsNamed who }
        requires safe { IsSafe self.old }
        requires open { bound_by self.old.flows who ≢ None }
        requires head { out.old.head ≡ Head.Ok }
        requires items { out.old.items ≡ [] }
        ensures serves { OnOk result ((local : Addresses) (regs : Registers) (log : List LogEntry)
            → Serves local (Bind who proto) out.new self.old self.new regs regs log log) }
        ensures safe { IsSafe self.new }
        ensures denied { OnOk result (is_ok out.new.head ≡ false → self.new ≡ self.old) }
        ensures areas { areas_of self.new ≡ areas_of self.old }
        ensures posts { posts_of self.new ≡ posts_of self.old }
    {
        let remote = self.flows.remote(who);
        match self.flows.bind(who, proto) {
            Ok(flow) => {
                let port = local_port(who, flow);
                out.push(Item::FlowIs {
                    who,
                    flow,
                    port,
                    remote,
                })?;
                Ok(())
            }
            Err(rule) => {
                out.head = Head::Denied(rule);
                Ok(())
            }
        }
    }

    /// An instance closes a flow.
    pub(crate) fn unbind(&mut self, who: Instance, flow: u8, out: &mut Outcome)
        requires safe { IsSafe self.old }
        requires open { bound_by self.old.flows who ≢ None }
        requires head { out.old.head ≡ Head.Ok }
        requires items { out.old.items ≡ [] }
        ensures serves { (local : Addresses) (regs : Registers) (log : List LogEntry)
            → Serves local (Unbind who flow) out.new self.old self.new regs regs log log }
        ensures safe { IsSafe self.new }
        ensures denied { is_ok out.new.head ≡ false → self.new ≡ self.old }
        ensures areas { areas_of self.new ≡ areas_of self.old }
        ensures posts { posts_of self.new ≡ posts_of self.old }
    {
        match self.flows.close(who, flow) {
            Ok(()) => {}
            Err(rule) => {
                out.head = Head::Denied(rule);
                return;
            }
        }
    }

    /// An instance is done with its oldest unread frame.
    pub(crate) fn done(&mut self, who: Instance, out: &mut Outcome)
        requires safe { IsSafe self.old }
        requires open { bound_by self.old.flows who ≢ None }
        requires head { out.old.head ≡ Head.Ok }
        requires items { out.old.items ≡ [] }
        ensures serves { (local : Addresses) (regs : Registers) (log : List LogEntry)
            → Serves local (Done who) out.new self.old self.new regs regs log log }
        ensures safe { IsSafe self.new }
        ensures denied { is_ok out.new.head ≡ false → self.new ≡ self.old }
        ensures areas { areas_of self.new ≡ areas_of self.old }
        ensures posts { posts_of self.new ≡ posts_of self.old }
    {
        // called for what its clauses say
        inboxes_keep_their_frames();
        match self.inboxes.done(who) {
            Ok(()) => {}
            Err(rule) => {
                out.head = Head::Denied(rule);
                return;
            }
        }
    }
}
