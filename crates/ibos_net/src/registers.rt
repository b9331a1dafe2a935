// The driver reads and writes registers.
ghost use Rattle.std.specs.Prelude.{◌≡◌, ◌≢◌, ◌<◌, ◌≤◌, ◌^◌, ◌+◌, [], ◌∷◌, List, ℕ, true, false};
ghost use Rattle.std.specs.Prelude.{length, OnErr, OnOk, IsOk};
ghost use Rattle.ibos_kinds.specs.declared.names.Local.{Local as Addresses};
ghost use Rattle.ibos_kinds.specs.declared.act.Act.TheVariants.{RegRead, RegWrite};
ghost use Rattle.ibos_nic.specs.declared.reg.Reg.{Reg};
ghost use Rattle.ibos_mediate.specs.Relation.{IsAtDevice};
ghost use Rattle.ibos_model.specs.Journal.{is_ok};
ghost use Rattle.ibos_net.specs.NetStanding.{IsSafe, Serves, areas_of, posts_of};

use crate::parts::Parts;
use ibos_kinds::{Head, Item, Memory, Outcome};
use ibos_mediate::other_changes_keep_the_frames;
use ibos_nic::Nic;

impl Parts {
    /// The driver reads the register at an offset.
    pub(crate) fn read<N: Nic>(
        &mut self,
        offset: u32,
        nic: &mut N,
        out: &mut Outcome,
    ) -> Result<(), Memory>
        requires head { out.old.head ≡ Head.Ok }
        requires items { out.old.items ≡ [] }
        ensures serves { OnOk result ((local : Addresses) → Serves local (RegRead offset) out.new
            self.old self.new (N.regs nic.old) (N.regs nic.new) (N.log nic.old) (N.log nic.new)) }
        ensures same { self.new ≡ self.old }
        ensures log { N.log nic.new ≡ N.log nic.old }
    {
        match self.med.read(offset, nic) {
            Ok(value) => out.push(Item::ValueIs { value })?,
            Err(rule) => out.head = Head::Denied(rule),
        }
        Ok(())
    }

    /// The driver writes the register at an offset.
    pub(crate) fn write<N: Nic>(&mut self, offset: u32, value: u32, nic: &mut N, out: &mut Outcome)
        requires safe { IsSafe self.old }
        requires device { IsAtDevice self.old.med self.old.mem (N.regs nic.old) }
        requires head { out.old.head ≡ Head.Ok }
        requires items { out.old.items ≡ [] }
        ensures serves { (local : Addresses) → Serves local (RegWrite offset value) out.new self.old
            self.new (N.regs nic.old) (N.regs nic.new) (N.log nic.old) (N.log nic.new) }
        ensures safe { IsSafe self.new }
        ensures denied { is_ok out.new.head ≡ false → self.new ≡ self.old }
        ensures areas { areas_of self.new ≡ areas_of self.old }
        ensures posts { posts_of self.new ≡ posts_of self.old }
    {
        // called for what its clauses say
        other_changes_keep_the_frames();
        match self.med.write(offset, value, nic, &self.mem) {
            Ok(()) => {}
            Err(rule) => {
                out.head = Head::Denied(rule);
                return;
            }
        }
    }
}
