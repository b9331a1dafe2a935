// One step.
ghost use Rattle.std.specs.Prelude.{◌≡◌, ℕ, ◌<◌, ◌+◌, ◌*◌, ◌^◌, [], ◌∷◌, true, false};
ghost use Rattle.std.specs.Prelude.{is_ok as is_whole, length, slice_index, slice_index_or, IfOk};
ghost use Rattle.std.specs.Prelude.{IsOk, OnErr, OnOk};
ghost use Rattle.std.specs.List.{All};
ghost use Rattle.ibos_kinds.specs.Limits.{Fits};
ghost use Rattle.ibos_nic.specs.declared.reg.Reg.{Reg};
ghost use Rattle.ibos_nic.specs.Registers.{reset};

use crate::halves::serve;
use crate::parts::Parts;
use ibos_cookie::Jars;
use ibos_focus::Focus;
use ibos_frame::Screen;
use ibos_kinds::{Act, Instance, Memory, Outcome};
use ibos_model::{denials_change_nothing, isolation_of_each_entry, sends_are_right, sets_are_put};
use ibos_net::Net;
use ibos_nic::Nic;
use ibos_origin::Hosts;
use ibos_page::Tabs;
use ibos_store::Store;
use std::alloc::Global;
use std::marker::Model;

/// The kernel of one run: the half of the pages, with its host table, tabs, jars, stored objects,
/// screen and focus, and the half that frames pass. It can't be dropped: it holds buffers.
///
/// # Examples
///
/// ```
/// use ibos_device::Model8254x;
/// use ibos_kernel::Kernel;
/// use ibos_kinds::{Act, Head, Memory, Outcome, Rule};
/// use ibos_origin::Hosts;
/// use std::process::Abort;
///
/// fn first_act(rt: &(impl Abort + AllocGlobal), hosts: Hosts) -> Result<(), Memory> {
///     let mut nic = Model8254x::new();
///     let mut kernel = Kernel::new(rt.alloc(), hosts, &mut nic)?;
///     let mut out = Outcome::new(rt.alloc());
///     let stepped = kernel.step(rt.alloc(), &Act::Close { tab: 0 }, &mut nic, &mut out);
///     kernel.close();
///     stepped?;
///     assert_eq!(rt; out.head, Head::Denied(Rule::U2));
///     Ok(())
/// }
/// ```
pub struct Kernel {
    parts: Parts,
    net: Net,
    acts: u32,
    usable: bool,
}

impl Model for Kernel {
    ghost use Rattle.std.specs.Prelude.{◌≡◌, true};
    ghost use Rattle.ibos_kernel.specs.Tables.{Tables};
    ghost use Rattle.ibos_kernel.specs.Standing.{IsSound};

    ghost Value = { Tables };

    ghost view = { λ k. record {
      hosts = k.parts.hosts;
      tabs = k.parts.tabs;
      jars = k.parts.jars;
      store = k.parts.store;
      screen = k.parts.screen;
      focus = k.parts.focus;
      net = k.net;
      acts = k.acts;
      usable = k.usable;
    } };

    ghost invariant = { λ k. k.usable ≡ true → IsSound (record {
      hosts = k.parts.hosts;
      tabs = k.parts.tabs;
      jars = k.parts.jars;
      store = k.parts.store;
      screen = k.parts.screen;
      focus = k.parts.focus;
      net = k.net;
      acts = k.acts;
      usable = k.usable;
    }) };
}

impl Kernel {
    ghost use Rattle.ibos_model.specs.Journal.{Journal, frame_of, is_ok};
    ghost use Rattle.ibos_model.specs.Outcomes.{out as outcome_of};
    ghost use Rattle.ibos_model.specs.Laws.{IsCarried, IsOfASend, views};
    ghost use Rattle.ibos_model.specs.Logs.{Loses, got_for, log_after, sent_in};
    ghost use Rattle.ibos_model.specs.Network.{network, next_frame};
    ghost use Rattle.ibos_model.specs.Screen.{screen};
    ghost use Rattle.ibos_model.specs.Tabs.{Alive};
    ghost use Rattle.ibos_kernel.specs.Tables.{takes_none};
    ghost use Rattle.ibos_kernel.specs.Standing.{Agrees, AreTogether, Stands, entry, life_at};

    /// A kernel that has made no act, over a host table and a device at reset. It writes the own
    /// address into the device.
    pub fn new<N: Nic>(alloc: Global, hosts: Hosts, nic: &mut N) -> Result<Kernel, Memory>
        requires registers { (r : Reg) → N.regs nic.old r ≡ reset r }
        requires log { N.log nic.old ≡ [] }
        ensures stands { IfOk result (λ kernel. Stands [] kernel) }
        ensures agrees { OnOk result (Agrees hosts [] (N.regs nic.new) (N.log nic.new)) }
        ensures hosts { IfOk result (λ kernel. kernel.hosts ≡ hosts) }
        ensures usable { IfOk result (λ kernel. kernel.usable ≡ true) }
        ensures acts { IfOk result (λ kernel. kernel.acts ≡ 0) }
        ensures log { N.log nic.new ≡ [] }
    {
        let tabs = Tabs::new(alloc)?;
        let screen = Screen::new(alloc)?;
        let local = hosts.local();
        let mut parts = Parts {
            hosts,
            tabs,
            jars: Jars::new(alloc),
            store: Store::new(alloc),
            screen,
            focus: Focus::new(),
        };
        parts.compose();
        let net = Net::new(alloc, &local, nic)?;
        Ok(Kernel {
            parts,
            net,
            acts: 0,
            usable: true,
        })
    }

    /// Whether the kernel may step: it has never run out of memory.
    pub fn usable(&self) -> bool
        ensures { result ≡ self.now.usable }
    {
        self.usable
    }

    /// How many acts the kernel has made. While it is usable, this is the length of its journal.
    pub fn acts(&self) -> u32
        ensures { result ≡ self.now.acts }
    {
        self.acts
    }

    /// Makes one act, and fills `out` with its outcome. Whatever journal the kernel stood for, and
    /// the device agreed with, the outcome is the one that the act has there, and both then go on
    /// to the journal with the act's entry. Once it is out of memory the kernel is spent, and `out`
    /// is open.
    pub fn step<N: Nic>(
        &mut self,
        alloc: Global,
        act: &Act,
        nic: &mut N,
        out: &mut Outcome,
    ) -> Result<(), Memory>
        requires usable { self.old.usable ≡ true }
        requires acts { self.old.acts < 2 ^ 31 }
        requires fits { Fits act.now }

        // The device is as the kernel's last call left it.
        requires device { AreTogether self.old (N.regs nic.old) (N.log nic.old) }

        ensures outcome { OnOk result ((J : Journal) → Stands J self.old
            → Agrees self.old.hosts J (N.regs nic.old) (N.log nic.old)
            → out.new ≡ outcome_of self.old.hosts J act.now) }
        ensures stands { OnOk result ((J : Journal) → Stands J self.old
            → Agrees self.old.hosts J (N.regs nic.old) (N.log nic.old)
            → Stands (entry act.now out.new (N.log nic.new) ∷ J) self.new) }
        ensures agrees { OnOk result ((J : Journal) → Stands J self.old
            → Agrees self.old.hosts J (N.regs nic.old) (N.log nic.old)
            → Agrees self.old.hosts (entry act.now out.new (N.log nic.new) ∷ J) (N.regs nic.new)
            (N.log nic.new)) }

        // The head and the items to each instance are what the facts that the act adds give.
        ensures carried { OnOk result ((J : Journal) → Stands J self.old
            → Agrees self.old.hosts J (N.regs nic.old) (N.log nic.old)
            → IsCarried self.old.hosts J (entry act.now out.new (N.log nic.new))) }

        // A denied act leaves the kernel as it was, but for the count of acts, and so it leaves all
        // that the journal says.
        ensures denied { OnOk result (is_ok out.new.head ≡ false
            → self.new ≡ record self.old { acts = self.old.acts + 1 }) }
        ensures unchanged { OnOk result ((J : Journal) → is_ok out.new.head ≡ false
            → views self.old.hosts (entry act.now out.new (N.log nic.new) ∷ J)
            ≡ views self.old.hosts J) }

        // The log's entries stay. Where the act's frame is heard, one more has that frame, and
        // where the device sends, one more has the frame that is sent next.
        ensures log { OnOk result ((J : Journal) → Stands J self.old
            → Agrees self.old.hosts J (N.regs nic.old) (N.log nic.old)
            → N.log nic.new ≡ log_after out.new (frame_of act.now) (got_for out.new
            (N.log nic.new)) (next_frame (network J)) (N.log nic.old)) }

        // What the device has sent is sent rightly: each frame is that of a send which was accepted
        // and breaks no rule.
        ensures sends { OnOk result ((J : Journal) → Stands J self.old
            → Agrees self.old.hosts J (N.regs nic.old) (N.log nic.old)
            → All (IsOfASend self.old.hosts (entry act.now out.new (N.log nic.new) ∷ J))
            (sent_in (N.log nic.new))) }

        // After want of memory the log is as it was, or has the one entry that the act brings.
        ensures loses { OnErr result ((J : Journal) → Stands J self.old
            → Agrees self.old.hosts J (N.regs nic.old) (N.log nic.old)
            → Loses (outcome_of self.old.hosts J act.now) act.now (next_frame (network J))
            (N.log nic.old) (N.log nic.new)) }

        // These acts take no memory: a switch, a draw, a closed flow, a frame that is done with, a
        // write of a register, a posted buffer, a fill, a posted send, and the loss of an object.
        ensures free { takes_none act.now ≡ true → IsOk result }

        ensures hosts { self.new.hosts ≡ self.old.hosts }
        ensures acts { OnOk result (self.new.acts ≡ self.old.acts + 1) }
        ensures usable { self.new.usable ≡ is_whole result }
    {
        // Called for what their contracts say: the laws that this call's clauses follow from.
        isolation_of_each_entry();
        denials_change_nothing();
        sends_are_right();
        sets_are_put();

        out.clear();
        match serve(&mut self.parts, &mut self.net, alloc, act, nic, out) {
            Ok(()) => {
                self.acts += 1;
                Ok(())
            }
            Err(Memory) => {
                self.usable = false;
                Err(Memory)
            }
        }
    }

    /// The screen's 2,000 pixels, row by row: whatever journal the kernel stands for, they are that
    /// journal's screen. Takes no memory.
    pub fn pixels(&self) -> &[u8]
        ensures count { length result.now ≡ 2000 }
        ensures screen { (J : Journal) → Stands J self.now → (r c : ℕ) → r < 25 → c < 80
            → slice_index result.now (80 * r + c) ≡ screen self.now.hosts J r c }
    {
        self.parts.pixels()
    }

    /// How many frames of a live instance are unread. Takes no memory.
    pub fn unread(&self, who: Instance) -> u8
        requires usable { self.now.usable ≡ true }
        requires lives { life_at self.now.tabs who ≡ Alive }
        ensures { (J : Journal) → Stands J self.now → result ≡ length ((network J).unread who) }
    {
        self.net.unread(who)
    }

    /// An unread frame of a live instance, counted from 0 at the oldest. Takes no memory.
    pub fn inbox(&self, who: Instance, k: u8) -> &[u8]
        requires usable { self.now.usable ≡ true }
        requires lives { life_at self.now.tabs who ≡ Alive }
        requires below { (J : Journal) → Stands J self.now → k < length ((network J).unread who) }
        ensures { (J : Journal) → Stands J self.now
            → result.now ≡ slice_index_or ((network J).unread who) k [] }
    {
        self.net.inbox(who, k)
    }

    /// Gives all buffers back, whether the kernel is usable or not. Takes no memory. No call of the
    /// device follows.
    pub fn close(self) {
        let Kernel {
            parts: _,
            net,
            acts: _,
            usable: _,
        } = self;
        net.close();
    }
}
