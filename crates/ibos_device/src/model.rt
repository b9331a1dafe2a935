//! A model of the device.
ghost use Rattle.std.specs.Prelude.{◌≡◌, List, ℕ, [], ◌∷◌, refl, IfOk, IsTrue};
ghost use Rattle.ibos_nic.specs.declared.reg.Reg.{Reg};
ghost use Rattle.ibos_nic.specs.declared.log.LogEntry.TheVariants.{In, Out};
ghost use Rattle.std.specs.Result.{IsOk};
ghost use Rattle.ibos_nic.specs.Registers.{can_receive, can_transmit, receive_head, reset};
ghost use Rattle.ibos_nic.specs.Registers.{transmit_head};
ghost use Rattle.ibos_nic.specs.Device.{IsReceived, IsTransmitted, MayReceive, MayTransmit};
ghost use Rattle.ibos_nic.specs.Device.{OnHeard, OnSent, OnUnheard, OnUnsent, after_arrive};
ghost use Rattle.ibos_nic.specs.Device.{after_transmit, frame_at, verdict_of};
ghost use Rattle.ibos_device.specs.Cards.{regs_of};

use crate::card::Card;
use ibos_kinds::{Memory, Verdict};
use ibos_nic::{Nic, Reg};
use ibos_pool::Mem;
use std::alloc::Global;
use std::marker::Model;

/// A model of the Intel 8254x. What it writes for a frame is that frame. Its log is there for
/// contracts alone, so it takes no memory, however much comes and goes.
#[derive(Drop)]
pub struct Model8254x {
    card: Card,
}

impl Model for Model8254x {
    ghost use Rattle.ibos_device.specs.Cards.{AreFaithful, State};

    ghost Value = { State };

    ghost view = { λ m. m.card };

    ghost invariant = { λ m. AreFaithful m.card.log };
}

impl Model8254x {
    ghost use Rattle.ibos_device.specs.Cards.{AreFaithful};

    /// The device at reset, whose log is empty.
    pub fn new() -> Model8254x
        ensures registers { (r : Reg) → regs_of result r ≡ reset r }
        ensures log { result.log ≡ [] }
    {
        Model8254x { card: Card::new() }
    }

    /// What was written for each frame that came in is that frame.
    pub fn is_faithful(&self)
        ensures { AreFaithful self.now.log }
    {
        let _card = &self.card;
    }
}

impl Nic for Model8254x {
    ghost regs = { regs_of };

    ghost log = { λ s. s.log };

    ghost ctrl_is = { λ d. refl };

    ghost status_is = { λ d. refl };

    fn at_reset(&self) -> bool {
        self.card.at_reset()
    }

    fn read(&mut self, reg: Reg) -> u32 {
        self.card.read(reg)
    }

    fn write(&mut self, reg: Reg, value: u32, _mem: &Mem) {
        self.card.write(reg, value);
    }

    fn arrive(&mut self, _alloc: Global, frame: &[u8], mem: &mut Mem) -> Result<Verdict, Memory>
        requires { IsTrue (can_receive (regs_of self.old))
            → MayReceive mem.old (receive_head (regs_of self.old)) }
        ensures verdict { IfOk result (λ verdict.
            verdict ≡ verdict_of (regs_of self.old) frame.now) }
        ensures registers { (r : Reg) → regs_of self.new r
            ≡ after_arrive result (regs_of self.old) r }
        ensures heard { OnHeard result ((written : List ℕ)
            × (self.new.log ≡ In frame.now written ∷ self.old.log)
            × IsReceived mem.old mem.new (receive_head (regs_of self.old)) written) }
        ensures unheard_log { OnUnheard result (self.new.log ≡ self.old.log) }
        ensures unheard_memory { OnUnheard result (mem.new ≡ mem.old) }

        // What was written is the frame that came.
        ensures same { OnHeard result (self.new.log ≡ In frame.now frame.now ∷ self.old.log) }

        // It takes no memory.
        ensures always { IsOk result }
    {
        Ok(self.card.arrive(frame, frame, mem))
    }

    fn transmit(&mut self, _alloc: Global, mem: &mut Mem) -> Result<bool, Memory>
        requires { IsTrue (can_transmit (regs_of self.old))
            → MayTransmit mem.old (transmit_head (regs_of self.old)) }
        ensures sent { IfOk result (λ sent. sent ≡ can_transmit (regs_of self.old)) }
        ensures registers { (r : Reg) → regs_of self.new r
            ≡ after_transmit result (regs_of self.old) r }
        ensures sent_log { OnSent result (self.new.log
            ≡ Out (frame_at mem.old (transmit_head (regs_of self.old))) ∷ self.old.log) }
        ensures sent_memory { OnSent result
            (IsTransmitted mem.old mem.new (transmit_head (regs_of self.old))) }
        ensures unsent_log { OnUnsent result (self.new.log ≡ self.old.log) }
        ensures unsent_memory { OnUnsent result (mem.new ≡ mem.old) }

        // It takes no memory.
        ensures always { IsOk result }
    {
        Ok(self.card.transmit(mem))
    }
}
