//! A device that writes other bytes than those that came.
ghost use Rattle.std.specs.Prelude.{◌≡◌, ◌≤◌, List, ℕ, [], ◌∷◌, length, refl, IfOk, IsTrue};
ghost use Rattle.ibos_nic.specs.declared.reg.Reg.{Reg};
ghost use Rattle.ibos_nic.specs.declared.log.LogEntry.TheVariants.{In, Out};
ghost use Rattle.ibos_nic.specs.Bits.{max_frame};
ghost use Rattle.ibos_nic.specs.Registers.{after_read, after_write, can_receive, can_transmit};
ghost use Rattle.ibos_nic.specs.Registers.{receive_head, reset, transmit_head};
ghost use Rattle.ibos_nic.specs.Device.{IsReceived, IsTransmitted, MayMoveTail, MayReceive};
ghost use Rattle.ibos_nic.specs.Device.{MayTransmit, OnHeard, OnSent, OnUnheard, OnUnsent};
ghost use Rattle.ibos_nic.specs.Device.{after_arrive, after_transmit, frame_at, verdict_of};
ghost use Rattle.ibos_device.specs.Cards.{regs_of};

use crate::card::Card;
use ibos_kinds::{Bytes, Memory, Verdict};
use ibos_nic::{Nic, Reg};
use ibos_pool::Mem;
use std::alloc::Global;
use std::marker::Model;

/// A device that writes the same bytes for every frame that it hears, whatever came.
#[derive(Drop)]
pub struct Noisy {
    card: Card,
    bytes: Bytes,
}

impl Model for Noisy {
    ghost use Rattle.std.specs.Prelude.{◌≤◌, length};
    ghost use Rattle.ibos_nic.specs.Bits.{max_frame};
    ghost use Rattle.ibos_device.specs.Cards.{NoisyState};

    ghost Value = { NoisyState };

    ghost view = { λ n. record { state = n.card; noise = n.bytes } };

    ghost invariant = { λ n. length n.bytes ≤ max_frame };
}

impl Noisy {
    /// The device at reset, whose log is empty, with the bytes that it writes.
    pub fn new(bytes: Bytes) -> Noisy
        requires { length bytes ≤ max_frame }
        ensures registers { (r : Reg) → regs_of result.state r ≡ reset r }
        ensures log { result.state.log ≡ [] }
        ensures noise { result.noise ≡ bytes }
    {
        Noisy {
            card: Card::new(),
            bytes,
        }
    }
}

impl Nic for Noisy {
    ghost regs = { λ s. regs_of s.state };

    ghost log = { λ s. s.state.log };

    ghost ctrl_is = { λ d. refl };

    ghost status_is = { λ d. refl };

    fn at_reset(&self) -> bool {
        self.card.at_reset()
    }

    fn read(&mut self, reg: Reg) -> u32
        ensures value { result ≡ regs_of self.old.state reg }
        ensures registers { (r : Reg) → regs_of self.new.state r
            ≡ after_read reg (regs_of self.old.state) r }
        ensures log { self.new.state.log ≡ self.old.state.log }
        ensures noise { self.new.noise ≡ self.old.noise }
    {
        self.card.read(reg)
    }

    fn write(&mut self, reg: Reg, value: u32, _mem: &Mem)
        ensures registers { (r : Reg) → regs_of self.new.state r
            ≡ after_write reg value (regs_of self.old.state) r }
        ensures log { self.new.state.log ≡ self.old.state.log }
        ensures noise { self.new.noise ≡ self.old.noise }
    {
        self.card.write(reg, value);
    }

    fn arrive(&mut self, _alloc: Global, frame: &[u8], mem: &mut Mem) -> Result<Verdict, Memory>
        requires { IsTrue (can_receive (regs_of self.old.state))
            → MayReceive mem.old (receive_head (regs_of self.old.state)) }
        ensures verdict { IfOk result (λ verdict.
            verdict ≡ verdict_of (regs_of self.old.state) frame.now) }
        ensures registers { (r : Reg) → regs_of self.new.state r
            ≡ after_arrive result (regs_of self.old.state) r }
        ensures heard { OnHeard result ((written : List ℕ)
            × (self.new.state.log ≡ In frame.now written ∷ self.old.state.log)
            × IsReceived mem.old mem.new (receive_head (regs_of self.old.state)) written) }
        ensures unheard_log { OnUnheard result (self.new.state.log ≡ self.old.state.log) }
        ensures unheard_memory { OnUnheard result (mem.new ≡ mem.old) }

        // What was written are the device's own bytes.
        ensures other { OnHeard result (self.new.state.log ≡ In frame.now self.old.noise
            ∷ self.old.state.log) }
        ensures noise { self.new.noise ≡ self.old.noise }
    {
        Ok(self.card.arrive(frame, self.bytes.as_slice(), mem))
    }

    fn transmit(&mut self, _alloc: Global, mem: &mut Mem) -> Result<bool, Memory>
        requires { IsTrue (can_transmit (regs_of self.old.state))
            → MayTransmit mem.old (transmit_head (regs_of self.old.state)) }
        ensures sent { IfOk result (λ sent. sent ≡ can_transmit (regs_of self.old.state)) }
        ensures registers { (r : Reg) → regs_of self.new.state r
            ≡ after_transmit result (regs_of self.old.state) r }
        ensures sent_log { OnSent result (self.new.state.log
            ≡ Out (frame_at mem.old (transmit_head (regs_of self.old.state)))
            ∷ self.old.state.log) }
        ensures sent_memory { OnSent result
            (IsTransmitted mem.old mem.new (transmit_head (regs_of self.old.state))) }
        ensures unsent_log { OnUnsent result (self.new.state.log ≡ self.old.state.log) }
        ensures unsent_memory { OnUnsent result (mem.new ≡ mem.old) }
        ensures noise { self.new.noise ≡ self.old.noise }
    {
        Ok(self.card.transmit(mem))
    }
}
