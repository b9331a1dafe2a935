//! What both devices do with their registers, their log and the memory.
ghost use Rattle.std.specs.Prelude.{◌≡◌, ◌≢◌, ◌<◌, ◌≤◌, ◌-◌, ◌^◌, ◌↔◌, [], ◌∷◌, length, IsTrue, Ok};
ghost use Rattle.ibos_pool.specs.declared.name.Ring.TheVariants.{Receive, Transmit};
ghost use Rattle.ibos_nic.specs.declared.reg.Reg.{Reg};
ghost use Rattle.ibos_nic.specs.declared.reg.Reg.TheVariants.{Ctrl, Status};
ghost use Rattle.ibos_nic.specs.declared.log.LogEntry.TheVariants.{In, Out};
ghost use Rattle.ibos_nic.specs.Registers.{after_heard, after_missed, after_read, after_sent};
ghost use Rattle.ibos_nic.specs.Registers.{after_write, can_receive, can_transmit, is_enabled};
ghost use Rattle.ibos_nic.specs.Registers.{next_slot, receive_head, reset, transmit_head};
ghost use Rattle.ibos_nic.specs.Registers.{with_cause, with_reg};
ghost use Rattle.ibos_nic.specs.Device.{IsInItsRing, IsReceived, IsTransmitted, MayReceive};
ghost use Rattle.ibos_nic.specs.Device.{MayTransmit, OnHeard, OnSent, OnUnheard, OnUnsent};
ghost use Rattle.ibos_nic.specs.Device.{after_arrive, after_transmit, frame_at, is_for_us};
ghost use Rattle.ibos_nic.specs.Device.{verdict_of};
ghost use Rattle.ibos_device.specs.Cards.{index_of, regs_of};
ghost use Rattle.ibos_nic.specs.Bits.{max_frame};

use crate::history::History;
use crate::memory;
use ibos_kinds::Verdict;
use ibos_nic::{
    ENABLE, MAX_FRAME, MIN_FRAME, RECEIVE_OVERRUN, RECEIVED, RING_SLOTS, Reg, TRANSMITTED,
};
use ibos_pool::{DESCRIPTOR_BYTES, Mem};
use std::marker::Model;

// How many registers have a value of their own: all but CTRL and STATUS.
const STORED: usize = 18;

// What STATUS is at all times.
const STATUS: u32 = 0x0000_0003;

/// The registers and the log of a device. Only contracts read the log, but for whether it is empty.
#[derive(Drop)]
pub(crate) struct Card {
    values: [u32; STORED],
    is_silent: bool,
    history: History,
}

impl Model for Card {
    ghost use Rattle.std.specs.Prelude.{◌≡◌, ◌↔◌, [], length, IsTrue};
    ghost use Rattle.ibos_device.specs.Cards.{State};

    ghost Value = { State };

    ghost view = { λ c. record { values = c.values; log = c.history.entries } };

    ghost invariant = { λ c. (length c.values ≡ 18)
        × (IsTrue c.is_silent ↔ (c.history.entries ≡ [])) };
}

fn index(reg: Reg) -> usize
    ensures { result ≡ index_of reg }
{
    match reg {
        Reg::Ctrl | Reg::Status => 0,
        Reg::Icr => 0,
        Reg::Ims => 1,
        Reg::Imc => 2,
        Reg::Rctl => 3,
        Reg::Tctl => 4,
        Reg::Rdbal => 5,
        Reg::Rdbah => 6,
        Reg::Rdlen => 7,
        Reg::Rdh => 8,
        Reg::Rdt => 9,
        Reg::Tdbal => 10,
        Reg::Tdbah => 11,
        Reg::Tdlen => 12,
        Reg::Tdh => 13,
        Reg::Tdt => 14,
        Reg::Mpc => 15,
        Reg::Ral0 => 16,
        Reg::Rah0 => 17,
    }
}

fn is_enabled(control: u32) -> bool
    ensures { result ≡ is_enabled control }
{
    control & ENABLE == ENABLE
}

fn next_slot(slot: u32) -> u32
    requires { slot < 2 ^ 32 - 1 }
    ensures { result ≡ next_slot slot }
{
    (slot + 1) % RING_SLOTS
}

impl Card {
    /// A device at reset, whose log is empty.
    pub(crate) fn new() -> Card
        ensures registers { (r : Reg) → regs_of result r ≡ reset r }
        ensures log { result.log ≡ [] }
    {
        Card {
            values: [0; STORED],
            is_silent: true,
            history: History::new(),
        }
    }

    pub(crate) fn at_reset(&self) -> bool
        ensures { IsTrue result ↔ (((r : Reg) → regs_of self.now r ≡ reset r)
            × (self.now.log ≡ [])) }
    {
        self.has_reset_values() && self.is_silent
    }

    fn has_reset_values(&self) -> bool
        ensures { IsTrue result ↔ ((r : Reg) → regs_of self.now r ≡ reset r) }
    {
        self.values == [0; STORED]
    }

    fn get(&self, reg: Reg) -> u32
        ensures { result ≡ regs_of self.now reg }
    {
        match reg {
            Reg::Ctrl => 0,
            Reg::Status => STATUS,
            _ => self.values[index(reg)],
        }
    }

    fn set(&mut self, reg: Reg, value: u32)
        requires control { reg ≢ Ctrl }
        requires status { reg ≢ Status }
        ensures registers { (r : Reg) → regs_of self.new r
            ≡ with_reg reg value (regs_of self.old) r }
        ensures log { self.new.log ≡ self.old.log }
    {
        self.values[index(reg)] = value;
    }

    pub(crate) fn read(&mut self, reg: Reg) -> u32
        ensures value { result ≡ regs_of self.old reg }
        ensures registers { (r : Reg) → regs_of self.new r ≡ after_read reg (regs_of self.old) r }
        ensures log { self.new.log ≡ self.old.log }
    {
        let value = self.get(reg);
        match reg {
            Reg::Icr => self.set(Reg::Icr, 0),
            Reg::Mpc => self.set(Reg::Mpc, 0),
            _ => {}
        }
        value
    }

    pub(crate) fn write(&mut self, reg: Reg, value: u32)
        ensures registers { (r : Reg) → regs_of self.new r
            ≡ after_write reg value (regs_of self.old) r }
        ensures log { self.new.log ≡ self.old.log }
    {
        match reg {
            Reg::Ctrl | Reg::Status => {}
            Reg::Ims => self.set(Reg::Ims, self.get(Reg::Ims) | value),
            Reg::Imc => self.set(Reg::Ims, self.get(Reg::Ims) & !value),
            _ => self.set(reg, value),
        }
    }

    fn add_cause(&mut self, cause: u32)
        ensures registers { (r : Reg) → regs_of self.new r ≡ with_cause cause (regs_of self.old) r }
        ensures log { self.new.log ≡ self.old.log }
    {
        self.set(Reg::Icr, self.get(Reg::Icr) | cause);
    }

    fn note_heard(&mut self, frame: &[u8], written: &[u8])
        ensures { self.new ≡ record self.old { log = In frame.now written.now ∷ self.old.log } }
    {
        self.is_silent = false;
        self.history.heard(frame, written);
    }

    fn note_sent(&mut self, mem: &Mem, at: u32)
        requires { MayTransmit mem.now at }
        ensures { self.new ≡ record self.old { log = Out (frame_at mem.now at) ∷ self.old.log } }
    {
        self.is_silent = false;
        memory::note_frame(&mut self.history, mem, at);
    }

    #[tactic(auto, unfolding(ibos_nic::specs::Device::is_for_us))]
    fn is_for_us(&self, frame: &[u8]) -> bool
        ensures { result ≡ is_for_us (regs_of self.now) frame.now }
    {
        let len = frame.len();
        if len < MIN_FRAME as usize || len > MAX_FRAME as usize {
            return false;
        }
        let [a, b, c, d] = self.get(Reg::Ral0).to_le_bytes();
        let [e, f, _, _] = self.get(Reg::Rah0).to_le_bytes();
        let to = &frame[..6];
        to == [a, b, c, d, e, f].as_slice() || to == [0xff; 6].as_slice()
    }

    fn can_receive(&self) -> bool
        ensures { result ≡ can_receive (regs_of self.now) }
    {
        is_enabled(self.get(Reg::Rctl)) && self.get(Reg::Rdh) != self.get(Reg::Rdt)
    }

    fn can_transmit(&self) -> bool
        ensures { result ≡ can_transmit (regs_of self.now) }
    {
        is_enabled(self.get(Reg::Tctl)) && self.get(Reg::Tdh) != self.get(Reg::Tdt)
    }

    fn verdict(&self, frame: &[u8]) -> Verdict
        ensures { result ≡ verdict_of (regs_of self.now) frame.now }
    {
        if !self.is_for_us(frame) {
            return Verdict::Filtered;
        }
        if self.can_receive() {
            Verdict::Heard
        } else {
            Verdict::Missed
        }
    }

    fn receive_head(&self) -> u32
        requires { IsInItsRing Receive (receive_head (regs_of self.now)) }
        ensures { result ≡ receive_head (regs_of self.now) }
    {
        self.get(Reg::Rdbal) + DESCRIPTOR_BYTES * self.get(Reg::Rdh)
    }

    fn transmit_head(&self) -> u32
        requires { IsInItsRing Transmit (transmit_head (regs_of self.now)) }
        ensures { result ≡ transmit_head (regs_of self.now) }
    {
        self.get(Reg::Tdbal) + DESCRIPTOR_BYTES * self.get(Reg::Tdh)
    }

    fn miss(&mut self)
        ensures registers { (r : Reg) → regs_of self.new r ≡ after_missed (regs_of self.old) r }
        ensures log { self.new.log ≡ self.old.log }
    {
        if is_enabled(self.get(Reg::Rctl)) {
            self.add_cause(RECEIVE_OVERRUN);
            self.set(Reg::Mpc, self.get(Reg::Mpc).saturating_add(1));
        }
    }

    fn go_on_receiving(&mut self)
        requires { IsInItsRing Receive (receive_head (regs_of self.old)) }
        ensures registers { (r : Reg) → regs_of self.new r ≡ after_heard (regs_of self.old) r }
        ensures log { self.new.log ≡ self.old.log }
    {
        let next = next_slot(self.get(Reg::Rdh));
        self.add_cause(RECEIVED);
        self.set(Reg::Rdh, next);
    }

    fn go_on_transmitting(&mut self)
        requires { IsInItsRing Transmit (transmit_head (regs_of self.old)) }
        ensures registers { (r : Reg) → regs_of self.new r ≡ after_sent (regs_of self.old) r }
        ensures log { self.new.log ≡ self.old.log }
    {
        let next = next_slot(self.get(Reg::Tdh));
        self.add_cause(TRANSMITTED);
        self.set(Reg::Tdh, next);
    }

    fn hear(&mut self, frame: &[u8], written: &[u8], mem: &mut Mem)
        requires descriptor { MayReceive mem.old (receive_head (regs_of self.old)) }
        requires size { length written.now ≤ max_frame }
        ensures registers { (r : Reg) → regs_of self.new r ≡ after_heard (regs_of self.old) r }
        ensures log { self.new.log ≡ In frame.now written.now ∷ self.old.log }
        ensures memory { IsReceived mem.old mem.new (receive_head (regs_of self.old)) written.now }
    {
        let at = self.receive_head();
        memory::put_frame(mem, at, written);
        self.note_heard(frame, written);
        self.go_on_receiving();
    }

    fn send(&mut self, mem: &mut Mem)
        requires { MayTransmit mem.old (transmit_head (regs_of self.old)) }
        ensures registers { (r : Reg) → regs_of self.new r ≡ after_sent (regs_of self.old) r }
        ensures log { self.new.log ≡ Out (frame_at mem.old (transmit_head (regs_of self.old)))
            ∷ self.old.log }
        ensures memory { IsTransmitted mem.old mem.new (transmit_head (regs_of self.old)) }
    {
        let at = self.transmit_head();
        self.note_sent(mem, at);
        memory::put_done(mem, at);
        self.go_on_transmitting();
    }

    /// A frame comes, and the other bytes are written for it.
    pub(crate) fn arrive(&mut self, frame: &[u8], written: &[u8], mem: &mut Mem) -> Verdict
        requires descriptor { IsTrue (can_receive (regs_of self.old))
            → MayReceive mem.old (receive_head (regs_of self.old)) }
        requires size { IsTrue (is_for_us (regs_of self.old) frame.now)
            → length written.now ≤ max_frame }
        ensures verdict { result ≡ verdict_of (regs_of self.old) frame.now }
        ensures registers { (r : Reg) → regs_of self.new r
            ≡ after_arrive (Ok result) (regs_of self.old) r }
        ensures heard_log { OnHeard (Ok result) (self.new.log ≡ In frame.now written.now
            ∷ self.old.log) }
        ensures heard_memory { OnHeard (Ok result)
            (IsReceived mem.old mem.new (receive_head (regs_of self.old)) written.now) }
        ensures unheard_log { OnUnheard (Ok result) (self.new.log ≡ self.old.log) }
        ensures unheard_memory { OnUnheard (Ok result) (mem.new ≡ mem.old) }
    {
        let verdict = self.verdict(frame);
        match verdict {
            Verdict::Filtered => {}
            Verdict::Missed => self.miss(),
            Verdict::Heard => self.hear(frame, written, mem),
        }
        verdict
    }

    pub(crate) fn transmit(&mut self, mem: &mut Mem) -> bool
        requires { IsTrue (can_transmit (regs_of self.old))
            → MayTransmit mem.old (transmit_head (regs_of self.old)) }
        ensures sent { result ≡ can_transmit (regs_of self.old) }
        ensures registers { (r : Reg) → regs_of self.new r
            ≡ after_transmit (Ok result) (regs_of self.old) r }
        ensures sent_log { OnSent (Ok result) (self.new.log
            ≡ Out (frame_at mem.old (transmit_head (regs_of self.old))) ∷ self.old.log) }
        ensures sent_memory { OnSent (Ok result)
            (IsTransmitted mem.old mem.new (transmit_head (regs_of self.old))) }
        ensures unsent_log { OnUnsent (Ok result) (self.new.log ≡ self.old.log) }
        ensures unsent_memory { OnUnsent (Ok result) (mem.new ≡ mem.old) }
    {
        if !self.can_transmit() {
            return false;
        }
        self.send(mem);
        true
    }
}
