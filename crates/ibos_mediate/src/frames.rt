//! Laws about what the rings have to tell: frames are received and sent in their order, and each
//! once.
ghost use Rattle.std.specs.Prelude.{◌≡◌, ◌≢◌, ◌+◌, ◌<◌, ◌≤◌, List, ℕ, [], ◌∷◌, ◌++◌, false, true};
ghost use Rattle.std.specs.Prelude.{length, map};
ghost use Rattle.ibos_kinds.specs.declared.names.Verdict.TheVariants.{Heard};
ghost use Rattle.ibos_pool.specs.declared.name.Ring.{Ring};
ghost use Rattle.ibos_pool.specs.declared.name.Ring.TheVariants.{Receive, Transmit};
ghost use Rattle.ibos_pool.specs.declared.place.Place.{Place};
ghost use Rattle.ibos_pool.specs.Memory.{IsKept, IsLent, IsMarked, Memory as Areas, buffer_at};
ghost use Rattle.ibos_pool.specs.Memory.{bytes_at, slot_at};
ghost use Rattle.ibos_pool.specs.Names.{Held, Names};
ghost use Rattle.ibos_pool.specs.Places.{address_of};
ghost use Rattle.ibos_pool.specs.Sizes.{buffer_bytes, room_slots};
ghost use Rattle.ibos_nic.specs.declared.reg.Reg.{Reg};
ghost use Rattle.ibos_nic.specs.Descriptors.{rx_bytes, tx_bytes};
ghost use Rattle.ibos_nic.specs.Device.{IsReceived, IsTransmitted, frame_at, verdict_of};
ghost use Rattle.ibos_nic.specs.Registers.{Registers, can_transmit, receive_head, transmit_head};
ghost use Rattle.ibos_nic.specs.Rings.{Posts, Takes};
ghost use Rattle.ibos_mediate.specs.Changes.{after_writing, changed, ring_changed};
ghost use Rattle.ibos_mediate.specs.Frames.{Arrival, after_bell, arrival_at, arrivals, handle_for};
ghost use Rattle.ibos_mediate.specs.Frames.{received_bytes, received_frames, returns, taken_back};
ghost use Rattle.ibos_mediate.specs.Frames.{unsent_frames};
ghost use Rattle.ibos_mediate.specs.Mediated.{IsBalanced, Mediated, RingView, ring_of};
ghost use Rattle.ibos_mediate.specs.Posts.{IsPosted};
ghost use Rattle.ibos_mediate.specs.Relation.{AreOwned, IsAtDevice, IsInMemory, completed};
ghost use Rattle.ibos_mediate.specs.Relation.{descriptor_at, held_for, posted_rx, posted_tx};

use ibos_nic::descriptors_are_their_bytes;
use ibos_pool::{parts_are_apart, ranges_are_lists};

/// What is received and not taken back, and what is posted and not sent, tell how far the device
/// is.
pub fn frames_are_counted()
    ensures received { (mem : Areas) (r : RingView)
        → completed Receive mem r ≡ r.values.taken + length (received_frames mem r) }
    ensures unsent { (mem : Areas) (r : RingView) → IsBalanced r
        → completed Transmit mem r + length (unsent_frames mem r) ≡ r.values.posted }
    ensures arrivals { (mem : Areas) (m : Mediated)
        → completed Receive mem m.receive ≡ m.receive.values.taken + length (arrivals mem m) }
    ensures bytes { (mem : Areas) (m : Mediated) → map (λ (a : Arrival). a.bytes)
        (arrivals mem m) ≡ received_frames mem m.receive }
    ensures returns { (mem : Areas) (r : RingView)
        → completed Transmit mem r ≡ r.values.taken + length (returns mem r) }
{}

/// A frame that is heard completes one more descriptor. It is the last of those received, under the
/// handle that its buffer will have, and none that is to be sent changes.
pub fn arrivals_add_a_frame()
    ensures counted { (m : Mediated) (mem mem' : Areas) (regs : Registers) (frame written : List ℕ)
        → IsInMemory m mem → IsAtDevice m mem regs → Heard ≡ verdict_of regs frame
        → IsReceived mem mem' (receive_head regs) written
        → completed Receive mem' m.receive ≡ completed Receive mem m.receive + 1 }
    ensures received { (m : Mediated) (mem mem' : Areas) (regs : Registers) (frame written : List ℕ)
        → IsInMemory m mem → IsAtDevice m mem regs → Heard ≡ verdict_of regs frame
        → IsReceived mem mem' (receive_head regs) written
        → received_frames mem' m.receive ≡ received_frames mem m.receive ++ written ∷ [] }
    ensures arrivals { (m : Mediated) (mem mem' : Areas) (regs : Registers) (frame written : List ℕ)
        → IsInMemory m mem → IsAtDevice m mem regs → Heard ≡ verdict_of regs frame
        → IsReceived mem mem' (receive_head regs) written
        → arrivals mem' m ≡ arrivals mem m ++ record {
          handle = handle_for m (completed Receive mem m.receive);
          bytes = written;
        } ∷ [] }
    ensures unsent { (m : Mediated) (mem mem' : Areas) (regs : Registers) (frame written : List ℕ)
        → IsInMemory m mem → IsAtDevice m mem regs → Heard ≡ verdict_of regs frame
        → IsReceived mem mem' (receive_head regs) written
        → unsent_frames mem' m.transmit ≡ unsent_frames mem m.transmit }
{
    descriptors_are_their_bytes();
    parts_are_apart();
}

/// A frame that is sent completes one more descriptor. It is the first of those posted, and none
/// that was received changes.
pub fn transmissions_end_a_frame()
    ensures counted { (m : Mediated) (mem mem' : Areas) (regs : Registers) → IsInMemory m mem
        → IsAtDevice m mem regs → true ≡ can_transmit regs
        → IsTransmitted mem mem' (transmit_head regs)
        → completed Transmit mem' m.transmit ≡ completed Transmit mem m.transmit + 1 }
    ensures unsent { (m : Mediated) (mem mem' : Areas) (regs : Registers) → IsInMemory m mem
        → IsAtDevice m mem regs → true ≡ can_transmit regs
        → IsTransmitted mem mem' (transmit_head regs)
        → unsent_frames mem m.transmit ≡ frame_at mem (transmit_head regs)
        ∷ unsent_frames mem' m.transmit }
    ensures received { (m : Mediated) (mem mem' : Areas) (regs : Registers) → IsInMemory m mem
        → IsAtDevice m mem regs → true ≡ can_transmit regs
        → IsTransmitted mem mem' (transmit_head regs)
        → received_frames mem' m.receive ≡ received_frames mem m.receive }
    ensures arrivals { (m : Mediated) (mem mem' : Areas) (regs : Registers) → IsInMemory m mem
        → IsAtDevice m mem regs → true ≡ can_transmit regs
        → IsTransmitted mem mem' (transmit_head regs) → arrivals mem' m ≡ arrivals mem m }
{
    descriptors_are_their_bytes();
    parts_are_apart();
}

/// A receive buffer that is posted changes no frame. A transmit buffer that is posted has the last
/// frame to be sent.
pub fn posts_add_a_frame()
    ensures receive_received { (m : Mediated) (mem mem' : Areas) (h : Held) → IsInMemory m mem
        → IsInMemory (changed Receive (Posts h) m) mem'
        → IsPosted mem mem' (descriptor_at Receive m.receive.values.posted)
        (rx_bytes (posted_rx (address_of h.place))) h.place
        → received_frames mem' (ring_changed m.receive (Posts h)) ≡ received_frames mem m.receive }
    ensures receive_arrivals { (m : Mediated) (mem mem' : Areas) (h : Held) → IsInMemory m mem
        → IsInMemory (changed Receive (Posts h) m) mem'
        → IsPosted mem mem' (descriptor_at Receive m.receive.values.posted)
        (rx_bytes (posted_rx (address_of h.place))) h.place
        → arrivals mem' (changed Receive (Posts h) m) ≡ arrivals mem m }
    ensures receive_unsent { (m : Mediated) (mem mem' : Areas) (h : Held) → IsInMemory m mem
        → IsInMemory (changed Receive (Posts h) m) mem'
        → IsPosted mem mem' (descriptor_at Receive m.receive.values.posted)
        (rx_bytes (posted_rx (address_of h.place))) h.place
        → unsent_frames mem' m.transmit ≡ unsent_frames mem m.transmit }
    ensures transmit_received { (m : Mediated) (mem mem' : Areas) (h : Held) (len : ℕ)
        → IsInMemory m mem → IsInMemory (changed Transmit (Posts h) m) mem'
        → IsPosted mem mem' (descriptor_at Transmit m.transmit.values.posted)
        (tx_bytes (posted_tx (address_of h.place) len)) h.place
        → received_frames mem' m.receive ≡ received_frames mem m.receive }
    ensures transmit_arrivals { (m : Mediated) (mem mem' : Areas) (h : Held) (len : ℕ)
        → IsInMemory m mem → IsInMemory (changed Transmit (Posts h) m) mem'
        → IsPosted mem mem' (descriptor_at Transmit m.transmit.values.posted)
        (tx_bytes (posted_tx (address_of h.place) len)) h.place
        → arrivals mem' (changed Transmit (Posts h) m) ≡ arrivals mem m }
    ensures transmit_unsent { (m : Mediated) (mem mem' : Areas) (h : Held) (len : ℕ)
        → IsInMemory m mem → IsInMemory (changed Transmit (Posts h) m) mem' → IsKept mem h.place
        → len ≤ buffer_bytes → IsPosted mem mem' (descriptor_at Transmit m.transmit.values.posted)
        (tx_bytes (posted_tx (address_of h.place) len)) h.place
        → unsent_frames mem' (ring_changed m.transmit (Posts h)) ≡ unsent_frames mem m.transmit
        ++ bytes_at mem (address_of h.place) len ∷ [] }
{
    descriptors_are_their_bytes();
    parts_are_apart();
}

/// A receive buffer that is taken back has the first frame received. A transmit buffer that is
/// taken back changes none.
pub fn takes_end_a_frame()
    ensures receive_received { (m : Mediated) (mem mem' : Areas) (p : Place) → IsInMemory m mem
        → completed Receive mem m.receive ≢ m.receive.values.taken → IsMarked mem mem' p false
        → received_frames mem m.receive ≡ received_bytes mem m.receive m.receive.values.taken
        ∷ received_frames mem' (ring_changed m.receive Takes) }
    ensures receive_arrivals { (m : Mediated) (mem mem' : Areas) (names : Names) (p : Place)
        → IsInMemory m mem → AreOwned Receive m.receive names
        → completed Receive mem m.receive ≢ m.receive.values.taken → IsMarked mem mem' p false
        → arrivals mem m ≡ arrival_at mem m m.receive.values.taken
        ∷ arrivals mem' (taken_back Receive m) }
    ensures receive_unsent { (m : Mediated) (mem mem' : Areas) (p : Place) → IsInMemory m mem
        → IsMarked mem mem' p false → unsent_frames mem' m.transmit ≡ unsent_frames mem m.transmit }
    ensures transmit_received { (m : Mediated) (mem mem' : Areas) (p : Place) → IsInMemory m mem
        → IsMarked mem mem' p false → received_frames mem' m.receive
        ≡ received_frames mem m.receive }
    ensures transmit_arrivals { (m : Mediated) (mem mem' : Areas) (p : Place) → IsInMemory m mem
        → IsMarked mem mem' p false → arrivals mem' m ≡ arrivals mem m }
    ensures transmit_unsent { (m : Mediated) (mem mem' : Areas) (p : Place) → IsInMemory m mem
        → completed Transmit mem m.transmit ≢ m.transmit.values.taken → IsMarked mem mem' p false
        → unsent_frames mem' (ring_changed m.transmit Takes) ≡ unsent_frames mem m.transmit }
    ensures transmit_returns { (m : Mediated) (mem mem' : Areas) (p : Place)
        → completed Transmit mem m.transmit ≢ m.transmit.values.taken → IsMarked mem mem' p false
        → returns mem m.transmit ≡ held_for m.transmit m.transmit.values.taken
        ∷ returns mem' (ring_changed m.transmit Takes) }
{}

/// Taking one after the other back ends in one mediator, whatever changes in memory beside: a bell
/// is done where the device is done with no descriptor that was not taken back.
pub fn bells_end()
    ensures ends { (ring : Ring) (mem : Areas) (m : Mediated)
        → completed ring mem (ring_of m ring) ≡ (ring_of m ring).values.taken
        → after_bell ring mem m ≡ m }
    ensures arrivals { (mem : Areas) (m : Mediated)
        → completed Receive mem m.receive ≡ m.receive.values.taken → arrivals mem m ≡ [] }
    ensures returns { (mem : Areas) (r : RingView) → completed Transmit mem r ≡ r.values.taken
        → returns mem r ≡ [] }
    ensures goes_on { (ring : Ring) (mem mem' : Areas) (m : Mediated) (p : Place)
        → completed ring mem (ring_of m ring) ≢ (ring_of m ring).values.taken
        → IsMarked mem mem' p false → after_bell ring mem' (taken_back ring m)
        ≡ after_bell ring mem m }
    ensures others { (ring : Ring) (mem mem' : Areas) (m : Mediated) → ((one : Ring) (slot : ℕ)
        → slot < room_slots → slot_at mem' one slot ≡ slot_at mem one slot)
        → after_bell ring mem' m ≡ after_bell ring mem m }
{}

/// A write to a register changes no frame, nor does what leaves the descriptors and the lent
/// buffers.
pub fn other_changes_keep_the_frames()
    ensures written_received { (m : Mediated) (mem : Areas) (reg : Reg) (value : ℕ)
        → received_frames mem (after_writing reg value m).receive ≡ received_frames mem m.receive }
    ensures written_unsent { (m : Mediated) (mem : Areas) (reg : Reg) (value : ℕ)
        → unsent_frames mem (after_writing reg value m).transmit ≡ unsent_frames mem m.transmit }
    ensures written_arrivals { (m : Mediated) (mem : Areas) (reg : Reg) (value : ℕ)
        → arrivals mem (after_writing reg value m) ≡ arrivals mem m }
    ensures received { (m : Mediated) (mem mem' : Areas) → IsInMemory m mem
        → ((ring : Ring) (slot : ℕ) → slot < room_slots
        → slot_at mem' ring slot ≡ slot_at mem ring slot) → ((p : Place) → IsLent mem p
        → buffer_at mem' p ≡ buffer_at mem p) → received_frames mem' m.receive
        ≡ received_frames mem m.receive }
    ensures arrivals { (m : Mediated) (mem mem' : Areas) → IsInMemory m mem
        → ((ring : Ring) (slot : ℕ) → slot < room_slots
        → slot_at mem' ring slot ≡ slot_at mem ring slot) → ((p : Place) → IsLent mem p
        → buffer_at mem' p ≡ buffer_at mem p) → arrivals mem' m ≡ arrivals mem m }
    ensures unsent { (m : Mediated) (mem mem' : Areas) → IsInMemory m mem
        → ((ring : Ring) (slot : ℕ) → slot < room_slots
        → slot_at mem' ring slot ≡ slot_at mem ring slot) → ((p : Place) → IsLent mem p
        → buffer_at mem' p ≡ buffer_at mem p) → unsent_frames mem' m.transmit
        ≡ unsent_frames mem m.transmit }
    ensures completed { (mem mem' : Areas) (ring : Ring) (r : RingView) → ((one : Ring) (slot : ℕ)
        → slot < room_slots → slot_at mem' one slot ≡ slot_at mem one slot)
        → completed ring mem' r ≡ completed ring mem r }
    ensures returns { (mem mem' : Areas) (r : RingView) → ((one : Ring) (slot : ℕ)
        → slot < room_slots → slot_at mem' one slot ≡ slot_at mem one slot)
        → returns mem' r ≡ returns mem r }
{
    ranges_are_lists();
}
