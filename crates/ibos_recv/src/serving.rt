//! The receive bell.
ghost use Rattle.std.specs.Prelude.{◌≡◌, ◌≢◌, ◌+◌, ◌<◌, ◌≤◌, ◌↔◌, ◌++◌, [], ◌∷◌, ℕ, List, length};
ghost use Rattle.std.specs.Prelude.{None, IfOk, OnOk};
ghost use Rattle.std.specs.List.{filter};
ghost use Rattle.ibos_kinds.specs.declared.names.Instance.{Instance};
ghost use Rattle.ibos_kinds.specs.declared.outcome.Item.TheVariants.{LentIs};
ghost use Rattle.ibos_kinds.specs.declared.party.Party.TheVariants.{Page};
ghost use Rattle.ibos_kinds.specs.Bells.{aim_of, frames_in, heard_item, unread_then};
ghost use Rattle.ibos_kinds.specs.Parties.{is_to};
ghost use Rattle.ibos_pool.specs.declared.name.Name.{Name};
ghost use Rattle.ibos_pool.specs.declared.name.Ring.{Ring};
ghost use Rattle.ibos_pool.specs.declared.name.Ring.TheVariants.{Receive};
ghost use Rattle.ibos_pool.specs.Hands.{AreAtHand};
ghost use Rattle.ibos_pool.specs.Memory.{bytes_at};
ghost use Rattle.ibos_pool.specs.Names.{Held, place_of};
ghost use Rattle.ibos_pool.specs.Places.{address_of};
ghost use Rattle.ibos_pool.specs.Sizes.{buffer_bytes};
ghost use Rattle.ibos_nic.specs.Registers.{Registers};
ghost use Rattle.ibos_mediate.specs.Frames.{after_bell, arrivals, unsent_frames};
ghost use Rattle.ibos_mediate.specs.Mediated.{ring_of};
ghost use Rattle.ibos_mediate.specs.Relation.{AreOwned, AreUnheld, IsAtDevice, IsInMemory};
ghost use Rattle.ibos_mediate.specs.Relation.{completed};
ghost use Rattle.ibos_flow.specs.Flows.{bound_by};
ghost use Rattle.ibos_recv.specs.Inboxes.{as_placed, frames_of, held_in, inbox_by, unread_of};
ghost use Rattle.ibos_recv.specs.Serves.{IsServed, IsSpent, bell_over, landing};

use crate::inbox::BUFFERS;
use crate::inboxes::Inboxes;
use crate::laws::bells_agree;
use ibos_flow::{FlowTable, read_in};
use ibos_kinds::{Bytes, Handle, Instance, Item, Local, Memory, Outcome, Rule};
use ibos_mediate::{
    Mediator, bells_end, frames_are_counted, gifts_keep_the_relation,
    other_changes_keep_the_frames, takes_end_a_frame,
};
use ibos_pool::{Loan, Mem, Pool};
use std::alloc::Global;

/// Takes back every receive descriptor that the device is done with, in order, and appends the
/// items of a receive bell: for each frame first the buffer's new handle, and then the frame for
/// the instance that it belongs to, which has it in its inbox from now on, or the first rule that
/// keeps it from there. The rules are F1, F2, F4 to F13 and F14, in this order.
///
/// No byte of the memory is written: a frame passes to its inbox with its place. The receive
/// buffer's name gets the place of the inbox's free buffer, and is free. A frame that is dropped
/// leaves all places as they were.
///
/// After want of memory some descriptors were taken back and others not, `out` has some of the
/// items, and inboxes some of the frames.
pub fn serve(
    alloc: Global,
    local: &Local,
    med: &mut Mediator,
    pool: &mut Pool,
    mem: &mut Mem,
    flows: &FlowTable,
    inboxes: &mut Inboxes,
    out: &mut Outcome,
) -> Result<(), Memory>
    requires memory { IsInMemory med.old mem.old }
    requires owned { (ring : Ring) → AreOwned ring (ring_of med.old ring) pool.old }
    requires unheld { AreUnheld med.old pool.old mem.old }
    requires hands { AreAtHand pool.old mem.old (held_in inboxes.old) }
    requires beside { (p : Instance) → bound_by flows.now p ≢ None → inbox_by inboxes.old p ≢ None }
    ensures head { out.new.head ≡ out.old.head }
    ensures items { OnOk result (out.new.items ≡ out.old.items ++ bell_over local.now
        (bound_by flows.now) (unread_of inboxes.old) (arrivals mem.old med.old)) }
    ensures frames { OnOk result ((p : Instance) → frames_of mem.new inboxes.new p
        ≡ frames_of mem.old inboxes.old p ++ frames_in (filter (is_to (Page p)) (bell_over local.now
        (bound_by flows.now) (unread_of inboxes.old) (arrivals mem.old med.old)))) }
    ensures dropped { OnOk result (frames_in (bell_over local.now (bound_by flows.now)
        (unread_of inboxes.old) (arrivals mem.old med.old)) ≡ []
        → (name : Name) → place_of pool.new name ≡ place_of pool.old name) }
    ensures bell { OnOk result (med.new ≡ after_bell Receive mem.old med.old) }
    ensures arrivals { OnOk result (arrivals mem.new med.new ≡ []) }
    ensures done { (ring : Ring) → completed ring mem.new (ring_of med.new ring)
        ≡ completed ring mem.old (ring_of med.old ring) }
    ensures transmit { med.new.transmit ≡ med.old.transmit }
    ensures unsent { unsent_frames mem.new med.new.transmit
        ≡ unsent_frames mem.old med.old.transmit }
    ensures open { (p : Instance) → (inbox_by inboxes.new p ≡ None)
        ↔ (inbox_by inboxes.old p ≡ None) }
    ensures held { held_in inboxes.new ≡ as_placed pool.new (held_in inboxes.old) }
    ensures memory { IsInMemory med.new mem.new }
    ensures device { (regs : Registers) → IsAtDevice med.old mem.old regs
        → IsAtDevice med.new mem.new regs }
    ensures owned { (ring : Ring) → AreOwned ring (ring_of med.new ring) pool.new }
    ensures unheld { AreUnheld med.new pool.new mem.new }
    ensures hands { (more : List Held) → AreAtHand pool.old mem.old (held_in inboxes.old ++ more)
        → AreAtHand pool.new mem.new (held_in inboxes.new ++ more) }
    ensures served { IsServed (held_in inboxes.old) pool.old pool.new mem.old mem.new }
{
    // cited for their clauses
    other_changes_keep_the_frames();
    gifts_keep_the_relation();
    frames_are_counted();
    takes_end_a_frame();
    bells_end();
    bells_agree();
    'served: while let Some((handle, loan, len)) = med.rx_take(pool, mem) {
        tell(
            alloc, local, handle, loan, len, pool, mem, flows, inboxes, out,
        )?;
    }
    Ok(())
}

// Appends what a bell tells of one frame, which passes to the inbox that it is for, and gives the
// loan to the pool.
fn tell(
    alloc: Global,
    local: &Local,
    handle: Handle,
    loan: Loan,
    len: u16,
    pool: &mut Pool,
    mem: &Mem,
    flows: &FlowTable,
    inboxes: &mut Inboxes,
    out: &mut Outcome,
) -> Result<(), Memory>
    requires size { len ≤ buffer_bytes }
    requires hands { AreAtHand pool.old mem.now (loan ∷ held_in inboxes.old) }
    requires beside { (p : Instance) → bound_by flows.now p ≢ None → inbox_by inboxes.old p ≢ None }
    ensures head { out.new.head ≡ out.old.head }
    ensures items { OnOk result (out.new.items ≡ out.old.items ++ LentIs handle
        ∷ heard_item (bound_by flows.now) (unread_of inboxes.old)
        (bytes_at mem.now (address_of loan.place) len)
        (aim_of local.now (bytes_at mem.now (address_of loan.place) len)) ∷ []) }
    ensures unread { OnOk result ((p : Instance) → unread_of inboxes.new p
        ≡ unread_then (bound_by flows.now) (unread_of inboxes.old)
        (aim_of local.now (bytes_at mem.now (address_of loan.place) len)) p) }
    ensures frames { OnOk result ((p : Instance) → frames_of mem.now inboxes.new p
        ≡ frames_of mem.now inboxes.old p ++ frames_in (filter (is_to (Page p))
        (heard_item (bound_by flows.now) (unread_of inboxes.old)
        (bytes_at mem.now (address_of loan.place) len)
        (aim_of local.now (bytes_at mem.now (address_of loan.place) len)) ∷ []))) }
    ensures open { (p : Instance) → (inbox_by inboxes.new p ≡ None)
        ↔ (inbox_by inboxes.old p ≡ None) }
    ensures spent { IsSpent (landing (bound_by flows.now) (unread_of inboxes.old)
        (aim_of local.now (bytes_at mem.now (address_of loan.place) len))) loan
        (held_in inboxes.old) (held_in inboxes.new) pool.old pool.new }
{
    let item = hear(alloc, local, loan, len, pool, mem, flows, inboxes)?;
    out.push(Item::LentIs { handle })?;
    out.push(item)?;
    Ok(())
}

// The item of a frame. Its buffer passes to the inbox that it is for, and its name is free then.
fn hear(
    alloc: Global,
    local: &Local,
    loan: Loan,
    len: u16,
    pool: &mut Pool,
    mem: &Mem,
    flows: &FlowTable,
    inboxes: &mut Inboxes,
) -> Result<Item, Memory>
    requires size { len ≤ buffer_bytes }
    requires hands { AreAtHand pool.old mem.now (loan ∷ held_in inboxes.old) }
    requires beside { (p : Instance) → bound_by flows.now p ≢ None → inbox_by inboxes.old p ≢ None }
    ensures item { IfOk result (λ item. item ≡ heard_item (bound_by flows.now)
        (unread_of inboxes.old) (bytes_at mem.now (address_of loan.place) len)
        (aim_of local.now (bytes_at mem.now (address_of loan.place) len))) }
    ensures unread { OnOk result ((p : Instance) → unread_of inboxes.new p
        ≡ unread_then (bound_by flows.now) (unread_of inboxes.old)
        (aim_of local.now (bytes_at mem.now (address_of loan.place) len)) p) }
    ensures frames { OnOk result ((p : Instance) → frames_of mem.now inboxes.new p
        ≡ frames_of mem.now inboxes.old p ++ frames_in (filter (is_to (Page p))
        (heard_item (bound_by flows.now) (unread_of inboxes.old)
        (bytes_at mem.now (address_of loan.place) len)
        (aim_of local.now (bytes_at mem.now (address_of loan.place) len)) ∷ []))) }
    ensures open { (p : Instance) → (inbox_by inboxes.new p ≡ None)
        ↔ (inbox_by inboxes.old p ≡ None) }
    ensures spent { IsSpent (landing (bound_by flows.now) (unread_of inboxes.old)
        (aim_of local.now (bytes_at mem.now (address_of loan.place) len))) loan
        (held_in inboxes.old) (held_in inboxes.new) pool.old pool.new }
{
    let frame = &mem.bytes(&loan)[..usize::from(len)];
    match land(local, frame, flows, inboxes) {
        Ok((who, flow)) => {
            let bytes = Bytes::from_slice(alloc, frame);
            let loan = inboxes.push(who, loan, len, pool);
            pool.give(loan);
            Ok(Item::Arrived {
                who,
                flow,
                bytes: bytes?,
            })
        }
        Err(rule) => {
            pool.give(loan);
            Ok(Item::Dropped { rule })
        }
    }
}

// The instance and the flow that a frame is for, where there is room for it.
fn land(
    local: &Local,
    frame: &[u8],
    flows: &FlowTable,
    inboxes: &Inboxes,
) -> Result<(Instance, u8), Rule>
    requires { (p : Instance) → bound_by flows.now p ≢ None → inbox_by inboxes.now p ≢ None }
    ensures answer { result ≡ landing (bound_by flows.now) (unread_of inboxes.now)
        (aim_of local.now frame.now) }
    ensures open { IfOk result (λ r. inbox_by inboxes.now r.0 ≢ None) }
    ensures room { IfOk result (λ r. unread_of inboxes.now r.0 < 16) }
{
    let heading = read_in(local, frame)?;
    let (who, flow) = flows.find(&heading)?;
    if usize::from(inboxes.unread(who)) == BUFFERS {
        return Err(Rule::F14);
    }
    Ok((who, flow))
}
