//! The transmit buffers and the sends of all instances.
ghost use Rattle.std.specs.Prelude.{◌≡◌, ◌≢◌, ◌+◌, ◌<◌, ◌≤◌, ◌^◌, ◌⊎◌, ◌++◌, [], ◌∷◌, ℕ, List};
ghost use Rattle.std.specs.Prelude.{Bool, length, take, slice_set, if◌then◌else◌, true, false};
ghost use Rattle.std.specs.Prelude.{None, Some};
ghost use Rattle.std.specs.Prelude.{slice_get, IfErr, IfOk, IfSome, OnOk, OnErr};
ghost use Rattle.std.specs.List.{All};
ghost use Rattle.ibos_kinds.specs.declared.names.Instance.{Instance};
ghost use Rattle.ibos_kinds.specs.declared.outcome.Item.TheVariants.{Accepted, SendIs};
ghost use Rattle.ibos_kinds.specs.Limits.{IsNamed};
ghost use Rattle.ibos_kinds.specs.Sends.{Send, fill_rule, overlaid, returned_items, submit_rule};
ghost use Rattle.ibos_pool.specs.declared.name.Name.{Name};
ghost use Rattle.ibos_pool.specs.declared.name.Ring.{Ring};
ghost use Rattle.ibos_pool.specs.declared.name.Ring.TheVariants.{Transmit};
ghost use Rattle.ibos_pool.specs.declared.place.Place.{Place};
ghost use Rattle.ibos_pool.specs.Hands.{AreAtHand, has_name, has_place};
ghost use Rattle.ibos_pool.specs.Memory.{IsKept, Memory as Areas, buffer_at, bytes_at, is_lent_at};
ghost use Rattle.ibos_pool.specs.Names.{Held, IsOneToOne, Names, is_taken, place_of};
ghost use Rattle.ibos_pool.specs.Places.{IsApart, IsPlaceIn, same_place, slot_address};
ghost use Rattle.ibos_pool.specs.Sizes.{buffer_bytes, descriptor_bytes};
ghost use Rattle.ibos_nic.specs.Registers.{Registers};
ghost use Rattle.ibos_nic.specs.Rings.{Posts};
ghost use Rattle.ibos_nic.specs.Rules.{transmit_rule};
ghost use Rattle.ibos_mediate.specs.Changes.{changed};
ghost use Rattle.ibos_mediate.specs.Frames.{after_bell, arrivals, received_frames, returns};
ghost use Rattle.ibos_mediate.specs.Frames.{unsent_frames};
ghost use Rattle.ibos_mediate.specs.Mediated.{Mediated, ring_of};
ghost use Rattle.ibos_mediate.specs.Relation.{AreOwned, AreUnheldBut, IsAtDevice, IsInMemory};
ghost use Rattle.ibos_mediate.specs.Relation.{MediatesBut, completed};
ghost use Rattle.ibos_flow.specs.Flows.{bound_by};
ghost use Rattle.ibos_send.specs.Buffers.{AreFreshIn, AreHeld, AreReturned, IsFresh, bytes_of};
ghost use Rattle.ibos_send.specs.Buffers.{held_of, homes_of, is_transmit_name, new_homes, size_of};
ghost use Rattle.ibos_send.specs.Returns.{AreAllAway, AreFilled, IsSendOf, IsServed, after_returns};
ghost use Rattle.ibos_send.specs.Returns.{all_left, back_since, came_back, left_then};
ghost use Rattle.ibos_send.specs.Returns.{return_items, returned_of};
ghost use Rattle.ibos_send.specs.Sends.{AreSameSends, IsInRing, OnDenied, Submits, answer_of};
ghost use Rattle.ibos_send.specs.Sends.{count_of, frame_in, held_in, home_by, homes_by, is_away};
ghost use Rattle.ibos_send.specs.Sends.{is_open, is_waiting, numbers_of, posted_in, untold_of};
ghost use Rattle.ibos_send.specs.Sends.{waiting_at};

use crate::fault::SendFault;
use crate::sending::{Post, SendList};
use crate::table::HomeTable;
use ibos_flow::{FlowTable, read_out};
use ibos_kinds::{Bytes, Instance, Item, Local, Memory, Outcome, Rule};
use ibos_mediate::{
    Mediator, bells_end, frames_are_counted, gifts_keep_the_relation,
    other_changes_keep_the_frames, parts_keep_the_whole, posts_add_a_frame, takes_end_a_frame,
};
use ibos_nic::descriptors_are_their_bytes;
use ibos_pool::{Loan, Mem, Pool, ranges_are_lists};
use std::alloc::Global;
use std::marker::Model;

/// How long a buffer is, in bytes.
const BUFFER_BYTES: usize = 2048;

// How long a frame may be that is sent, in bytes, without its check sequence.
const LEAST_FRAME: u32 = 42;

const LONGEST_FRAME: u32 = 1514;

/// The transmit buffers of the instances that were added and not ended, and the sends that were
/// accepted. They can't be dropped.
///
/// # Examples
///
/// ```
/// use ibos_kinds::{Instance, Memory, Rule};
/// use ibos_pool::{Mem, Pool};
/// use ibos_send::{Sends, areas_are_fresh};
/// use std::process::Abort;
///
/// fn add(rt: &(impl Abort + AllocGlobal)) -> Result<(), Memory> {
///     let who = Instance { tab: 5, ord: 0 };
///     let mut pool = Pool::new(rt.alloc())?;
///     let mut mem = Mem::new(rt.alloc())?;
///     pool.grow_instance()?;
///     mem.grow_instance()?;
///     // Called for what it says of the area that was added.
///     areas_are_fresh();
///     let mut sends = Sends::new(rt.alloc())?;
///     let begun = sends.begin(who, 1, &mut pool);
///     if begun.is_ok() {
///         assert_eq!(rt; sends.fill(who, 0, 2047, b"a", &mut mem), Ok(()));
///         assert_eq!(rt; sends.fill(who, 0, 2048, b"a", &mut mem), Err(Rule::N5));
///     }
///     sends.close(&mut pool);
///     begun
/// }
/// ```
pub struct Sends {
    homes: HomeTable,
    list: SendList,
}

impl Model for Sends {
    ghost use Rattle.ibos_send.specs.Sends.{Outgoing};

    ghost Value = { Outgoing };

    ghost view = { λ s. record {
      homes = s.homes;
      waiting = s.list.waiting;
      posts = s.list.posts;
      returned = s.list.returned;
      told = s.list.told;
    } };
}

impl Sends {
    /// No instance was added, and no send accepted. The table of buffers has its room from now on.
    pub fn new(alloc: Global) -> Result<Sends, Memory>
        ensures none { IfOk result (λ sends. (who : Instance) → homes_by sends who ≡ None) }
        ensures waiting { IfOk result (λ sends. sends.waiting ≡ []) }
        ensures posts { IfOk result (λ sends. sends.posts ≡ []) }
        ensures returned { IfOk result (λ sends. sends.returned ≡ 0) }
        ensures told { IfOk result (λ sends. sends.told ≡ 0) }
        ensures held { IfOk result (λ sends. held_in sends ≡ []) }
    {
        let homes = HomeTable::new(alloc)?;
        Ok(Sends {
            homes,
            list: SendList::new(alloc),
        })
    }

    /// Adds an instance, and takes the buffers that it sends from: its area's names from index 0
    /// to 3.
    pub fn begin(&mut self, who: Instance, area: u16, pool: &mut Pool) -> Result<(), Memory>
        requires named { IsNamed who }
        requires new { homes_by self.old who ≡ None }
        requires fresh { IsFresh pool.old area }
        ensures own { OnOk result (homes_by self.new who ≡ Some (new_homes pool.old area)) }
        ensures others { (q : Instance) → q ≢ who → homes_by self.new q ≡ homes_by self.old q }
        ensures sends { AreSameSends self.old self.new }
        ensures hands { OnOk result ((mem : Areas) (more : List Held)
            → AreFreshIn mem pool.old area → AreAtHand pool.old mem (held_in self.old ++ more)
            → AreAtHand pool.new mem (held_in self.new ++ more)) }
        ensures names { OnOk result ((name : Name) → is_taken pool.new name
            ≡ (if is_transmit_name area name then true else is_taken pool.old name)) }
        ensures places { (name : Name) → place_of pool.new name ≡ place_of pool.old name }
        ensures areas { length pool.new ≡ length pool.old }
        ensures whole { (m : Mediated) (mem : Areas) (regs : Registers) (out : List Held)
            → MediatesBut out m mem regs pool.old → MediatesBut out m mem regs pool.new }
        ensures err { OnErr result (self.new ≡ self.old) }
        ensures err_pool { OnErr result (pool.new ≡ pool.old) }
    {
        self.homes.begin(who, area, pool)?;
        Ok(())
    }

    /// Ends an instance, and gives its buffers that are at home to the pool. Those that are away
    /// are given when they come back.
    pub fn end(&mut self, who: Instance, pool: &mut Pool)
        requires open { homes_by self.old who ≢ None }
        requires hands { AreHeld pool.old (held_in self.old) }
        ensures own { homes_by self.new who ≡ None }
        ensures others { (q : Instance) → q ≢ who → homes_by self.new q ≡ homes_by self.old q }
        ensures sends { AreSameSends self.old self.new }
        ensures returned { AreReturned (homes_of (homes_by self.old who)) pool.old pool.new }
        ensures hands { (mem : Areas) (more : List Held)
            → AreAtHand pool.old mem (held_in self.old ++ more)
            → AreAtHand pool.new mem (held_in self.new ++ more) }
        ensures whole { (m : Mediated) (mem : Areas) (regs : Registers) (out : List Held)
            → AreAtHand pool.old mem (held_in self.old) → MediatesBut out m mem regs pool.old
            → MediatesBut out m mem regs pool.new }
    {
        self.homes.end(who, pool);
    }

    /// Writes bytes into a buffer of an instance from a place on. N3 exactly where the buffer is
    /// away; then N5 exactly where the bytes pass its end.
    pub fn fill(
        &mut self,
        who: Instance,
        buffer: u8,
        place: u32,
        bytes: &[u8],
        mem: &mut Mem,
    ) -> Result<(), Rule>
        requires open { homes_by self.old who ≢ None }
        requires buffer { buffer < 4 }
        requires hands { (names : Names) × AreAtHand names mem.old (held_in self.old) }
        ensures answer { result ≡ answer_of (fill_rule (is_away self.old who buffer) place
            (length bytes.now)) }
        ensures same { self.new ≡ self.old }
        ensures own { OnOk result (bytes_of mem.new (home_by self.old who buffer)
            ≡ overlaid place bytes.now (bytes_of mem.old (home_by self.old who buffer))) }
        ensures filled { AreFilled (held_of (home_by self.old who buffer)) mem.old mem.new }
        ensures err { OnErr result (mem.new ≡ mem.old) }
    {
        let Some(loan) = self.homes.get(who, buffer) else {
            return Err(Rule::N3);
        };
        let place = place as usize;
        if place > BUFFER_BYTES || bytes.len() > BUFFER_BYTES - place {
            return Err(Rule::N5);
        }
        overlay(mem.bytes_mut(loan), place, bytes);
        Ok(())
    }

    /// Accepts the first bytes of a buffer as the frame of a send, whose number is the count of
    /// those before. The buffer is away from then on, until a bell brings it back. It is refused
    /// with the first of N3, N4, F1 to F11, F15, F12 and F13 that it breaks.
    ///
    /// The room that the post, the sending and the return need is made. After want of memory `out`
    /// has some of the items.
    pub fn submit(
        &mut self,
        who: Instance,
        buffer: u8,
        len: u32,
        local: &Local,
        flows: &FlowTable,
        mem: &Mem,
        out: &mut Outcome,
    ) -> Result<(), SendFault>
        requires open { homes_by self.old who ≢ None }
        requires buffer { buffer < 4 }
        requires few { count_of self.old < 2 ^ 31 }
        requires hands { (names : Names) × AreAtHand names mem.now (held_in self.old) }
        ensures answer { Submits result (submit_rule local.now who (bound_by flows.now who)
            (is_away self.old who buffer) len (bytes_of mem.now (home_by self.old who buffer))) }
        ensures head { out.new.head ≡ out.old.head }
        ensures items { OnOk result (out.new.items ≡ out.old.items ++ SendIs (count_of self.old)
            ∷ Accepted (count_of self.old) who (take len
            (bytes_of mem.now (home_by self.old who buffer))) ∷ []) }
        ensures denied { OnDenied result (out.new ≡ out.old) }
        ensures waiting { OnOk result (IfSome (home_by self.old who buffer) (λ h.
            self.new.waiting ≡ self.old.waiting ++ Some (record {
              who = who;
              buffer = buffer;
              len = len;
              loan = h;
            }) ∷ [])) }
        ensures own { OnOk result (home_by self.new who buffer ≡ None) }
        ensures others { (q : Instance) (b : ℕ) → (q ≢ who) ⊎ (b ≢ buffer)
            → home_by self.new q b ≡ home_by self.old q b }
        ensures open { (q : Instance) → is_open self.new q ≡ is_open self.old q }
        ensures sizes { (q : Instance) → size_of (homes_by self.new q)
            ≡ size_of (homes_by self.old q) }
        ensures posts { self.new.posts ≡ self.old.posts }
        ensures returned { self.new.returned ≡ self.old.returned }
        ensures told { self.new.told ≡ self.old.told }
        ensures hands { (names : Names) (mem : Areas) (more : List Held)
            → AreAtHand names mem (held_in self.old ++ more)
            → AreAtHand names mem (held_in self.new ++ more) }
        ensures err { OnErr result (self.new ≡ self.old) }
    {
        let Some(loan) = self.homes.get(who, buffer) else {
            return Err(SendFault::Denied(Rule::N3));
        };
        let bytes = mem.bytes(loan);
        let len = match check(who, bytes, len, local, flows) {
            Ok(len) => len,
            Err(rule) => return Err(SendFault::Denied(rule)),
        };
        let alloc = self.list.allocator();
        tell(
            alloc,
            self.list.count(),
            who,
            &bytes[..usize::from(len)],
            out,
        )?;
        self.list.accept(who, buffer, len, &mut self.homes)?;
        Ok(())
    }

    /// Posts an accepted send at a slot of the transmit ring: its frame is exactly what was
    /// accepted. It is refused with the first of M8, M7, M5 and M6 that it breaks; M6 exactly
    /// where no accepted send has the number, or it was posted.
    pub fn post(
        &mut self,
        slot: u32,
        send: u32,
        med: &mut Mediator,
        mem: &mut Mem,
    ) -> Result<(), Rule>
        requires memory { IsInMemory med.old mem.old }
        requires ring { IsInRing self.old med.old }
        requires hands { (names : Names) × AreAtHand names mem.old (held_in self.old) }
        ensures answer { result ≡ answer_of (transmit_rule med.old.transmit.values
            (is_waiting self.old send) slot) }
        ensures homes { self.new.homes ≡ self.old.homes }
        ensures waiting { OnOk result (self.new.waiting ≡ slice_set self.old.waiting send None) }
        ensures posts { OnOk result (IfSome (waiting_at self.old send) (λ w.
            self.new.posts ≡ self.old.posts ++ record {
              number = send;
              who = w.who;
              buffer = w.buffer;
            } ∷ [])) }
        ensures returned { self.new.returned ≡ self.old.returned }
        ensures told { self.new.told ≡ self.old.told }
        ensures posted { OnOk result (IfSome (waiting_at self.old send) (λ w.
            med.new ≡ changed Transmit (Posts w.loan) med.old)) }
        ensures unsent { OnOk result (IfSome (waiting_at self.old send) (λ w.
            unsent_frames mem.new med.new.transmit ≡ unsent_frames mem.old med.old.transmit
            ++ frame_in mem.old w ∷ [])) }
        ensures received { received_frames mem.new med.new.receive
            ≡ received_frames mem.old med.old.receive }
        ensures arrivals { arrivals mem.new med.new ≡ arrivals mem.old med.old }
        ensures done { (ring : Ring) → completed ring mem.new (ring_of med.new ring)
            ≡ completed ring mem.old (ring_of med.old ring) }
        ensures bytes { (from n : ℕ) → IsApart from n (slot_address Transmit slot) descriptor_bytes
            → bytes_at mem.new from n ≡ bytes_at mem.old from n }
        ensures lent { OnOk result (IfSome (waiting_at self.old send) (λ w. (p : Place)
            → is_lent_at mem.new p
            ≡ (if same_place p w.loan.place then true else is_lent_at mem.old p))) }
        ensures buffers { (p : Place) → IsPlaceIn (length mem.old) p
            → buffer_at mem.new p ≡ buffer_at mem.old p }
        ensures areas { length mem.new ≡ length mem.old }
        ensures ring { IsInRing self.new med.new }
        ensures memory { IsInMemory med.new mem.new }
        ensures device { (regs : Registers) → IsAtDevice med.old mem.old regs
            → IsAtDevice med.new mem.new regs }
        ensures owned { (names : Names) → IsOneToOne names
            → AreAtHand names mem.old (held_in self.old) → (ring : Ring)
            → AreOwned ring (ring_of med.old ring) names
            → AreOwned ring (ring_of med.new ring) names }
        ensures unheld { (names : Names) (out : List Held) → IsOneToOne names
            → AreAtHand names mem.old (held_in self.old) → AreUnheldBut out med.old names mem.old
            → AreUnheldBut out med.new names mem.new }
        ensures hands { (names : Names) (more : List Held)
            → AreAtHand names mem.old (held_in self.old ++ more)
            → AreAtHand names mem.new (held_in self.new ++ more) }
        ensures err { OnErr result (self.new ≡ self.old) }
        ensures err_mediator { OnErr result (med.new ≡ med.old) }
        ensures err_memory { OnErr result (mem.new ≡ mem.old) }
    {
        // cited for their clauses
        posts_add_a_frame();
        frames_are_counted();
        parts_keep_the_whole();
        descriptors_are_their_bytes();
        ranges_are_lists();
        med.tx_may(slot)?;
        match self.list.post(send) {
            Some((loan, len)) => med.tx_post(loan, len, mem),
            None => return Err(Rule::M6),
        }
        Ok(())
    }

    /// The number of the oldest posted send that was not told as sent. It is told from now on.
    pub fn sent(&mut self) -> u32
        requires { untold_of self.old ≢ [] }
        ensures untold { untold_of self.old ≡ result ∷ untold_of self.new }
        ensures homes { self.new.homes ≡ self.old.homes }
        ensures waiting { self.new.waiting ≡ self.old.waiting }
        ensures posts { self.new.posts ≡ self.old.posts }
        ensures returned { self.new.returned ≡ self.old.returned }
        ensures told { self.new.told ≡ self.old.told + 1 }
        ensures held { held_in self.new ≡ held_in self.old }
    {
        self.list.tell()
    }

    /// Takes back every transmit descriptor that the device is done with, in order, and appends the
    /// items of a transmit bell: for each send first its number, and then the buffer that is its
    /// sender's again. Where the sender has ended the buffer goes to the pool, and no one is told.
    ///
    /// After want of memory some descriptors were taken back and others not, and `out` has some of
    /// the items. Each buffer that was taken back is its sender's again or the pool's then too, and
    /// all other names are taken or free as before.
    pub fn serve(
        &mut self,
        med: &mut Mediator,
        pool: &mut Pool,
        mem: &mut Mem,
        out: &mut Outcome,
    ) -> Result<(), Memory>
        requires memory { IsInMemory med.old mem.old }
        requires owned { (ring : Ring) → AreOwned ring (ring_of med.old ring) pool.old }
        requires hands { AreAtHand pool.old mem.old (held_in self.old) }
        requires ring { IsInRing self.old med.old }
        ensures head { out.new.head ≡ out.old.head }
        ensures items { OnOk result ((ended : Instance → Bool) (sends : List Send)
            → All (IsSendOf ended sends self.old) (posted_in self.old)
            → out.new.items ≡ out.old.items ++ returned_items ended sends (take
            (length (returns mem.old med.old.transmit)) (numbers_of (posted_in self.old)))) }
        ensures state { OnOk result (self.new
            ≡ after_returns self.old (returns mem.old med.old.transmit)) }
        ensures bell { OnOk result (med.new ≡ after_bell Transmit mem.old med.old) }
        ensures returns { OnOk result (returns mem.new med.new.transmit ≡ []) }
        ensures back { self.new ≡ after_returns self.old (back_since self.old self.new
            (returns mem.old med.old.transmit)) }
        ensures given { AreReturned (all_left self.old (back_since self.old self.new
            (returns mem.old med.old.transmit))) pool.old pool.new }
        ensures names { AreAllAway self.old → (name : Name)
            → has_name (returns mem.old med.old.transmit) name ≡ false
            → is_taken pool.new name ≡ is_taken pool.old name }
        ensures lent { (p : Place) → is_lent_at mem.new p ≡ (if has_place (back_since self.old
            self.new (returns mem.old med.old.transmit)) p then false else is_lent_at mem.old p) }
        ensures open { (q : Instance) → is_open self.new q ≡ is_open self.old q }
        ensures waiting { self.new.waiting ≡ self.old.waiting }
        ensures posts { self.new.posts ≡ self.old.posts }
        ensures told { self.new.told ≡ self.old.told }
        ensures done { (ring : Ring) → completed ring mem.new (ring_of med.new ring)
            ≡ completed ring mem.old (ring_of med.old ring) }
        ensures receive { med.new.receive ≡ med.old.receive }
        ensures turns { med.new.turns ≡ med.old.turns }
        ensures unsent { unsent_frames mem.new med.new.transmit
            ≡ unsent_frames mem.old med.old.transmit }
        ensures received { received_frames mem.new med.new.receive
            ≡ received_frames mem.old med.old.receive }
        ensures arrivals { arrivals mem.new med.new ≡ arrivals mem.old med.old }
        ensures ring { IsInRing self.new med.new }
        ensures memory { IsInMemory med.new mem.new }
        ensures device { (regs : Registers) → IsAtDevice med.old mem.old regs
            → IsAtDevice med.new mem.new regs }
        ensures owned { (ring : Ring) → AreOwned ring (ring_of med.new ring) pool.new }
        ensures unheld { (more : List Held) → AreUnheldBut more med.old pool.old mem.old
            → AreUnheldBut more med.new pool.new mem.new }
        ensures hands { (more : List Held) → AreAtHand pool.old mem.old (held_in self.old ++ more)
            → AreAtHand pool.new mem.new (held_in self.new ++ more) }
        ensures served { IsServed pool.old pool.new mem.old mem.new }
    {
        // cited for their clauses
        other_changes_keep_the_frames();
        frames_are_counted();
        takes_end_a_frame();
        bells_end();
        'served: while let Some(loan) = med.tx_take(mem) {
            let told = self.bring_back(loan, pool, out);
            told?;
        }
        Ok(())
    }

    // The buffer of the oldest post that did not come back does, and is told.
    fn bring_back(&mut self, loan: Loan, pool: &mut Pool, out: &mut Outcome) -> Result<(), Memory>
        requires posts { self.old.returned < length self.old.posts }
        requires hands { AreHeld pool.old (loan ∷ held_in self.old) }
        ensures state { self.new
            ≡ came_back (slice_get self.old.posts self.old.returned) loan self.old }
        ensures head { out.new.head ≡ out.old.head }
        ensures items { OnOk result (out.new.items ≡ out.old.items ++ returned_of self.old) }
        ensures open { (q : Instance) → is_open self.new q ≡ is_open self.old q }
        ensures given { AreReturned (held_of (left_then (slice_get self.old.posts
            self.old.returned) loan self.old)) pool.old pool.new }
        ensures hands { (mem : Areas) (more : List Held)
            → AreAtHand pool.old mem (loan ∷ held_in self.old ++ more)
            → AreAtHand pool.new mem (held_in self.new ++ more) }
        ensures owned { (m : Mediated) (mem : Areas) (ring : Ring) → IsInMemory m mem
            → AreAtHand pool.old mem (loan ∷ held_in self.old)
            → AreOwned ring (ring_of m ring) pool.old → AreOwned ring (ring_of m ring) pool.new }
        ensures unheld { (m : Mediated) (mem : Areas) (more : List Held)
            → AreAtHand pool.old mem (loan ∷ held_in self.old)
            → AreUnheldBut more m pool.old mem → AreUnheldBut more m pool.new mem }
    {
        let post = self.list.come_back();
        let opened = self.homes.is_open(post.who);
        let left = self.homes.put(post.who, post.buffer, loan);
        give_left(left, pool);
        tell_return(post, opened, out)?;
        Ok(())
    }

    /// Gives all buffers at hand to the pool: those at home, and those of sends that wait.
    pub fn close(self, pool: &mut Pool)
        requires { AreHeld pool.old (held_in self) }
        ensures returned { AreReturned (held_in self) pool.old pool.new }
        ensures hands { (mem : Areas) (more : List Held)
            → AreAtHand pool.old mem (held_in self ++ more) → AreAtHand pool.new mem more }
        ensures whole { (m : Mediated) (mem : Areas) (regs : Registers) (out : List Held)
            → AreAtHand pool.old mem (held_in self) → MediatesBut out m mem regs pool.old
            → MediatesBut out m mem regs pool.new }
    {
        let Sends { homes, list } = self;
        homes.close(pool);
        list.close(pool);
    }
}

// Gives a buffer to the pool, if there is one.
fn give_left(left: Option<Loan>, pool: &mut Pool)
    requires { AreHeld pool.old (held_of left) }
    ensures returned { AreReturned (held_of left) pool.old pool.new }
    ensures hands { (mem : Areas) (more : List Held) → AreAtHand pool.old mem (held_of left ++ more)
        → AreAtHand pool.new mem more }
    ensures owned { (m : Mediated) (mem : Areas) (ring : Ring) → IsInMemory m mem
        → AreAtHand pool.old mem (held_of left) → AreOwned ring (ring_of m ring) pool.old
        → AreOwned ring (ring_of m ring) pool.new }
    ensures unheld { (m : Mediated) (mem : Areas) (more : List Held)
        → AreAtHand pool.old mem (held_of left) → AreUnheldBut more m pool.old mem
        → AreUnheldBut more m pool.new mem }
{
    // cited for its clauses
    gifts_keep_the_relation();
    match left {
        Some(loan) => pool.give(loan),
        None => {}
    }
}

// Bytes over those of a buffer, from a place on.
fn overlay(buffer: &mut [u8], place: usize, bytes: &[u8])
    requires { place + length bytes.now ≤ length buffer.old }
    ensures { buffer.new ≡ overlaid place bytes.now buffer.old }
{
    buffer[place..place + bytes.len()].copy_from_slice(bytes);
}

// The length of the frame that a buffer begins with, where it breaks no rule.
fn check(
    who: Instance,
    bytes: &[u8],
    len: u32,
    local: &Local,
    flows: &FlowTable,
) -> Result<u16, Rule>
    requires { length bytes.now ≡ buffer_bytes }
    ensures ok { IfOk result (λ n. n ≡ len) }
    ensures least { IfOk result (λ n. 42 ≤ n) }
    ensures most { IfOk result (λ n. n ≤ 1514) }
    ensures allowed { OnOk result (submit_rule local.now who (bound_by flows.now who) false len
        bytes.now ≡ None) }
    ensures denied { IfErr result (λ rule. submit_rule local.now who (bound_by flows.now who) false
        len bytes.now ≡ Some rule) }
{
    if len < LEAST_FRAME || len > LONGEST_FRAME {
        return Err(Rule::N4);
    }
    let heading = read_out(local, &bytes[..len as usize])?;
    let _flow = flows.check(who, &heading)?;
    Ok(len as u16)
}

// What an accepted send tells: its number to the driver, and its frame to the log.
fn tell(
    alloc: Global,
    send: u32,
    who: Instance,
    frame: &[u8],
    out: &mut Outcome,
) -> Result<(), Memory>
    ensures head { out.new.head ≡ out.old.head }
    ensures items { OnOk result (out.new.items ≡ out.old.items ++ SendIs send
        ∷ Accepted send who frame.now ∷ []) }
{
    let bytes = Bytes::from_slice(alloc, frame)?;
    out.push(Item::SendIs { send })?;
    out.push(Item::Accepted { send, who, bytes })?;
    Ok(())
}

// What a return tells: the number to the driver, and the buffer to its sender where that did not
// end.
fn tell_return(post: Post, opened: bool, out: &mut Outcome) -> Result<(), Memory>
    ensures head { out.new.head ≡ out.old.head }
    ensures items { OnOk result (out.new.items ≡ out.old.items ++ return_items opened post) }
{
    out.push(Item::Returned { send: post.number })?;
    if opened {
        out.push(Item::Home {
            who: post.who,
            buffer: post.buffer,
        })?;
    }
    Ok(())
}
