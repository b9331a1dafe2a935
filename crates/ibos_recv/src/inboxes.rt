//! The inboxes of all instances.
ghost use Rattle.std.specs.Prelude.{◌≡◌, ◌≢◌, ◌+◌, ◌-◌, ◌<◌, ◌≤◌, ◌↔◌, ◌++◌, [], ◌∷◌, ℕ, List};
ghost use Rattle.std.specs.Prelude.{length, drop, slice_index_or, if◌then◌else◌, true, None, Some};
ghost use Rattle.std.specs.Prelude.{IfOk, OnOk, OnErr};
ghost use Rattle.ibos_kinds.specs.declared.names.Instance.{Instance};
ghost use Rattle.ibos_kinds.specs.Limits.{IsNamed};
ghost use Rattle.ibos_pool.specs.declared.name.Name.{Name};
ghost use Rattle.ibos_pool.specs.Hands.{AreAtHand};
ghost use Rattle.ibos_pool.specs.Memory.{Memory as Areas, bytes_at};
ghost use Rattle.ibos_pool.specs.Names.{Held, IsLoanOf, Names, is_taken, place_of};
ghost use Rattle.ibos_pool.specs.Places.{address_of};
ghost use Rattle.ibos_pool.specs.Sizes.{buffer_bytes};
ghost use Rattle.ibos_nic.specs.Registers.{Registers};
ghost use Rattle.ibos_mediate.specs.Mediated.{Mediated};
ghost use Rattle.ibos_mediate.specs.Relation.{MediatesBut};
ghost use Rattle.ibos_recv.specs.Inboxes.{AreFreshIn, AreHeld, AreReturned, IsFresh, done_answer};
ghost use Rattle.ibos_recv.specs.Inboxes.{frames_of, held_at, held_in, inbox_by, inbox_place};
ghost use Rattle.ibos_recv.specs.Inboxes.{is_inbox_name, new_inbox, unread_of};
ghost use Rattle.ibos_recv.specs.Serves.{IsPassed};

use crate::inbox::InboxRing;
use ibos_kinds::{Instance, Memory, Rule};
use ibos_pool::{Loan, Mem, Pool};
use std::alloc::Global;
use std::marker::Model;

// 32 instances of each of 64 tabs.
const PLACES: usize = 2048;

/// The inboxes of the instances that were added and not ended: sixteen buffers each, and in them
/// the frames that the instance has not done with. The buffers keep their names, and their places
/// may come to lie in any area. They can't be dropped.
///
/// # Examples
///
/// ```
/// use ibos_kinds::{Instance, Memory, Rule};
/// use ibos_pool::Pool;
/// use ibos_recv::{Inboxes, fresh_areas};
/// use std::process::Abort;
///
/// fn add(rt: &(impl Abort + AllocGlobal)) -> Result<(), Memory> {
///     let who = Instance { tab: 5, ord: 0 };
///     let mut pool = Pool::new(rt.alloc())?;
///     pool.grow_instance()?;
///     // Called for what it says of the area that was added.
///     fresh_areas();
///     let mut inboxes = Inboxes::new(rt.alloc())?;
///     let begun = inboxes.begin(who, 1, &mut pool);
///     if begun.is_ok() {
///         assert_eq!(rt; inboxes.unread(who), 0);
///         assert_eq!(rt; inboxes.done(who), Err(Rule::N6));
///     }
///     inboxes.close(&mut pool);
///     begun
/// }
/// ```
pub struct Inboxes {
    places: Vec<Option<InboxRing>>,
}

impl Model for Inboxes {
    ghost use Rattle.std.specs.Prelude.{◌≡◌, length};
    ghost use Rattle.ibos_recv.specs.Inboxes.{Inboxes as Table};

    ghost Value = { Table };

    ghost view = { λ i. i.places.items };

    ghost invariant = { λ i. length i.places.items ≡ 2048 };
}

impl Inboxes {
    /// No instance was added. The table has its room from now on.
    pub fn new(alloc: Global) -> Result<Inboxes, Memory>
        ensures none { IfOk result (λ inboxes. (who : Instance) → inbox_by inboxes who ≡ None) }
        ensures held { IfOk result (λ inboxes. held_in inboxes ≡ []) }
    {
        let mut places = Vec::with_capacity(alloc, PLACES)?;
        'filled: for _place in 0..PLACES {
            places.push_reserved(None);
        }
        Ok(Inboxes { places })
    }

    /// Adds an instance, and takes the buffers of its area's inbox: the names from index 4 to 19.
    pub fn begin(&mut self, who: Instance, area: u16, pool: &mut Pool) -> Result<(), Memory>
        requires named { IsNamed who }
        requires new { inbox_by self.old who ≡ None }
        requires fresh { IsFresh pool.old area }
        ensures own { OnOk result (inbox_by self.new who ≡ Some (new_inbox pool.old area)) }
        ensures others { (q : Instance) → q ≢ who → inbox_by self.new q ≡ inbox_by self.old q }
        ensures hands { OnOk result ((mem : Areas) (more : List Held)
            → AreFreshIn mem pool.old area → AreAtHand pool.old mem (held_in self.old ++ more)
            → AreAtHand pool.new mem (held_in self.new ++ more)) }
        ensures names { OnOk result ((name : Name) → is_taken pool.new name
            ≡ (if is_inbox_name area name then true else is_taken pool.old name)) }
        ensures places { (name : Name) → place_of pool.new name ≡ place_of pool.old name }
        ensures areas { length pool.new ≡ length pool.old }
        ensures whole { (m : Mediated) (mem : Areas) (regs : Registers) (out : List Held)
            → MediatesBut out m mem regs pool.old → MediatesBut out m mem regs pool.new }
        ensures err { OnErr result (self.new ≡ self.old) }
        ensures err_pool { OnErr result (pool.new ≡ pool.old) }
    {
        let alloc = *self.places.allocator();
        let inbox = InboxRing::new(alloc, area, pool)?;
        match self.places[place_of(who)].replace(inbox) {
            Some(_other) => unreachable!(),
            None => {}
        }
        Ok(())
    }

    /// Ends an instance, and gives its inbox's buffers to the pool. Its frames are gone.
    pub fn end(&mut self, who: Instance, pool: &mut Pool)
        requires open { inbox_by self.old who ≢ None }
        requires hands { AreHeld pool.old (held_in self.old) }
        ensures own { inbox_by self.new who ≡ None }
        ensures others { (q : Instance) → q ≢ who → inbox_by self.new q ≡ inbox_by self.old q }
        ensures returned { AreReturned (held_at (inbox_by self.old who)) pool.old pool.new }
        ensures hands { (mem : Areas) (more : List Held)
            → AreAtHand pool.old mem (held_in self.old ++ more)
            → AreAtHand pool.new mem (held_in self.new ++ more) }
        ensures whole { (m : Mediated) (mem : Areas) (regs : Registers) (out : List Held)
            → AreAtHand pool.old mem (held_in self.old) → MediatesBut out m mem regs pool.old
            → MediatesBut out m mem regs pool.new }
    {
        match self.places[place_of(who)].take() {
            Some(inbox) => inbox.close(pool),
            None => unreachable!(),
        }
    }

    /// Frees the place of an instance's oldest unread frame. N6 exactly where nothing is unread.
    pub fn done(&mut self, who: Instance) -> Result<(), Rule>
        requires { inbox_by self.old who ≢ None }
        ensures answer { result ≡ done_answer (unread_of self.old who) }
        ensures unread { unread_of self.new who ≡ unread_of self.old who - 1 }
        ensures frames { (mem : Areas) → frames_of mem self.new who
            ≡ drop 1 (frames_of mem self.old who) }
        ensures open { inbox_by self.new who ≢ None }
        ensures others { (q : Instance) → q ≢ who → inbox_by self.new q ≡ inbox_by self.old q }
        ensures held { held_in self.new ≡ held_in self.old }
        ensures err { OnErr result (self.new ≡ self.old) }
    {
        match &mut self.places[place_of(who)] {
            Some(inbox) => inbox.done(),
            None => unreachable!(),
        }
    }

    /// How many frames of an instance are unread.
    pub fn unread(&self, who: Instance) -> u8
        requires { inbox_by self.now who ≢ None }
        ensures unread { result ≡ unread_of self.now who }
        ensures most { unread_of self.now who ≤ 16 }
    {
        match &self.places[place_of(who)] {
            Some(inbox) => inbox.unread(),
            None => unreachable!(),
        }
    }

    /// The bytes of an instance's unread frame, counted from 0 at the oldest.
    pub fn frame<'m>(&self, who: Instance, k: u8, mem: &'m Mem) -> &'m [u8]
        requires k { k < unread_of self.now who }
        requires hands { (names : Names) × AreAtHand names mem.now (held_in self.now) }
        ensures { result.now ≡ slice_index_or (frames_of mem.now self.now who) k [] }
    {
        match &self.places[place_of(who)] {
            Some(inbox) => inbox.frame(usize::from(k), mem),
            None => unreachable!(),
        }
    }

    /// Puts a frame behind the newest of an instance: the loan that it lies in and a free buffer of
    /// the inbox exchange their places. Answers the loan of the same name.
    pub(crate) fn push(&mut self, who: Instance, loan: Loan, len: u16, pool: &mut Pool) -> Loan
        requires open { inbox_by self.old who ≢ None }
        requires room { unread_of self.old who < 16 }
        requires size { len ≤ buffer_bytes }
        requires loan { IsLoanOf pool.old loan }
        requires hands { AreHeld pool.old (held_in self.old) }
        ensures own { (mem : Areas) → frames_of mem self.new who ≡ frames_of mem self.old who
            ++ bytes_at mem (address_of loan.place) len ∷ [] }
        ensures unread { unread_of self.new who ≡ unread_of self.old who + 1 }
        ensures others { (q : Instance) → q ≢ who → inbox_by self.new q ≡ inbox_by self.old q }
        ensures open { (q : Instance) → (inbox_by self.new q ≡ None)
            ↔ (inbox_by self.old q ≡ None) }
        ensures passed { IsPassed loan (held_in self.old) (held_in self.new) pool.old pool.new }
        ensures name { result.name ≡ loan.name }
        ensures is_pools { IsLoanOf pool.new result }
    {
        match &mut self.places[place_of(who)] {
            Some(inbox) => inbox.push(loan, len, pool),
            None => unreachable!(),
        }
    }

    /// Gives all buffers to the pool.
    pub fn close(self, pool: &mut Pool)
        requires { AreHeld pool.old (held_in self) }
        ensures returned { AreReturned (held_in self) pool.old pool.new }
        ensures hands { (mem : Areas) (more : List Held)
            → AreAtHand pool.old mem (held_in self ++ more) → AreAtHand pool.new mem more }
        ensures whole { (m : Mediated) (mem : Areas) (regs : Registers) (out : List Held)
            → AreAtHand pool.old mem (held_in self) → MediatesBut out m mem regs pool.old
            → MediatesBut out m mem regs pool.new }
    {
        let Inboxes { mut places } = self;
        'closed: while let Some(place) = places.pop() {
            match place {
                Some(inbox) => inbox.close(pool),
                None => {}
            }
        }
        places.destroy_empty();
    }
}

// Where an instance's inbox stands.
fn place_of(who: Instance) -> usize
    requires { IsNamed who }
    ensures place { result ≡ inbox_place who }
    ensures within { result < 2048 }
{
    32 * usize::from(who.tab) + usize::from(who.ord)
}
