//! The transmit buffers of all instances.
ghost use Rattle.std.specs.Prelude.{◌≡◌, ◌≢◌, ◌+◌, ◌<◌, ◌⊎◌, ◌++◌, [], ◌∷◌, ℕ, List, length};
ghost use Rattle.std.specs.Prelude.{slice_set, is_some, if◌then◌else◌, true, None, Some, IfOk};
ghost use Rattle.std.specs.Prelude.{OnErr, OnOk};
ghost use Rattle.std.specs.Option.{option_copied};
ghost use Rattle.ibos_kinds.specs.declared.names.Instance.{Instance};
ghost use Rattle.ibos_kinds.specs.Limits.{IsNamed};
ghost use Rattle.ibos_pool.specs.declared.name.Name.{Name};
ghost use Rattle.ibos_pool.specs.Hands.{AreAtHand};
ghost use Rattle.ibos_pool.specs.Memory.{Memory as Areas};
ghost use Rattle.ibos_pool.specs.Names.{Held, Names, is_taken, place_of};
ghost use Rattle.ibos_nic.specs.Registers.{Registers};
ghost use Rattle.ibos_mediate.specs.Mediated.{Mediated};
ghost use Rattle.ibos_mediate.specs.Relation.{MediatesBut};
ghost use Rattle.ibos_send.specs.Buffers.{AreFreshIn, AreHeld, AreReturned, IsFresh, held_at_home};
ghost use Rattle.ibos_send.specs.Buffers.{held_of, home_in, home_place, homes_in, homes_of};
ghost use Rattle.ibos_send.specs.Buffers.{is_transmit_name, new_homes, size_of};
ghost use Rattle.ibos_send.specs.Returns.{brought_home, left_over};

use crate::homes::HomeBuffers;
use ibos_kinds::{Instance, Memory};
use ibos_pool::{Loan, Pool};
use std::alloc::Global;
use std::marker::Model;

// 32 instances of each of 64 tabs.
const PLACES: usize = 2048;

/// The transmit buffers that are at home, of the instances that were added and not ended. They
/// can't be dropped.
pub(crate) struct HomeTable {
    places: Vec<Option<HomeBuffers>>,
}

impl Model for HomeTable {
    ghost use Rattle.std.specs.Prelude.{◌≡◌, length};
    ghost use Rattle.ibos_send.specs.Buffers.{Table};

    ghost Value = { Table };

    ghost view = { λ t. t.places.items };

    ghost invariant = { λ t. length t.places.items ≡ 2048 };
}

impl HomeTable {
    /// No instance was added. The table has its room from now on.
    pub(crate) fn new(alloc: Global) -> Result<HomeTable, Memory>
        ensures none { IfOk result (λ table. (who : Instance) → homes_in table who ≡ None) }
        ensures held { IfOk result (λ table. held_at_home table ≡ []) }
    {
        let mut places = Vec::with_capacity(alloc, PLACES)?;
        'filled: for _place in 0..PLACES {
            places.push_reserved(None);
        }
        Ok(HomeTable { places })
    }

    /// Adds an instance, and takes the buffers that it sends from.
    pub(crate) fn begin(&mut self, who: Instance, area: u16, pool: &mut Pool) -> Result<(), Memory>
        requires named { IsNamed who }
        requires new { homes_in self.old who ≡ None }
        requires fresh { IsFresh pool.old area }
        ensures own { OnOk result (homes_in self.new who ≡ Some (new_homes pool.old area)) }
        ensures others { (q : Instance) → q ≢ who → homes_in self.new q ≡ homes_in self.old q }
        ensures hands { OnOk result ((mem : Areas) (more : List Held)
            → AreFreshIn mem pool.old area → AreAtHand pool.old mem (held_at_home self.old ++ more)
            → AreAtHand pool.new mem (held_at_home self.new ++ more)) }
        ensures names { OnOk result ((name : Name) → is_taken pool.new name
            ≡ (if is_transmit_name area name then true else is_taken pool.old name)) }
        ensures places { (name : Name) → place_of pool.new name ≡ place_of pool.old name }
        ensures areas { length pool.new ≡ length pool.old }
        ensures whole { (m : Mediated) (mem : Areas) (regs : Registers) (out : List Held)
            → MediatesBut out m mem regs pool.old → MediatesBut out m mem regs pool.new }
        ensures err { OnErr result (self.new ≡ self.old) }
        ensures err_pool { OnErr result (pool.new ≡ pool.old) }
    {
        let alloc = *self.places.allocator();
        let homes = HomeBuffers::new(alloc, area, pool)?;
        match self.places[place_of(who)].replace(homes) {
            Some(_other) => unreachable!(),
            None => {}
        }
        Ok(())
    }

    /// Ends an instance, and gives its buffers that are at home to the pool.
    pub(crate) fn end(&mut self, who: Instance, pool: &mut Pool)
        requires open { homes_in self.old who ≢ None }
        requires hands { AreHeld pool.old (held_at_home self.old) }
        ensures own { homes_in self.new who ≡ None }
        ensures others { (q : Instance) → q ≢ who → homes_in self.new q ≡ homes_in self.old q }
        ensures returned { AreReturned (homes_of (homes_in self.old who)) pool.old pool.new }
        ensures hands { (mem : Areas) (more : List Held)
            → AreAtHand pool.old mem (held_at_home self.old ++ more)
            → AreAtHand pool.new mem (held_at_home self.new ++ more) }
        ensures whole { (m : Mediated) (mem : Areas) (regs : Registers) (out : List Held)
            → AreAtHand pool.old mem (held_at_home self.old) → MediatesBut out m mem regs pool.old
            → MediatesBut out m mem regs pool.new }
    {
        match self.places[place_of(who)].take() {
            Some(homes) => homes.close(pool),
            None => unreachable!(),
        }
    }

    /// Whether an instance was added and not ended.
    pub(crate) fn is_open(&self, who: Instance) -> bool
        requires { IsNamed who }
        ensures { result ≡ is_some (homes_in self.now who) }
    {
        self.places[place_of(who)].is_some()
    }

    /// An instance's buffer, where it is at home.
    pub(crate) fn get(&self, who: Instance, buffer: u8) -> Option<&Loan>
        requires named { IsNamed who }
        requires buffer { buffer < 4 }
        ensures { option_copied result ≡ home_in self.now who buffer }
    {
        match &self.places[place_of(who)] {
            Some(homes) => homes.get(buffer),
            None => None,
        }
    }

    /// An instance's buffer is away from now on, if it was at home.
    pub(crate) fn take(&mut self, who: Instance, buffer: u8) -> Option<Loan>
        requires open { homes_in self.old who ≢ None }
        requires buffer { buffer < 4 }
        ensures taken { result ≡ home_in self.old who buffer }
        ensures own { home_in self.new who buffer ≡ None }
        ensures others { (q : Instance) (b : ℕ) → (q ≢ who) ⊎ (b ≢ buffer)
            → home_in self.new q b ≡ home_in self.old q b }
        ensures open { (q : Instance) → is_some (homes_in self.new q)
            ≡ is_some (homes_in self.old q) }
        ensures sizes { (q : Instance) → size_of (homes_in self.new q)
            ≡ size_of (homes_in self.old q) }
        ensures hands { (names : Names) (mem : Areas) (more : List Held)
            → AreAtHand names mem (held_at_home self.old ++ more)
            → AreAtHand names mem (held_at_home self.new
            ++ (held_of (home_in self.old who buffer) ++ more)) }
    {
        match &mut self.places[place_of(who)] {
            Some(homes) => homes.take(buffer),
            None => unreachable!(),
        }
    }

    /// A buffer is its instance's again. The answer is what is left over: the buffer itself where
    /// the instance was not added or has ended.
    pub(crate) fn put(&mut self, who: Instance, buffer: u8, loan: Loan) -> Option<Loan>
        requires named { IsNamed who }
        requires buffer { buffer < 4 }
        ensures after { self.new ≡ brought_home who buffer loan self.old }
        ensures left { result ≡ left_over who buffer loan self.old }
        ensures open { (q : Instance) → is_some (homes_in self.new q)
            ≡ is_some (homes_in self.old q) }
        ensures hands { (names : Names) (mem : Areas) (more : List Held)
            → AreAtHand names mem (loan ∷ held_at_home self.old ++ more)
            → AreAtHand names mem (held_of (left_over who buffer loan self.old)
            ++ (held_at_home self.new ++ more)) }
    {
        let Some(homes) = &mut self.places[place_of(who)] else {
            return Some(loan);
        };
        homes.put(buffer, loan)
    }

    /// Gives all buffers to the pool.
    pub(crate) fn close(self, pool: &mut Pool)
        requires { AreHeld pool.old (held_at_home self) }
        ensures returned { AreReturned (held_at_home self) pool.old pool.new }
        ensures hands { (mem : Areas) (more : List Held)
            → AreAtHand pool.old mem (held_at_home self ++ more) → AreAtHand pool.new mem more }
        ensures whole { (m : Mediated) (mem : Areas) (regs : Registers) (out : List Held)
            → AreAtHand pool.old mem (held_at_home self) → MediatesBut out m mem regs pool.old
            → MediatesBut out m mem regs pool.new }
    {
        let HomeTable { mut places } = self;
        'closed: while let Some(place) = places.pop() {
            match place {
                Some(homes) => homes.close(pool),
                None => {}
            }
        }
        places.destroy_empty();
    }
}

// Where an instance's buffers stand.
fn place_of(who: Instance) -> usize
    requires { IsNamed who }
    ensures place { result ≡ home_place who }
    ensures within { result < 2048 }
{
    32 * usize::from(who.tab) + usize::from(who.ord)
}
