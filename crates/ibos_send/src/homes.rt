//! The transmit buffers of one instance.
ghost use Rattle.std.specs.Prelude.{◌≡◌, ◌+◌, ◌<◌, ◌≤◌, ◌++◌, [], ◌∷◌, ℕ, List, length, slice_set};
ghost use Rattle.std.specs.Prelude.{slice_index_or, if◌then◌else◌, true, None, Some, IfOk, OnOk};
ghost use Rattle.std.specs.Prelude.{OnErr};
ghost use Rattle.std.specs.Option.{option_copied};
ghost use Rattle.ibos_pool.specs.declared.name.Name.{Name as BufferName};
ghost use Rattle.ibos_pool.specs.Hands.{AreAtHand};
ghost use Rattle.ibos_pool.specs.Memory.{Memory as Areas};
ghost use Rattle.ibos_pool.specs.Names.{Held, is_taken, place_of};
ghost use Rattle.ibos_nic.specs.Registers.{Registers};
ghost use Rattle.ibos_mediate.specs.Mediated.{Mediated};
ghost use Rattle.ibos_mediate.specs.Relation.{MediatesBut};
ghost use Rattle.ibos_send.specs.Buffers.{AreFreshIn, AreHeld, AreReturned, IsFresh, gathered};
ghost use Rattle.ibos_send.specs.Buffers.{held_of, is_transmit_name, new_homes};

use ibos_kinds::Memory;
use ibos_mediate::{gifts_keep_the_relation, other_names_keep_the_relation};
use ibos_pool::{Loan, Name, Pool};
use std::alloc::Global;
use std::marker::Model;

/// How many buffers an instance sends from: the first names of its area.
const BUFFERS: u8 = 4;

/// An instance's buffers that are at home, in the order of their numbers. They can't be dropped.
pub(crate) struct HomeBuffers {
    loans: Vec<Option<Loan>>,
}

impl Model for HomeBuffers {
    ghost use Rattle.std.specs.Prelude.{◌≡◌, length};
    ghost use Rattle.ibos_send.specs.Buffers.{Homes};

    ghost Value = { Homes };

    ghost view = { λ b. b.loans.items };

    ghost invariant = { λ b. length b.loans.items ≡ 4 };
}

// Takes the buffers that an instance sends from.
fn take_all(alloc: Global, area: u16, pool: &mut Pool) -> Result<Vec<Option<Loan>>, Memory>
    requires { IsFresh pool.old area }
    ensures taken { IfOk result (λ loans. loans.items ≡ new_homes pool.old area) }
    ensures hands { IfOk result (λ loans. (mem : Areas) (more : List Held)
        → AreFreshIn mem pool.old area → AreAtHand pool.old mem more
        → AreAtHand pool.new mem (gathered held_of loans.items ++ more)) }
    ensures names { OnOk result ((name : BufferName) → is_taken pool.new name
        ≡ (if is_transmit_name area name then true else is_taken pool.old name)) }
    ensures places { (name : BufferName) → place_of pool.new name ≡ place_of pool.old name }
    ensures areas { length pool.new ≡ length pool.old }
    ensures whole { (m : Mediated) (mem : Areas) (regs : Registers) (out : List Held)
        → MediatesBut out m mem regs pool.old → MediatesBut out m mem regs pool.new }
    ensures err { OnErr result (pool.new ≡ pool.old) }
{
    // cited for their clauses
    other_names_keep_the_relation();
    let _areas = pool.areas();
    let mut loans = Vec::with_capacity(alloc, usize::from(BUFFERS))?;
    'taken: for index in 0..BUFFERS {
        match pool.take(Name { area, index }) {
            Some(loan) => loans.push_reserved(Some(loan)),
            None => unreachable!(),
        }
    }
    Ok(loans)
}

// Gives buffers to the pool.
fn give_all(loans: Vec<Option<Loan>>, pool: &mut Pool)
    requires { AreHeld pool.old (gathered held_of loans.items) }
    ensures returned { AreReturned (gathered held_of loans.items) pool.old pool.new }
    ensures hands { (mem : Areas) (more : List Held)
        → AreAtHand pool.old mem (gathered held_of loans.items ++ more)
        → AreAtHand pool.new mem more }
    ensures whole { (m : Mediated) (mem : Areas) (regs : Registers) (out : List Held)
        → AreAtHand pool.old mem (gathered held_of loans.items)
        → MediatesBut out m mem regs pool.old → MediatesBut out m mem regs pool.new }
{
    // cited for its clauses
    gifts_keep_the_relation();
    let mut loans = loans;
    'given: while let Some(place) = loans.pop() {
        match place {
            Some(loan) => pool.give(loan),
            None => {}
        }
    }
    loans.destroy_empty();
}

impl HomeBuffers {
    /// The buffers of an area, all at home.
    pub(crate) fn new(alloc: Global, area: u16, pool: &mut Pool) -> Result<HomeBuffers, Memory>
        requires { IsFresh pool.old area }
        ensures homes { IfOk result (λ homes. homes ≡ new_homes pool.old area) }
        ensures hands { IfOk result (λ homes. (mem : Areas) (more : List Held)
            → AreFreshIn mem pool.old area → AreAtHand pool.old mem more
            → AreAtHand pool.new mem (gathered held_of homes ++ more)) }
        ensures names { OnOk result ((name : BufferName) → is_taken pool.new name
            ≡ (if is_transmit_name area name then true else is_taken pool.old name)) }
        ensures places { (name : BufferName) → place_of pool.new name ≡ place_of pool.old name }
        ensures areas { length pool.new ≡ length pool.old }
        ensures whole { (m : Mediated) (mem : Areas) (regs : Registers) (out : List Held)
            → MediatesBut out m mem regs pool.old → MediatesBut out m mem regs pool.new }
        ensures err { OnErr result (pool.new ≡ pool.old) }
    {
        let loans = take_all(alloc, area, pool)?;
        Ok(HomeBuffers { loans })
    }

    /// Gives the buffers that are at home to the pool.
    pub(crate) fn close(self, pool: &mut Pool)
        requires { AreHeld pool.old (gathered held_of self) }
        ensures returned { AreReturned (gathered held_of self) pool.old pool.new }
        ensures hands { (mem : Areas) (more : List Held)
            → AreAtHand pool.old mem (gathered held_of self ++ more)
            → AreAtHand pool.new mem more }
        ensures whole { (m : Mediated) (mem : Areas) (regs : Registers) (out : List Held)
            → AreAtHand pool.old mem (gathered held_of self) → MediatesBut out m mem regs pool.old
            → MediatesBut out m mem regs pool.new }
    {
        let HomeBuffers { loans } = self;
        give_all(loans, pool);
    }

    /// The buffer of that number, where it is at home.
    pub(crate) fn get(&self, buffer: u8) -> Option<&Loan>
        requires { buffer < 4 }
        ensures { option_copied result ≡ slice_index_or self.now buffer None }
    {
        self.loans[usize::from(buffer)].as_ref()
    }

    /// The buffer of that number is away from now on.
    pub(crate) fn take(&mut self, buffer: u8) -> Option<Loan>
        requires { buffer < 4 }
        ensures taken { result ≡ slice_index_or self.old buffer None }
        ensures after { self.new ≡ slice_set self.old buffer None }
        ensures size { length self.old ≡ 4 }
    {
        self.loans[usize::from(buffer)].take()
    }

    /// The buffer of that number is at home from now on. The answer is what was there.
    pub(crate) fn put(&mut self, buffer: u8, loan: Loan) -> Option<Loan>
        requires { buffer < 4 }
        ensures left { result ≡ slice_index_or self.old buffer None }
        ensures after { self.new ≡ slice_set self.old buffer (Some loan) }
        ensures size { length self.old ≡ 4 }
    {
        self.loans[usize::from(buffer)].replace(loan)
    }
}
