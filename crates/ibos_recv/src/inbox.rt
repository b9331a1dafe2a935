// The buffers of one inbox.
ghost use Rattle.std.specs.Prelude.{◌≡◌, ◌+◌, ◌<◌, ◌≤◌, ◌++◌, [], ◌∷◌, ℕ, List, length, drop};
ghost use Rattle.std.specs.Prelude.{slice_index_or, slice_set, if◌then◌else◌, true, IfOk, OnOk};
ghost use Rattle.std.specs.Prelude.{OnErr};
ghost use Rattle.ibos_pool.specs.declared.name.Name.{Name as BufferName};
ghost use Rattle.ibos_pool.specs.Hands.{AreAtHand, AreExchanged, no_buffer};
ghost use Rattle.ibos_pool.specs.Memory.{Memory as Areas, bytes_at};
ghost use Rattle.ibos_pool.specs.Names.{Held, IsLoanOf, Names, is_taken, place_of};
ghost use Rattle.ibos_pool.specs.Places.{address_of};
ghost use Rattle.ibos_pool.specs.Sizes.{buffer_bytes};
ghost use Rattle.ibos_nic.specs.Registers.{Registers};
ghost use Rattle.ibos_mediate.specs.Mediated.{Mediated};
ghost use Rattle.ibos_mediate.specs.Relation.{MediatesBut};
ghost use Rattle.ibos_recv.specs.Inboxes.{AreFreshIn, AreHeld, AreReturned, IsFresh, done_answer};
ghost use Rattle.ibos_recv.specs.Inboxes.{inbox_buffers, inbox_frames, is_inbox_name, new_inbox};
ghost use Rattle.ibos_recv.specs.Serves.{IsPassed};

use arrayvec::ArrayVec;
use ibos_kinds::{Memory, Rule};
use ibos_mediate::{gifts_keep_the_relation, other_names_keep_the_relation};
use ibos_pool::{Loan, Mem, Name, Pool};
use std::alloc::Global;
use std::marker::Model;

/// How many buffers an inbox has, and so how many frames of an instance can be unread.
pub(crate) const BUFFERS: usize = 16;

// Where the names of an area's inbox begin and end.
const FIRST_NAME: u8 = 4;

const LAST_NAME: u8 = 20;

/// The buffers of one inbox, a ring: the unread frames lie in them from the head on. It can't be
/// dropped.
pub(crate) struct InboxRing {
    loans: Vec<Loan>,
    head: usize,
    lens: ArrayVec<u16, BUFFERS>,
}

impl Model for InboxRing {
    ghost use Rattle.ibos_recv.specs.Inboxes.{Inbox};
    ghost use Rattle.ibos_recv.specs.Rings.{IsInbox};

    ghost Value = { Inbox };

    ghost view = { λ b. record { held = b.loans.items; head = b.head; lens = b.lens.items } };

    ghost invariant = { λ b. IsInbox (record {
      held = b.loans.items;
      head = b.head;
      lens = b.lens.items;
    }) };
}

// Takes the buffers of an area's inbox.
fn take_all(alloc: Global, area: u16, pool: &mut Pool) -> Result<Vec<Loan>, Memory>
    requires { IsFresh pool.old area }
    ensures taken { IfOk result (λ loans. loans.items ≡ inbox_buffers pool.old area) }
    ensures hands { IfOk result (λ loans. (mem : Areas) (more : List Held)
        → AreFreshIn mem pool.old area → AreAtHand pool.old mem more
        → AreAtHand pool.new mem (loans.items ++ more)) }
    ensures names { OnOk result ((name : BufferName) → is_taken pool.new name
        ≡ (if is_inbox_name area name then true else is_taken pool.old name)) }
    ensures places { (name : BufferName) → place_of pool.new name ≡ place_of pool.old name }
    ensures areas { length pool.new ≡ length pool.old }
    ensures whole { (m : Mediated) (mem : Areas) (regs : Registers) (out : List Held)
        → MediatesBut out m mem regs pool.old → MediatesBut out m mem regs pool.new }
    ensures err { OnErr result (pool.new ≡ pool.old) }
{
    // cited for their clauses
    other_names_keep_the_relation();
    let _areas = pool.areas();
    let mut loans = Vec::with_capacity(alloc, BUFFERS)?;
    'taken: for index in FIRST_NAME..LAST_NAME {
        match pool.take(Name { area, index }) {
            Some(loan) => loans.push_reserved(loan),
            None => unreachable!(),
        }
    }
    Ok(loans)
}

// Gives buffers to the pool.
fn give_all(loans: Vec<Loan>, pool: &mut Pool)
    requires { AreHeld pool.old loans.items }
    ensures returned { AreReturned loans.items pool.old pool.new }
    ensures hands { (mem : Areas) (more : List Held) → AreAtHand pool.old mem (loans.items ++ more)
        → AreAtHand pool.new mem more }
    ensures whole { (m : Mediated) (mem : Areas) (regs : Registers) (out : List Held)
        → AreAtHand pool.old mem loans.items → MediatesBut out m mem regs pool.old
        → MediatesBut out m mem regs pool.new }
{
    // cited for its clauses
    gifts_keep_the_relation();
    let mut loans = loans;
    'given: while let Some(loan) = loans.pop() {
        pool.give(loan);
    }
    loans.destroy_empty();
}

impl InboxRing {
    /// The inbox of an area. Nothing is unread.
    pub(crate) fn new(alloc: Global, area: u16, pool: &mut Pool) -> Result<InboxRing, Memory>
        requires { IsFresh pool.old area }
        ensures inbox { IfOk result (λ inbox. inbox ≡ new_inbox pool.old area) }
        ensures hands { IfOk result (λ inbox. (mem : Areas) (more : List Held)
            → AreFreshIn mem pool.old area → AreAtHand pool.old mem more
            → AreAtHand pool.new mem (inbox.held ++ more)) }
        ensures names { OnOk result ((name : BufferName) → is_taken pool.new name
            ≡ (if is_inbox_name area name then true else is_taken pool.old name)) }
        ensures places { (name : BufferName) → place_of pool.new name ≡ place_of pool.old name }
        ensures areas { length pool.new ≡ length pool.old }
        ensures whole { (m : Mediated) (mem : Areas) (regs : Registers) (out : List Held)
            → MediatesBut out m mem regs pool.old → MediatesBut out m mem regs pool.new }
        ensures err { OnErr result (pool.new ≡ pool.old) }
    {
        Ok(InboxRing {
            loans: take_all(alloc, area, pool)?,
            head: 0,
            lens: ArrayVec::new(),
        })
    }

    /// Gives the buffers to the pool.
    pub(crate) fn close(self, pool: &mut Pool)
        requires { AreHeld pool.old self.held }
        ensures returned { AreReturned self.held pool.old pool.new }
        ensures hands { (mem : Areas) (more : List Held)
            → AreAtHand pool.old mem (self.held ++ more) → AreAtHand pool.new mem more }
        ensures whole { (m : Mediated) (mem : Areas) (regs : Registers) (out : List Held)
            → AreAtHand pool.old mem self.held → MediatesBut out m mem regs pool.old
            → MediatesBut out m mem regs pool.new }
    {
        let InboxRing {
            loans,
            head: _,
            lens: _,
        } = self;
        give_all(loans, pool);
    }

    /// How many frames are unread.
    pub(crate) fn unread(&self) -> u8
        ensures unread { result ≡ length self.now.lens }
        ensures most { length self.now.lens ≤ 16 }
    {
        self.lens.len() as u8
    }

    /// Frees the place of the oldest frame.
    pub(crate) fn done(&mut self) -> Result<(), Rule>
        ensures answer { result ≡ done_answer (length self.old.lens) }
        ensures held { self.new.held ≡ self.old.held }
        ensures lens { self.new.lens ≡ drop 1 self.old.lens }
        ensures frames { (mem : Areas) → inbox_frames mem self.new
            ≡ drop 1 (inbox_frames mem self.old) }
        ensures err { OnErr result (self.new ≡ self.old) }
    {
        if self.lens.is_empty() {
            return Err(Rule::N6);
        }
        self.lens.remove(0);
        self.head = (self.head + 1) % BUFFERS;
        Ok(())
    }

    /// The bytes of an unread frame, counted from 0 at the oldest.
    pub(crate) fn frame<'m>(&self, k: usize, mem: &'m Mem) -> &'m [u8]
        requires k { k < length self.now.lens }
        requires hands { (names : Names) × AreAtHand names mem.now self.now.held }
        ensures { result.now ≡ slice_index_or (inbox_frames mem.now self.now) k [] }
    {
        let len = usize::from(self.lens[k]);
        let loan = &self.loans[(self.head + k) % BUFFERS];
        &mem.bytes(loan)[..len]
    }

    /// Puts a frame behind the newest: the loan that it lies in and a free buffer exchange their
    /// places. Answers the loan of the same name.
    pub(crate) fn push(&mut self, loan: Loan, len: u16, pool: &mut Pool) -> Loan
        requires room { length self.old.lens < 16 }
        requires size { len ≤ buffer_bytes }
        requires loan { IsLoanOf pool.old loan }
        requires hands { AreHeld pool.old self.old.held }
        ensures lens { self.new.lens ≡ self.old.lens ++ len ∷ [] }
        ensures frames { (mem : Areas) → inbox_frames mem self.new ≡ inbox_frames mem self.old
            ++ bytes_at mem (address_of loan.place) len ∷ [] }
        ensures passed { IsPassed loan self.old.held self.new.held pool.old pool.new }
        ensures name { result.name ≡ loan.name }
        ensures is_pools { IsLoanOf pool.new result }
    {
        let at = (self.head + self.lens.len()) % BUFFERS;
        let loan = exchange_at(&mut self.loans, at, loan, pool);
        self.lens.push(len);
        loan
    }
}

// Lets a loan and one of some buffers exchange their places. Answers the loan of the same name.
fn exchange_at(loans: &mut Vec<Loan>, at: usize, loan: Loan, pool: &mut Pool) -> Loan
    requires at { at < length loans.old.items }
    requires loan { IsLoanOf pool.old loan }
    requires buffer { IsLoanOf pool.old (slice_index_or loans.old.items at no_buffer) }
    ensures items { loans.new.items ≡ slice_set loans.old.items at (record {
      name = (slice_index_or loans.old.items at no_buffer).name;
      place = loan.place;
    }) }
    ensures exchanged { AreExchanged pool.old pool.new loan.name
        (slice_index_or loans.old.items at no_buffer).name }
    ensures name { result.name ≡ loan.name }
    ensures is_pools { IsLoanOf pool.new result }
{
    let free = loans.swap_remove(at);
    let (loan, filled) = pool.exchange(loan, free);
    loans.push_reserved(filled);
    let last = loans.len() - 1;
    loans.swap(at, last);
    loan
}
