//! The sends that were accepted.
ghost use Rattle.std.specs.Prelude.{◌≡◌, ◌≢◌, ◌+◌, ◌<◌, ◌≤◌, ◌^◌, ◌++◌, [], ◌∷◌, ℕ, List, length};
ghost use Rattle.std.specs.Prelude.{map, slice_get, slice_index_or, slice_set, None, Some, IfOk};
ghost use Rattle.std.specs.Prelude.{is_some, IfSome, IsNone, OnErr, OnOk, ◌↔◌, ◌⊎◌};
ghost use Rattle.ibos_kinds.specs.declared.names.Instance.{Instance as InstanceIs};
ghost use Rattle.ibos_kinds.specs.Limits.{IsNamed};
ghost use Rattle.ibos_pool.specs.Hands.{AreAtHand};
ghost use Rattle.ibos_pool.specs.Memory.{Memory as Areas};
ghost use Rattle.ibos_pool.specs.Names.{Held, Names};
ghost use Rattle.ibos_nic.specs.Registers.{Registers};
ghost use Rattle.ibos_mediate.specs.Mediated.{Mediated};
ghost use Rattle.ibos_mediate.specs.Relation.{MediatesBut};
ghost use Rattle.ibos_send.specs.declared.sending.Waiting.{Waiting as WaitingIs};
ghost use Rattle.ibos_send.specs.Buffers.{AreHeld, AreReturned, gathered, held_at_home, home_in};
ghost use Rattle.ibos_send.specs.Buffers.{homes_in, size_of};
ghost use Rattle.ibos_send.specs.Lists.{held_waiting, untold_in, with_post};

use crate::table::HomeTable;
use ibos_kinds::{Instance, Memory};
use ibos_mediate::gifts_keep_the_relation;
use ibos_pool::{Loan, Pool};
use std::alloc::Global;
use std::marker::Model;

/// A send that was accepted and not posted: whose it is, and the buffer that begins with its frame.
/// It can't be dropped.
pub(crate) struct Waiting {
    pub who: Instance,
    pub buffer: u8,
    pub len: u16,
    pub loan: Loan,
}

/// A send that was posted: its number, and the buffer that comes back.
#[derive(Clone, Copy, Debug, PartialEq, Eq)]
pub(crate) struct Post {
    pub number: u32,
    pub who: Instance,
    pub buffer: u8,
}

/// The sends that were accepted: those that wait, one place for each number, and those that were
/// posted, in the order of their posts. It can't be dropped.
pub(crate) struct SendList {
    waiting: Vec<Option<Waiting>>,
    posts: Vec<Post>,
    returned: usize,
    told: usize,
}

impl Model for SendList {
    ghost use Rattle.std.specs.Vec.{vec_capacity};
    ghost use Rattle.ibos_send.specs.Lists.{IsSendList, SendList};

    ghost Value = { SendList };

    ghost view = { λ l. record {
      waiting = l.waiting.items;
      posts = l.posts.items;
      returned = l.returned;
      told = l.told;
    } };

    // there is room for a post of each send
    ghost invariant = { λ l. IsSendList (record {
      waiting = l.waiting.items;
      posts = l.posts.items;
      returned = l.returned;
      told = l.told;
    }) (vec_capacity l.posts) };
}

impl SendList {
    /// No send was accepted.
    pub(crate) fn new(alloc: Global) -> SendList
        ensures waiting { result.waiting ≡ [] }
        ensures posts { result.posts ≡ [] }
        ensures returned { result.returned ≡ 0 }
        ensures told { result.told ≡ 0 }
    {
        SendList {
            waiting: Vec::new(alloc),
            posts: Vec::new(alloc),
            returned: 0,
            told: 0,
        }
    }

    /// How many sends were accepted.
    pub(crate) fn count(&self) -> u32
        ensures count { result ≡ length self.now.waiting }
        ensures most { result ≤ 2 ^ 31 }
    {
        self.waiting.len() as u32
    }

    /// Where the sends take their memory from.
    pub(crate) fn allocator(&self) -> Global {
        *self.waiting.allocator()
    }

    /// A send waits in that place.
    pub(crate) fn is_waiting(&self, send: u32) -> bool
        ensures { result ≡ is_some (slice_index_or self.now.waiting send None) }
    {
        match self.waiting.get(send as usize) {
            Some(place) => place.is_some(),
            None => false,
        }
    }

    /// Accepts a send of a buffer that is at home, and makes the room that its post, its sending
    /// and its return need.
    pub(crate) fn accept(
        &mut self,
        who: Instance,
        buffer: u8,
        len: u16,
        homes: &mut HomeTable,
    ) -> Result<(), Memory>
        requires buffer { buffer < 4 }
        requires least { 42 ≤ len }
        requires most { len ≤ 1514 }
        requires few { length self.old.waiting < 2 ^ 31 }
        requires home { home_in homes.old who buffer ≢ None }
        ensures waiting { OnOk result (IfSome (home_in homes.old who buffer) (λ h.
            self.new ≡ record self.old {
              waiting = self.old.waiting ++ Some (record {
                who = who;
                buffer = buffer;
                len = len;
                loan = h;
              }) ∷ [];
            })) }
        ensures own { OnOk result (home_in homes.new who buffer ≡ None) }
        ensures others { (q : InstanceIs) (b : ℕ) → (q ≢ who) ⊎ (b ≢ buffer)
            → home_in homes.new q b ≡ home_in homes.old q b }
        ensures open { (q : InstanceIs) → is_some (homes_in homes.new q)
            ≡ is_some (homes_in homes.old q) }
        ensures sizes { (q : InstanceIs) → size_of (homes_in homes.new q)
            ≡ size_of (homes_in homes.old q) }
        ensures hands { (names : Names) (mem : Areas) (more : List Held)
            → AreAtHand names mem (held_at_home homes.old
            ++ (gathered held_waiting self.old.waiting ++ more))
            → AreAtHand names mem (held_at_home homes.new
            ++ (gathered held_waiting self.new.waiting ++ more)) }
        ensures err { OnErr result (self.new ≡ self.old) }
        ensures err_homes { OnErr result (homes.new ≡ homes.old) }
    {
        let posts = self.waiting.len() + 1 - self.posts.len();
        self.waiting.reserve(1)?;
        self.posts.reserve(posts)?;
        match homes.take(who, buffer) {
            Some(loan) => self.waiting.push_reserved(Some(Waiting {
                who,
                buffer,
                len,
                loan,
            })),
            None => unreachable!(),
        }
        Ok(())
    }

    /// The send of that number is posted, if it waits: its buffer, and the length of its frame.
    pub(crate) fn post(&mut self, send: u32) -> Option<(Loan, u16)>
        ensures none { IsNone result ↔ (slice_index_or self.old.waiting send None ≡ None) }
        ensures same { IsNone result → self.new ≡ self.old }
        ensures some { IfSome result (λ r. (w : WaitingIs)
            × (slice_index_or self.old.waiting send None ≡ Some w) × (r.0 ≡ w.loan)
            × (r.1 ≡ w.len) × (self.new ≡ with_post send w self.old)) }
        ensures least { IfSome result (λ r. 42 ≤ r.1) }
        ensures most { IfSome result (λ r. r.1 ≤ 1514) }
        ensures few { IfSome result (λ _. length self.old.posts < 2 ^ 31) }
        ensures hands { IfSome result (λ r. (names : Names) (mem : Areas) (more : List Held)
            → AreAtHand names mem (gathered held_waiting self.old.waiting ++ more)
            → AreAtHand names mem (r.0 ∷ gathered held_waiting self.new.waiting ++ more)) }
    {
        let place = send as usize;
        if place >= self.waiting.len() {
            return None;
        }
        let Waiting {
            who,
            buffer,
            len,
            loan,
        } = self.waiting[place].take()?;
        self.posts.push_reserved(Post {
            number: send,
            who,
            buffer,
        });
        Some((loan, len))
    }

    /// The oldest posted send that was not told as sent. It is told from now on.
    pub(crate) fn tell(&mut self) -> u32
        requires { untold_in self.old ≢ [] }
        ensures untold { untold_in self.old ≡ result ∷ untold_in self.new }
        ensures after { self.new ≡ record self.old { told = self.old.told + 1 } }
    {
        let post = self.posts[self.told];
        self.told += 1;
        post.number
    }

    /// The oldest posted send whose buffer did not come back. It does now.
    pub(crate) fn come_back(&mut self) -> Post
        requires { self.old.returned < length self.old.posts }
        ensures post { slice_get self.old.posts self.old.returned ≡ Some result }
        ensures after { self.new ≡ record self.old { returned = self.old.returned + 1 } }
        ensures named { IsNamed result.who }
        ensures buffer { result.buffer < 4 }
    {
        let post = self.posts[self.returned];
        self.returned += 1;
        post
    }

    /// Gives the buffers of the sends that wait to the pool.
    pub(crate) fn close(self, pool: &mut Pool)
        requires { AreHeld pool.old (gathered held_waiting self.waiting) }
        ensures returned { AreReturned (gathered held_waiting self.waiting) pool.old pool.new }
        ensures hands { (mem : Areas) (more : List Held)
            → AreAtHand pool.old mem (gathered held_waiting self.waiting ++ more)
            → AreAtHand pool.new mem more }
        ensures whole { (m : Mediated) (mem : Areas) (regs : Registers) (out : List Held)
            → AreAtHand pool.old mem (gathered held_waiting self.waiting)
            → MediatesBut out m mem regs pool.old → MediatesBut out m mem regs pool.new }
    {
        // cited for its clauses
        gifts_keep_the_relation();
        let SendList {
            mut waiting,
            posts: _,
            returned: _,
            told: _,
        } = self;
        'closed: while let Some(place) = waiting.pop() {
            match place {
                Some(
                    Waiting {
                        who: _,
                        buffer: _,
                        len: _,
                        loan,
                    },
                ) => pool.give(loan),
                None => {}
            }
        }
        waiting.destroy_empty();
    }
}
