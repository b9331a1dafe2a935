// The requests of one instance.
ghost use Rattle.std.specs.Prelude.{◌≡◌, ◌<◌, ◌^◌, OnOk, OnErr};
ghost use Rattle.std.specs.Option.{option_copied};
ghost use Rattle.ibos_kinds.specs.Requests as spec;
ghost use Rattle.ibos_kinds.specs.Requests.{key_in, no_requests, with_ask, without_request};
ghost use Rattle.ibos_store.specs.Answers.{Answers};
ghost use Rattle.ibos_kinds.specs.Labels.{ask_answer};

use crate::fault::StoreFault;
use crate::keys::is_key;
use ibos_kinds::{Bytes, Rule};
use std::alloc::Global;
use std::marker::Model;

const MAX_UNANSWERED: usize = 8;

// A request that is not answered.
#[derive(Drop)]
struct Asked {
    number: u32,
    key: Bytes,
}

impl Model for Asked {
    ghost use Rattle.ibos_kinds.specs.Requests as spec;

    ghost Value = { spec.Asked };

    ghost view = { λ a. record { number = a.number; key = a.key } };
}

impl Asked {
    fn is_numbered(&self, number: u32) -> bool
        ensures { result ≡ spec.is_numbered number self.now }
    {
        self.number == number
    }

    fn key(&self) -> &[u8]
        ensures { result.now ≡ self.now.key }
    {
        self.key.as_slice()
    }
}

/// How many asks of an instance were accepted, and those that are not answered.
#[derive(Drop)]
pub(crate) struct Requests {
    count: u32,
    unanswered: Vec<Asked>,
}

impl Model for Requests {
    ghost use Rattle.ibos_kinds.specs.Requests as spec;

    ghost Value = { spec.Requests };

    ghost view = { λ r. record { count = r.count; unanswered = r.unanswered.items } };
}

impl Requests {
    /// Nothing was asked for. Takes no memory.
    pub(crate) fn new(alloc: Global) -> Requests
        ensures { result ≡ no_requests }
    {
        Requests {
            count: 0,
            unanswered: Vec::new(alloc),
        }
    }

    /// Asks for a key, and answers the request's number.
    #[tactic(auto, unfolding(ibos_kinds::specs::Labels::ask_answer))]
    pub(crate) fn ask(&mut self, alloc: Global, key: &[u8]) -> Result<u32, StoreFault>
        requires { self.old.count < 2 ^ 31 }
        ensures answer { Answers result (ask_answer key.now self.old) }
        ensures ok { OnOk result (self.new ≡ with_ask key.now self.old) }
        ensures err { OnErr result (self.new ≡ self.old) }
    {
        if !is_key(key) {
            return Err(StoreFault::Denied(Rule::S1));
        }
        if self.unanswered.len() >= MAX_UNANSWERED {
            return Err(StoreFault::Denied(Rule::S4));
        }
        let number = self.count;
        let key = Bytes::from_slice(alloc, key)?;
        self.unanswered.push(Asked { number, key })?;
        self.count += 1;
        Ok(number)
    }

    /// The key of a request that is not answered.
    pub(crate) fn key(&self, number: u32) -> Option<&[u8]>
        ensures { option_copied result ≡ key_in self.now number }
    {
        self.unanswered
            .iter()
            .find(|asked| asked.is_numbered(number))
            .map(|asked| asked.key())
    }

    /// A request is answered. Takes no memory.
    pub(crate) fn answer(&mut self, number: u32)
        ensures { self.new ≡ without_request number self.old }
    {
        self.unanswered.retain(|asked| !asked.is_numbered(number));
    }
}
