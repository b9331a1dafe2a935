// The requests of all instances.
ghost use Rattle.std.specs.Prelude.{◌≡◌, ◌≢◌, ℕ, ◌<◌, ◌^◌, None, Some, IfSome, OnOk, OnErr};
ghost use Rattle.std.specs.Prelude.{slice_index_or, vec_len};
ghost use Rattle.std.specs.Option.{option_copied, option_map};
ghost use Rattle.ibos_kinds.specs.declared.names.Instance.{Instance};
ghost use Rattle.ibos_kinds.specs.Requests.{no_requests, with_ask, without_request};
ghost use Rattle.ibos_store.specs.Answers.{Answers};
ghost use Rattle.ibos_kinds.specs.Labels.{ask_answer};
ghost use Rattle.ibos_store.specs.Stores.{requests_in, key_at, SameRequests};
ghost use Rattle.ibos_store.specs.Stores as spec;

use crate::fault::StoreFault;
use crate::requests::Requests;
use ibos_kinds::{Instance, Memory};
use std::alloc::Global;
use std::marker::Model;

/// The requests of the instances that were added and not ended, found by the instance's place.
#[derive(Drop)]
pub(crate) struct RequestTable {
    places: Vec<Option<Requests>>,
}

impl Model for RequestTable {
    ghost use Rattle.std.specs.Prelude.{List, Option};
    ghost use Rattle.ibos_kinds.specs.Requests as spec;

    ghost Value = { List (Option spec.Requests) };

    ghost view = { λ t. t.places.items };
}

impl RequestTable {
    /// No instance was added. Takes no memory.
    pub(crate) fn new(alloc: Global) -> RequestTable
        ensures { (q : Instance) → requests_in result q ≡ None }
    {
        RequestTable {
            places: Vec::new(alloc),
        }
    }

    /// Adds an instance without requests.
    pub(crate) fn begin(&mut self, alloc: Global, who: Instance) -> Result<(), Memory>
        ensures own { OnOk result (requests_in self.new who ≡ Some no_requests) }
        ensures others { OnOk result (SameRequests self.old self.new who) }
        ensures err { OnErr result (self.new ≡ self.old) }
    {
        let place = place_of(who);
        reach(&mut self.places, place)?;
        self.places[place] = Some(Requests::new(alloc));
        Ok(())
    }

    /// Ends an instance, and with it its requests. Takes no memory.
    pub(crate) fn end(&mut self, who: Instance)
        requires { requests_in self.old who ≢ None }
        ensures own { requests_in self.new who ≡ None }
        ensures others { SameRequests self.old self.new who }
    {
        self.places[place_of(who)] = None;
    }

    /// An instance asks for a key. The answer is the request's number.
    pub(crate) fn ask(
        &mut self,
        alloc: Global,
        who: Instance,
        key: &[u8],
    ) -> Result<u32, StoreFault>
        requires begun { requests_in self.old who ≢ None }
        requires few { IfSome (requests_in self.old who) (λ requests. requests.count < 2 ^ 31) }
        ensures answer { IfSome (requests_in self.old who) (λ requests.
            Answers result (ask_answer key.now requests)) }
        ensures own { OnOk result (requests_in self.new who
            ≡ option_map (with_ask key.now) (requests_in self.old who)) }
        ensures others { SameRequests self.old self.new who }
        ensures err { OnErr result (self.new ≡ self.old) }
    {
        match &mut self.places[place_of(who)] {
            Some(requests) => requests.ask(alloc, key),
            None => unreachable!(),
        }
    }

    /// The key of an instance's request that is not answered.
    pub(crate) fn key(&self, who: Instance, number: u32) -> Option<&[u8]>
        ensures { option_copied result ≡ key_at self.now who number }
    {
        match requests_at(&self.places, place_of(who)) {
            Some(requests) => requests.key(number),
            None => None,
        }
    }

    /// A request is answered. Takes no memory.
    pub(crate) fn answer(&mut self, who: Instance, number: u32)
        requires { requests_in self.old who ≢ None }
        ensures own { requests_in self.new who
            ≡ option_map (without_request number) (requests_in self.old who) }
        ensures once { key_at self.new who number ≡ None }
        ensures others { SameRequests self.old self.new who }
    {
        match &mut self.places[place_of(who)] {
            Some(requests) => requests.answer(number),
            None => unreachable!(),
        }
    }
}

// Where an instance's requests stand: those of the tabs' first instances come first.
fn place_of(who: Instance) -> usize
    ensures place { result ≡ spec.place_of who }
    ensures tab { who.tab < 256 }
    ensures bound { result < 65536 }
{
    256 * who.ord as usize + who.tab as usize
}

// What stands at a place, if the table is that long.
fn requests_at(places: &[Option<Requests>], place: usize) -> Option<&Requests>
    ensures { option_copied result ≡ slice_index_or places.now place None }
{
    if place < places.len() {
        places[place].as_ref()
    } else {
        None
    }
}

// Makes the table long enough for a place.
fn reach(places: &mut Vec<Option<Requests>>, place: usize) -> Result<(), Memory>
    requires { place < 65536 }
    ensures ok { OnOk result (place < vec_len places.new) }
    ensures same { (k : ℕ) → slice_index_or places.new.items k None
        ≡ slice_index_or places.old.items k None }
    ensures err { OnErr result (places.new.items ≡ places.old.items) }
{
    let len = places.len();
    if place < len {
        return Ok(());
    }
    places.reserve(place + 1 - len)?;
    'filled: for _place in len..place + 1 {
        places.push_reserved(None);
    }
    Ok(())
}
