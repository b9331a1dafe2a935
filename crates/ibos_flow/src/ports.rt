// The places of local ports.
ghost use Rattle.std.specs.Prelude.{◌≡◌, ◌≢◌, ◌≤◌, ◌<◌, ◌-◌, ℕ, length, slice_set, IfOk, replicate};
ghost use Rattle.ibos_kinds.specs.Flows as spec;
ghost use Rattle.ibos_kinds.specs.Limits.{IsNamed};
ghost use Rattle.ibos_kinds.specs.Ports.{port_of};
ghost use Rattle.ibos_flow.specs.Ports.{admitted_at, place_at, unbound};

use ibos_kinds::{Endpoint, Heading, Instance, Memory, Proto, Rule, local_port};
use std::alloc::Global;
use std::marker::Model;

// The first local port, and the count of all.
const FIRST: u16 = 32_768;

const PLACES: usize = 32_768;

const MAX_FLOWS: u8 = 16;

/// What a local port from 32,768 on is bound to: `bound` says whether a flow with that port is open
/// now. Where it is, `proto` is the flow's protocol and `remote` its other end.
#[derive(Clone, Copy, Debug, PartialEq, Eq)]
pub struct PortPlace {
    pub bound: bool,
    pub proto: Proto,
    pub remote: Endpoint,
}

const UNBOUND: PortPlace = PortPlace {
    bound: false,
    proto: Proto::Udp,
    remote: Endpoint { addr: 0, port: 0 },
};

impl PortPlace {
    // Whether a frame with that heading belongs to the flow with that number, whose place this is.
    fn admit(&self, flow: u8, heading: &Heading) -> Result<u8, Rule>
        ensures { result ≡ admitted_at self.now flow heading.now }
    {
        if !(self.bound && is_same(self.proto, heading.proto)) {
            return Err(Rule::F12);
        }
        if !same_end(heading.remote, self.remote) {
            return Err(Rule::F13);
        }
        Ok(flow)
    }
}

/// One place for each port from 32,768 on.
#[derive(Drop)]
pub(crate) struct Ports {
    places: Vec<PortPlace>,
}

impl Model for Ports {
    ghost use Rattle.std.specs.Prelude.{◌≡◌, List, length};
    ghost use Rattle.ibos_flow.specs.declared.ports.PortPlace.{PortPlace};

    ghost Value = { List PortPlace };

    ghost view = { λ p. p.places.items };

    ghost invariant = { λ p. length p.places.items ≡ 32768 };
}

impl Ports {
    /// No port is bound. The room for all is reserved.
    pub(crate) fn new(alloc: Global) -> Result<Ports, Memory>
        ensures { IfOk result (λ ports. ports ≡ replicate 32768 unbound) }
    {
        let mut places = Vec::with_capacity(alloc, PLACES)?;
        'filled: for _place in 0..PLACES {
            places.push_reserved(UNBOUND);
        }
        Ok(Ports { places })
    }

    /// The place of a flow's port has this from now on.
    pub(crate) fn set(&mut self, who: Instance, flow: u8, place: PortPlace)
        requires who { IsNamed who }
        requires flow { flow < 16 }
        ensures places { self.new ≡ slice_set self.old (port_of who flow - 32768) place }
        ensures count { length self.new ≡ 32768 }
    {
        self.places[index_of(local_port(who, flow))] = place;
    }

    /// Unbinds the port of a flow.
    pub(crate) fn unbind(&mut self, who: Instance, flow: u8)
        requires who { IsNamed who }
        requires flow { flow < 16 }
        ensures { self.new ≡ slice_set self.old (port_of who flow - 32768) unbound }
    {
        self.set(who, flow, UNBOUND);
    }

    /// Unbinds the ports of all flows of an instance.
    pub(crate) fn unbind_all(&mut self, who: Instance)
        requires { IsNamed who }
        ensures own { (flow : ℕ) → flow < 16 → place_at self.new (port_of who flow) ≡ unbound }
        ensures others { (port : ℕ) → 32768 ≤ port
            → ((flow : ℕ) → flow < 16 → port ≢ port_of who flow)
            → place_at self.new port ≡ place_at self.old port }
    {
        'flows: for flow in 0..MAX_FLOWS {
            self.unbind(who, flow);
        }
    }

    /// Whether a frame with that heading belongs to the flow with that number, whose port it has.
    pub(crate) fn admit(&self, flow: u8, heading: &Heading) -> Result<u8, Rule>
        requires { 32768 ≤ heading.now.port }
        ensures { result ≡ admitted_at (place_at self.now heading.now.port) flow heading.now }
    {
        self.places[index_of(heading.port)].admit(flow, heading)
    }

    pub(crate) fn as_slice(&self) -> &[PortPlace]
        ensures value { result.now ≡ self.now }
        ensures count { length result.now ≡ 32768 }
    {
        self.places.as_slice()
    }
}

// Where a port's place stands.
fn index_of(port: u16) -> usize
    requires { 32768 ≤ port }
    ensures index { result ≡ port - 32768 }
    ensures within { result < 32768 }
{
    usize::from(port - FIRST)
}

fn is_same(one: Proto, other: Proto) -> bool
    ensures { result ≡ spec.same_proto one other }
{
    match (one, other) {
        (Proto::Tcp, Proto::Tcp) => true,
        (Proto::Udp, Proto::Udp) => true,
        _ => false,
    }
}

fn same_end(one: Endpoint, other: Endpoint) -> bool
    ensures { result ≡ spec.same_end one other }
{
    one.addr == other.addr && one.port == other.port
}
