// The flows of one instance.
ghost use Rattle.std.specs.Prelude.{◌≡◌, ◌<◌, ◌≤◌, length, OnOk, OnErr};
ghost use Rattle.ibos_kinds.specs.Flows.{bind_answer, close_answer, no_flows, proto_at};
ghost use Rattle.ibos_kinds.specs.Flows.{with_flow, without_flow};

use arrayvec::ArrayVec;
use ibos_kinds::{Endpoint, Proto, Rule};
use std::marker::Model;

/// The most flows that an instance binds in its life.
const MAX_FLOWS: usize = 16;

/// The flows of one instance, in the order in which they were bound: the protocol of each, or none
/// once it is closed.
#[derive(Drop)]
pub(crate) struct Flows {
    remote: Endpoint,
    protos: ArrayVec<Option<Proto>, MAX_FLOWS>,
}

impl Model for Flows {
    ghost use Rattle.ibos_kinds.specs.Flows.{Bound};

    ghost Value = { Bound };

    ghost view = { λ f. record { remote = f.remote; flows = f.protos.items } };
}

impl Flows {
    pub(crate) fn new(remote: Endpoint) -> Flows
        ensures { result ≡ no_flows remote }
    {
        Flows {
            remote,
            protos: ArrayVec::new(),
        }
    }

    /// The other end of all flows.
    pub(crate) fn remote(&self) -> Endpoint
        ensures { result ≡ self.now.remote }
    {
        self.remote
    }

    /// Binds one flow more.
    pub(crate) fn bind(&mut self, proto: Proto) -> Result<u8, Rule>
        ensures answer { result ≡ bind_answer self.old }
        ensures ok { OnOk result (self.new ≡ with_flow proto self.old) }
        ensures err { OnErr result (self.new ≡ self.old) }
    {
        if self.protos.is_full() {
            return Err(Rule::N1);
        }
        let number = self.protos.len() as u8;
        self.protos.push(Some(proto));
        Ok(number)
    }

    /// Closes a flow that is open.
    pub(crate) fn close(&mut self, flow: u8) -> Result<(), Rule>
        ensures answer { result ≡ close_answer flow self.old }
        ensures few { OnOk result (flow < 16) }
        ensures ok { OnOk result (self.new ≡ without_flow flow self.old) }
        ensures err { OnErr result (self.new ≡ self.old) }
    {
        if self.proto_at(flow).is_none() {
            return Err(Rule::N2);
        }
        self.protos[usize::from(flow)] = None;
        Ok(())
    }

    fn proto_at(&self, flow: u8) -> Option<Proto>
        ensures { result ≡ proto_at self.now flow }
    {
        match self.protos.get(usize::from(flow)) {
            Some(proto) => *proto,
            None => None,
        }
    }
}
