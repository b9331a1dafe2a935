// The flows of each instance.
ghost use Rattle.std.specs.Prelude.{◌≡◌, ◌≢◌, ◌<◌, None, Some, IfOk, IfSome, OnOk, OnErr};
ghost use Rattle.std.specs.Option.{option_map};
ghost use Rattle.ibos_kinds.specs.declared.names.Instance.{Instance};
ghost use Rattle.ibos_kinds.specs.Limits.{IsNamed};
ghost use Rattle.ibos_flow.specs.Flows as spec;
ghost use Rattle.ibos_kinds.specs.Flows.{bind_answer, close_answer};
ghost use Rattle.ibos_flow.specs.Flows.{bound_by};
ghost use Rattle.ibos_kinds.specs.Flows.{no_flows, with_flow, without_flow};

use crate::flows::Flows;
use ibos_kinds::{Endpoint, Instance, Memory, Proto, Rule};
use std::alloc::Global;
use std::marker::Model;

// 32 instances of each of 64 tabs.
const PLACES: usize = 2048;

/// The flows of the instances that were added and not ended, one place for each instance.
#[derive(Drop)]
pub(crate) struct Instances {
    places: Vec<Option<Flows>>,
}

impl Model for Instances {
    ghost use Rattle.std.specs.Prelude.{◌≡◌, length};
    ghost use Rattle.ibos_flow.specs.Flows.{Table};

    ghost Value = { Table };

    ghost view = { λ t. t.places.items };

    ghost invariant = { λ t. length t.places.items ≡ 2048 };
}

impl Instances {
    /// No instance was added. The room for all is reserved.
    pub(crate) fn new(alloc: Global) -> Result<Instances, Memory>
        ensures { IfOk result (λ instances. (who : Instance) → bound_by instances who ≡ None) }
    {
        let mut places = Vec::with_capacity(alloc, PLACES)?;
        'filled: for _place in 0..PLACES {
            places.push_reserved(None);
        }
        Ok(Instances { places })
    }

    /// Adds an instance without flows, whose other end is that.
    pub(crate) fn begin(&mut self, who: Instance, remote: Endpoint)
        requires { IsNamed who }
        ensures own { bound_by self.new who ≡ Some (no_flows remote) }
        ensures others { (q : Instance) → q ≢ who → bound_by self.new q ≡ bound_by self.old q }
    {
        self.places[place_of(who)] = Some(Flows::new(remote));
    }

    /// Ends an instance. Its flows are unbound.
    pub(crate) fn end(&mut self, who: Instance)
        requires { bound_by self.old who ≢ None }
        ensures own { bound_by self.new who ≡ None }
        ensures others { (q : Instance) → q ≢ who → bound_by self.new q ≡ bound_by self.old q }
    {
        self.places[place_of(who)] = None;
    }

    /// Binds a flow of an instance over a protocol, and answers its number: the count of those that
    /// the instance bound before. N1 exactly where that is 16.
    pub(crate) fn bind(&mut self, who: Instance, proto: Proto) -> Result<u8, Rule>
        requires { bound_by self.old who ≢ None }
        ensures answer { IfSome (bound_by self.old who) (λ bound. result ≡ bind_answer bound) }
        ensures open { bound_by self.new who ≢ None }
        ensures own { OnOk result (bound_by self.new who
            ≡ option_map (with_flow proto) (bound_by self.old who)) }
        ensures others { (q : Instance) → q ≢ who → bound_by self.new q ≡ bound_by self.old q }
        ensures err { OnErr result (self.new ≡ self.old) }
    {
        match &mut self.places[place_of(who)] {
            Some(flows) => flows.bind(proto),
            None => unreachable!(),
        }
    }

    /// Closes a flow of an instance. N2 exactly where it isn't open.
    pub(crate) fn close(&mut self, who: Instance, flow: u8) -> Result<(), Rule>
        requires { bound_by self.old who ≢ None }
        ensures answer { IfSome (bound_by self.old who) (λ bound.
            result ≡ close_answer flow bound) }
        ensures few { OnOk result (flow < 16) }
        ensures open { bound_by self.new who ≢ None }
        ensures own { OnOk result (bound_by self.new who
            ≡ option_map (without_flow flow) (bound_by self.old who)) }
        ensures others { (q : Instance) → q ≢ who → bound_by self.new q ≡ bound_by self.old q }
        ensures err { OnErr result (self.new ≡ self.old) }
    {
        match &mut self.places[place_of(who)] {
            Some(flows) => flows.close(flow),
            None => unreachable!(),
        }
    }

    /// The other end of an instance's flows.
    pub(crate) fn remote(&self, who: Instance) -> Endpoint
        requires { bound_by self.now who ≢ None }
        ensures { IfSome (bound_by self.now who) (λ bound. result ≡ bound.remote) }
    {
        match &self.places[place_of(who)] {
            Some(flows) => flows.remote(),
            None => unreachable!(),
        }
    }
}

// Where an instance's flows stand.
fn place_of(who: Instance) -> usize
    requires { IsNamed who }
    ensures place { result ≡ spec.place_of who }
    ensures within { result < 2048 }
{
    32 * usize::from(who.tab) + usize::from(who.ord)
}
