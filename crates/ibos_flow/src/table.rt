// The flows of all instances, and the places of their ports.
ghost use Rattle.std.specs.Prelude.{◌≡◌, ◌≢◌, ◌<◌, None, Some, IfOk, IfSome, OnOk, OnErr};
ghost use Rattle.std.specs.Option.{option_map};
ghost use Rattle.ibos_kinds.specs.declared.names.Instance.{Instance};
ghost use Rattle.ibos_kinds.specs.Flows.{admitted_by, bind_answer, close_answer};
ghost use Rattle.ibos_kinds.specs.Flows.{no_flows, with_flow, without_flow};
ghost use Rattle.ibos_kinds.specs.Limits.{IsNamed};
ghost use Rattle.ibos_kinds.specs.Parties.{same};
ghost use Rattle.ibos_kinds.specs.Ports.{port_of};
ghost use Rattle.ibos_flow.specs.Flows.{bound_by, checked, found};
ghost use Rattle.ibos_flow.specs.Ports.{ArePlaces};

use crate::instances::Instances;
use crate::ports::{PortPlace, Ports};
use ibos_kinds::{Endpoint, Heading, Instance, Memory, Proto, Rule, instance_of_port};
use std::alloc::Global;
use std::marker::Model;

/// The flows of the instances that were added and not ended. Each has one other end, its origin's,
/// and binds at most 16 flows in its life. A frame's flow is found at the place of its port.
///
/// # Examples
///
/// ```
/// use ibos_flow::FlowTable;
/// use ibos_kinds::{Endpoint, Heading, Instance, Memory, Proto, Rule};
/// use std::process::Abort;
///
/// fn bind(rt: &(impl Abort + AllocGlobal)) -> Result<(), Memory> {
///     let who = Instance { tab: 0, ord: 0 };
///     let remote = Endpoint {
///         addr: 0xc633_6401,
///         port: 80,
///     };
///     let mut flows = FlowTable::new(rt.alloc())?;
///     flows.begin(who, remote)?;
///     assert_eq!(rt; flows.bind(who, Proto::Tcp), Ok(0));
///     let heading = Heading {
///         proto: Proto::Tcp,
///         port: 32_768,
///         remote,
///     };
///     assert_eq!(rt; flows.find(&heading), Ok((who, 0)));
///     assert_eq!(rt; flows.close(who, 0), Ok(()));
///     assert_eq!(rt; flows.find(&heading), Err(Rule::F12));
///     Ok(())
/// }
/// ```
#[derive(Drop)]
pub struct FlowTable {
    instances: Instances,
    ports: Ports,
}

impl Model for FlowTable {
    ghost use Rattle.ibos_flow.specs.Flows.{Table};
    ghost use Rattle.ibos_flow.specs.Ports.{ArePlaced};

    ghost Value = { Table };

    ghost view = { λ t. t.instances };

    ghost invariant = { λ t. ArePlaced t.instances t.ports };
}

impl FlowTable {
    /// No instance was added. The room for all is reserved.
    pub fn new(alloc: Global) -> Result<FlowTable, Memory>
        ensures { IfOk result (λ table. (who : Instance) → bound_by table who ≡ None) }
    {
        let instances = Instances::new(alloc)?;
        let ports = Ports::new(alloc)?;
        Ok(FlowTable { instances, ports })
    }

    /// Adds an instance without flows, whose other end is that.
    pub fn begin(&mut self, who: Instance, remote: Endpoint) -> Result<(), Memory>
        requires named { IsNamed who }
        requires new { bound_by self.old who ≡ None }
        ensures own { OnOk result (bound_by self.new who ≡ Some (no_flows remote)) }
        ensures others { (q : Instance) → q ≢ who → bound_by self.new q ≡ bound_by self.old q }
        ensures err { OnErr result (self.new ≡ self.old) }
    {
        self.instances.begin(who, remote);
        Ok(())
    }

    /// Ends an instance. Its flows are unbound.
    pub fn end(&mut self, who: Instance)
        requires { bound_by self.old who ≢ None }
        ensures own { bound_by self.new who ≡ None }
        ensures others { (q : Instance) → q ≢ who → bound_by self.new q ≡ bound_by self.old q }
    {
        self.instances.end(who);
        self.ports.unbind_all(who);
    }

    /// Binds a flow of an instance over a protocol, and answers its number: the count of those that
    /// the instance bound before. N1 exactly where that is 16.
    pub fn bind(&mut self, who: Instance, proto: Proto) -> Result<u8, Rule>
        requires { bound_by self.old who ≢ None }
        ensures answer { IfSome (bound_by self.old who) (λ bound. result ≡ bind_answer bound) }
        ensures open { bound_by self.new who ≢ None }
        ensures own { OnOk result (bound_by self.new who
            ≡ option_map (with_flow proto) (bound_by self.old who)) }
        ensures others { (q : Instance) → q ≢ who → bound_by self.new q ≡ bound_by self.old q }
        ensures err { OnErr result (self.new ≡ self.old) }
    {
        let remote = self.instances.remote(who);
        let flow = self.instances.bind(who, proto)?;
        let place = PortPlace {
            bound: true,
            proto,
            remote,
        };
        self.ports.set(who, flow, place);
        Ok(flow)
    }

    /// Closes a flow of an instance. N2 exactly where it isn't open.
    pub fn close(&mut self, who: Instance, flow: u8) -> Result<(), Rule>
        requires { bound_by self.old who ≢ None }
        ensures answer { IfSome (bound_by self.old who) (λ bound.
            result ≡ close_answer flow bound) }
        ensures open { bound_by self.new who ≢ None }
        ensures own { OnOk result (bound_by self.new who
            ≡ option_map (without_flow flow) (bound_by self.old who)) }
        ensures others { (q : Instance) → q ≢ who → bound_by self.new q ≡ bound_by self.old q }
        ensures err { OnErr result (self.new ≡ self.old) }
    {
        self.instances.close(who, flow)?;
        self.ports.unbind(who, flow);
        Ok(())
    }

    /// The other end of an instance's flows.
    pub fn remote(&self, who: Instance) -> Endpoint
        requires { bound_by self.now who ≢ None }
        ensures { IfSome (bound_by self.now who) (λ bound. result ≡ bound.remote) }
    {
        self.instances.remote(who)
    }

    /// The flow that a frame with this heading belongs to. F12 exactly where no open flow has its
    /// port and protocol; F13 where one has, and its instance's other end is another.
    pub fn find(&self, heading: &Heading) -> Result<(Instance, u8), Rule>
        ensures { result ≡ found self.now heading.now }
    {
        let Some((who, flow)) = instance_of_port(heading.port) else {
            return Err(Rule::F12);
        };
        let flow = self.admit(who, flow, heading)?;
        Ok((who, flow))
    }

    /// The flow of one instance that a frame with this heading belongs to. F12 exactly where no
    /// open flow of the instance has its port and protocol; F13 where one has, and the other end is
    /// another.
    pub fn check(&self, who: Instance, heading: &Heading) -> Result<u8, Rule>
        ensures { result ≡ checked self.now who heading.now }
    {
        let Some((owner, flow)) = instance_of_port(heading.port) else {
            return Err(Rule::F12);
        };
        if !is_same(owner, who) {
            return Err(Rule::F12);
        }
        self.admit(owner, flow, heading)
    }

    /// One place for each port from 32,768 on: that of port p stands at p - 32,768.
    pub fn places(&self) -> &[PortPlace]
        ensures { ArePlaces self.now result.now }
    {
        self.ports.as_slice()
    }

    // The answer of the flow whose port the heading has, by that port's place alone.
    fn admit(&self, who: Instance, flow: u8, heading: &Heading) -> Result<u8, Rule>
        requires named { IsNamed who }
        requires few { flow < 16 }
        requires port { port_of who flow ≡ heading.now.port }
        ensures { result ≡ admitted_by (bound_by self.now who) flow heading.now }
    {
        self.ports.admit(flow, heading)
    }
}

fn is_same(one: Instance, other: Instance) -> bool
    ensures { result ≡ same one other }
{
    one.tab == other.tab && one.ord == other.ord
}
