// What acts of the net half read and change.
use ibos_flow::FlowTable;
use ibos_mediate::Mediator;
use ibos_pool::{Mem, Pool};
use ibos_recv::Inboxes;
use ibos_send::Sends;
use std::marker::Model;

/// The mediator, the memory and the names of its buffers, the flows, the inboxes and the sends.
/// They can't be dropped.
pub(crate) struct Parts {
    pub(crate) med: Mediator,
    pub(crate) mem: Mem,
    pub(crate) pool: Pool,
    pub(crate) flows: FlowTable,
    pub(crate) inboxes: Inboxes,
    pub(crate) sends: Sends,
}

impl Model for Parts {
    ghost use Rattle.ibos_net.specs.NetStanding.{NetState};

    ghost Value = { NetState };

    ghost view = { λ p. record {
      med = p.med;
      mem = p.mem;
      names = p.pool;
      flows = p.flows;
      inboxes = p.inboxes;
      sends = p.sends;
    } };
}
