// What finding a flow means.
ghost use Rattle.ibos_flow.specs.Flows.{AreChecked, AreForeign, AreFound, AreMissed};

/// A frame belongs to the open flow that has its port and protocol, if the other end is that of the
/// flow's instance. F12 is answered exactly where no open flow has them, and F13 exactly where one
/// has, and the other end is another. `FlowTable::check` finds what `FlowTable::find` does, for one
/// instance.
pub fn flows_are_found()
    ensures found { AreFound }
    ensures missed { AreMissed }
    ensures foreign { AreForeign }
    ensures checked { AreChecked }
{
    // cited for its clauses
    ibos_kinds::ports_are_apart();
}
