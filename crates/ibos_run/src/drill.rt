// A drill: the acts that a number makes, and the line that counts what came of them.
ghost use Rattle.std.specs.Prelude.{◌≡◌, ◌≤◌, ◌<◌, ◌+◌, ◌^◌, [], true, length, IfOk, IfErr};
ghost use Rattle.std.specs.Prelude.{OnOk, OnErr};
ghost use Rattle.ibos_kinds.specs.Outside.{Rose};
ghost use Rattle.ibos_make.specs.Drill.{left};
ghost use Rattle.ibos_model.specs.Logs.{written_in};
ghost use Rattle.ibos_model.specs.Runs as model;
ghost use Rattle.ibos_kernel.specs.Standing.{Agrees, Stands};
ghost use Rattle.ibos_run.specs.Device.{IsLogFront, IsLogOf, IsReset};
ghost use Rattle.ibos_run.specs.Faults.{IsCaused};
ghost use Rattle.ibos_run.specs.Inputs as spec;
ghost use Rattle.ibos_run.specs.Session.{IsBroken, IsDrilled, IsTold};
ghost use Rattle.ibos_run.specs.Summaries.{tally_of};

use crate::fault::{Fault, Status};
use crate::tally::Tally;
use crate::texts::summary;
use crate::transfer::write_all;
use ibos_kernel::Kernel;
use ibos_kinds::{Act, Memory, Outcome, Sink};
use ibos_make::{Drill, drill_hosts};
use ibos_model::{
    frames_are_fronts, frames_are_sent_in_turn, runs_go_on, sent_frames_are_fronts,
    texts_are_fronts,
};
use ibos_nic::Nic;
use std::alloc::Global;

/// The most rounds that a drill may have.
pub const MAX_ROUNDS: u32 = 100_000;

/// Runs the drill of a number over a device at reset. Its line is all that is written.
pub fn run_drill<N: Nic, K: Sink>(
    alloc: Global,
    seed: u64,
    rounds: u32,
    nic: &mut N,
    sink: &mut K,
) -> Result<Status, Fault>
    requires reset { IsReset (N.regs nic.old) (N.log nic.old) }
    requires few { rounds ≤ MAX_ROUNDS }
    ensures status { IfOk result (λ status. status ≡ Status.Done) }
    ensures told { OnOk result (IsTold (spec.Drill seed rounds) (K.taken sink.old)
        (K.taken sink.new) (N.regs nic.new) (N.log nic.new)) }
    ensures broken { OnErr result (IsBroken (spec.Drill seed rounds) (K.taken sink.old)
        (K.taken sink.new) [] (N.log nic.new)) }
    ensures later { K.faults sink.old ≤ K.faults sink.new }
    ensures cause { IfErr result (λ fault.
        IsCaused fault ⊥ (Rose (K.faults sink.old) (K.faults sink.new))) }
{
    let hosts = drill_hosts(alloc)?;
    let mut kernel = Kernel::new(alloc, hosts, nic)?;
    let mut drill = Drill::new(seed, rounds);
    let made = make_drill(alloc, &mut kernel, &mut drill, nic);
    kernel.close();
    let tally = made?;
    let line = summary(alloc, seed, rounds, &tally)?;
    write_all(sink, line.as_slice())?;
    Ok(Status::Done)
}

// Makes the acts of a drill, from a kernel that has made none, and counts what comes of them.
fn make_drill<N: Nic>(
    alloc: Global,
    kernel: &mut Kernel,
    drill: &mut Drill,
    nic: &mut N,
) -> Result<Tally, Memory>
    requires stands { Stands [] kernel.old }
    requires agrees { Agrees kernel.old.hosts [] (N.regs nic.old) (N.log nic.old) }
    requires log { N.log nic.old ≡ [] }
    requires usable { kernel.old.usable ≡ true }
    requires few { kernel.old.acts + length (left drill.old) < 2 ^ 31 }
    ensures tally { IfOk result (λ tally. tally
        ≡ tally_of (model.run kernel.old.hosts (left drill.old) (written_in (N.log nic.new)))) }
    ensures drilled { OnOk result (IsDrilled kernel.old.hosts (left drill.old)
        (N.regs nic.new) (N.log nic.new)) }
    ensures front { OnErr result (IsLogFront
        (model.run kernel.old.hosts (left drill.old) (written_in (N.log nic.new)))
        (N.log nic.new)) }
{
    // Called for the laws that are their clauses.
    runs_go_on();
    texts_are_fronts();
    frames_are_fronts();
    sent_frames_are_fronts();
    frames_are_sent_in_turn();
    let mut outcome = Outcome::new(alloc);
    let mut tally = Tally::new();
    // One act after another lies here, and is lent: it is large, and moving it costs more than many
    // a step.
    let mut act = Act::Look;
    'acts: while drill.next_into(alloc, &mut act)? {
        kernel.step(alloc, &act, nic, &mut outcome)?;
        tally.count(&outcome);
    }
    Ok(tally)
}
