// A session: the acts of a script, and the text that they bring.
ghost use Rattle.std.specs.Prelude.{◌≡◌, ◌≤◌, ◌<◌, ◌⊎◌, [], ◌++◌, true, List, ℕ};
ghost use Rattle.std.specs.Prelude.{◌∷◌, OnOk, OnErr, IfErr, IfOk, IfSome};
ghost use Rattle.std.specs.List.{Any};
ghost use Rattle.ibos_kinds.specs.Outside.{Rose};
ghost use Rattle.ibos_run.specs.Inputs.{last_line, script_with};
ghost use Rattle.ibos_run.specs.Readings.{reading_of, script_in};
ghost use Rattle.ibos_kernel.specs.Standing.{Agrees, Stands};
ghost use Rattle.ibos_run.specs.Device.{IsReset};
ghost use Rattle.ibos_run.specs.Captured.{IsHeld, frames_left, named};
ghost use Rattle.ibos_run.specs.Faults.{IsCaused, ending, status_for};
ghost use Rattle.ibos_run.specs.Script.{IsOfScript, refusal_of};
ghost use Rattle.ibos_run.specs.Session.{IsBroken, IsOver, IsStopped, IsTold};
ghost use Rattle.ibos_run.specs.Words.{with_capture};

use crate::capture::Capture;
use crate::fault::{Fault, Status};
use crate::gather::hand_over;
use crate::script::{End, serve_line};
use crate::source::Source;
use crate::texts::{File, end_line, refusal};
use ibos_kernel::Kernel;
use ibos_kinds::{Bytes, Cabinet, Memory, Outcome, Sink};
use ibos_model::{frames_are_fronts, sent_frames_are_fronts, texts_are_fronts};
use ibos_nic::Nic;
use ibos_origin::Hosts;
use ibos_script::Line;
use std::alloc::Global;

/// Runs the script of that name with the frames of a capture, over a host table and a device at
/// reset. What is gathered and not handed over stays in `text`.
pub fn run_session<C: Cabinet, N: Nic, K: Sink>(
    alloc: Global,
    hosts: Hosts,
    name: &Bytes,
    capture: &mut Option<Capture<'_>>,
    cabinet: &mut C,
    nic: &mut N,
    text: &mut Bytes,
    sink: &mut K,
) -> Result<Status, Fault>
    requires reset { IsReset (N.regs nic.old) (N.log nic.old) }
    requires empty { text.old ≡ [] }
    ensures status { IfOk result (λ status. (file : List ℕ)
        → IsHeld (C.holds cabinet.old) file capture.old
        → IfSome (script_with hosts (frames_left file capture.old)
        (C.holds cabinet.old name.now)) (λ i. status ≡ status_for i)) }
    ensures told { OnOk result ((file : List ℕ)
        → IsHeld (C.holds cabinet.old) file capture.old
        → IfSome (script_with hosts (frames_left file capture.old)
        (C.holds cabinet.old name.now)) (λ i.
        IsTold i (K.taken sink.old) (K.taken sink.new) (N.regs nic.new) (N.log nic.new))) }
    ensures broken { OnErr result ((file : List ℕ)
        → IsHeld (C.holds cabinet.old) file capture.old
        → IfSome (script_with hosts (frames_left file capture.old)
        (C.holds cabinet.old name.now)) (λ i.
        IsBroken i (K.taken sink.old) (K.taken sink.new) text.new (N.log nic.new))) }
    ensures ends { IfOk result (λ status. (status ≡ Status.Done) ⊎ (status ≡ Status.Refused)) }
    ensures holds { (name : List ℕ) → C.holds cabinet.new name ≡ C.holds cabinet.old name }
    ensures files_later { (name : List ℕ) → C.faults cabinet.old name ≤ C.faults cabinet.new name }
    ensures later { K.faults sink.old ≤ K.faults sink.new }
    ensures cause { IfErr result (λ fault. IsCaused fault
        (Any (λ name. Rose (C.faults cabinet.old name) (C.faults cabinet.new name))
        (with_capture (named capture.old) (name.now ∷ [])))
        (Rose (K.faults sink.old) (K.faults sink.new))) }
{
    let mut kernel = Kernel::new(alloc, hosts, nic)?;
    let ended = run_script(alloc, &mut kernel, name, capture, cabinet, nic, text, sink);
    kernel.close();
    ended
}

// The same, by a kernel that has made no act.
fn run_script<C: Cabinet, N: Nic, K: Sink>(
    alloc: Global,
    kernel: &mut Kernel,
    name: &Bytes,
    capture: &mut Option<Capture<'_>>,
    cabinet: &mut C,
    nic: &mut N,
    text: &mut Bytes,
    sink: &mut K,
) -> Result<Status, Fault>
    requires stands { Stands [] kernel.old }
    requires agrees { Agrees kernel.old.hosts [] (N.regs nic.old) (N.log nic.old) }
    requires log { N.log nic.old ≡ [] }
    requires usable { kernel.old.usable ≡ true }
    requires acts { kernel.old.acts ≡ 0 }
    requires empty { text.old ≡ [] }
    ensures status { IfOk result (λ status. (file : List ℕ)
        → IsHeld (C.holds cabinet.old) file capture.old
        → IfSome (script_with kernel.old.hosts (frames_left file capture.old)
        (C.holds cabinet.old name.now)) (λ i. status ≡ status_for i)) }
    ensures told { OnOk result ((file : List ℕ)
        → IsHeld (C.holds cabinet.old) file capture.old
        → IfSome (script_with kernel.old.hosts (frames_left file capture.old)
        (C.holds cabinet.old name.now)) (λ i.
        IsTold i (K.taken sink.old) (K.taken sink.new) (N.regs nic.new) (N.log nic.new))) }
    ensures broken { OnErr result ((file : List ℕ)
        → IsHeld (C.holds cabinet.old) file capture.old
        → IfSome (script_with kernel.old.hosts (frames_left file capture.old)
        (C.holds cabinet.old name.now)) (λ i.
        IsBroken i (K.taken sink.old) (K.taken sink.new) text.new (N.log nic.new))) }
    ensures ends { IfOk result (λ status. (status ≡ Status.Done) ⊎ (status ≡ Status.Refused)) }
    ensures holds { (name : List ℕ) → C.holds cabinet.new name ≡ C.holds cabinet.old name }
    ensures files_later { (name : List ℕ) → C.faults cabinet.old name ≤ C.faults cabinet.new name }
    ensures later { K.faults sink.old ≤ K.faults sink.new }
    ensures cause { IfErr result (λ fault. IsCaused fault
        (Any (λ name. Rose (C.faults cabinet.old name) (C.faults cabinet.new name))
        (with_capture (named capture.old) (name.now ∷ [])))
        (Rose (K.faults sink.old) (K.faults sink.new))) }
{
    let end = make_acts(alloc, kernel, name, capture, cabinet, nic, text, sink)?;
    let status = push_last(alloc, kernel.acts(), end, text)?;
    hand_over(text, sink)?;
    Ok(status)
}

// Makes the acts of the script, by a kernel that has made none.
fn make_acts<C: Cabinet, N: Nic, K: Sink>(
    alloc: Global,
    kernel: &mut Kernel,
    name: &Bytes,
    capture: &mut Option<Capture<'_>>,
    cabinet: &mut C,
    nic: &mut N,
    text: &mut Bytes,
    sink: &mut K,
) -> Result<End, Fault>
    requires stands { Stands [] kernel.old }
    requires agrees { Agrees kernel.old.hosts [] (N.regs nic.old) (N.log nic.old) }
    requires log { N.log nic.old ≡ [] }
    requires usable { kernel.old.usable ≡ true }
    requires acts { kernel.old.acts ≡ 0 }
    requires empty { text.old ≡ [] }
    ensures over { IfOk result (λ end. (captured : List ℕ)
        → IsHeld (C.holds cabinet.old) captured capture.old
        → IfSome (C.holds cabinet.old name.now) (λ file. IsOver kernel.old.hosts
        (reading_of (frames_left captured capture.old) (script_in file)) (K.taken sink.old)
        (K.taken sink.new) text.new (N.regs nic.new) (N.log nic.new) kernel.new.acts
        (refusal_of end))) }
    ensures of_script { IfOk result IsOfScript }
    ensures stopped { OnErr result ((captured : List ℕ)
        → IsHeld (C.holds cabinet.old) captured capture.old
        → IfSome (C.holds cabinet.old name.now) (λ file. IsStopped kernel.old.hosts
        (reading_of (frames_left captured capture.old) (script_in file)) (K.taken sink.old)
        (K.taken sink.new) text.new (N.log nic.new))) }
    ensures holds { (name : List ℕ) → C.holds cabinet.new name ≡ C.holds cabinet.old name }
    ensures files_later { (name : List ℕ) → C.faults cabinet.old name ≤ C.faults cabinet.new name }
    ensures later { K.faults sink.old ≤ K.faults sink.new }
    ensures cause { IfErr result (λ fault. IsCaused fault
        (Any (λ name. Rose (C.faults cabinet.old name) (C.faults cabinet.new name))
        (with_capture (named capture.old) (name.now ∷ [])))
        (Rose (K.faults sink.old) (K.faults sink.new))) }
{
    // Called for the laws that are their clauses.
    texts_are_fronts();
    frames_are_fronts();
    sent_frames_are_fronts();
    let mut source = Source::new(alloc)?;
    let mut made = Line::NextFrame;
    let mut outcome = Outcome::new(alloc);
    let mut lines = 0;
    'lines: while let Some(len) = source.find_line(cabinet, name)? {
        lines += 1;
        if source.is_past(len) {
            return Ok(End::TooLong { line: lines });
        }
        let line = source.line(len);
        let served = serve_line(
            alloc,
            kernel,
            lines,
            line,
            &mut made,
            capture,
            cabinet,
            &mut outcome,
            nic,
            text,
            sink,
        )?;
        if let Some(end) = served {
            return Ok(end);
        }
        source.pass(len);
    }
    Ok(End::Whole)
}

// Gathers the last line, after so many acts.
#[tactic(auto, unfolding(crate::specs::Refusals::no_frame, crate::specs::Refusals::too_long))]
fn push_last(alloc: Global, acts: u32, end: End, text: &mut Bytes) -> Result<Status, Memory>
    requires { IsOfScript end }
    ensures status { IfOk result (λ status. status ≡ ending (refusal_of end)) }
    ensures ok { OnOk result (text.new ≡ text.old ++ last_line acts (refusal_of end)) }
    ensures err { OnErr result (text.new ≡ text.old) }
{
    match end {
        End::Whole => {
            text.push_slice(end_line(alloc, acts)?.as_bytes())?;
            Ok(Status::Done)
        }
        End::NoFrame { line } => {
            text.push_slice(refusal(alloc, File::Script, line, 7, b"NoFrame")?.as_slice())?;
            Ok(Status::Refused)
        }
        End::TooLong { line } => {
            text.push_slice(refusal(alloc, File::Script, line, 8, b"TooLong")?.as_slice())?;
            Ok(Status::Refused)
        }
        End::Refused { line, fault } => {
            let (number, name) = (fault.number(), fault.name().as_bytes());
            text.push_slice(refusal(alloc, File::Script, line, number, name)?.as_slice())?;
            Ok(Status::Refused)
        }
    }
}
