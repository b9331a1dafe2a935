// The lines of a script, and how it ends.
ghost use Rattle.std.specs.Prelude.{◌≡◌, ◌≢◌, ◌≤◌, ◌<◌, ◌+◌, ◌^◌, List, ℕ, true, IfOk, IfErr};
ghost use Rattle.std.specs.Prelude.{IfSome, IsSomeAnd, Ok, OnErr, OnOk, Some};
ghost use Rattle.ibos_kinds.specs.Limits.{Fits};
ghost use Rattle.ibos_kinds.specs.Outside.{Rose};
ghost use Rattle.ibos_kernel.specs.Standing.{Agrees, AreTogether, Stands};
ghost use Rattle.ibos_model.specs.Journal.{Journal};
ghost use Rattle.ibos_script.specs.Lines.{LineFits, line_in};
ghost use Rattle.ibos_run.specs.Captured.{IsHeld, frames_left, named};
ghost use Rattle.ibos_run.specs.Faults.{IsCaused};
ghost use Rattle.ibos_run.specs.Readings.{Reading, reading_by, reading_next};
ghost use Rattle.ibos_run.specs.Script.{IsOfScript, behind_end};
ghost use Rattle.ibos_run.specs.Session.{IsCut, IsMade, Serves, Stops};

use crate::capture::{Capture, next_frame};
use crate::fault::Fault;
use crate::gather::hand_over_if_much;
use ibos_kernel::Kernel;
use ibos_kinds::{Act, Bytes, Cabinet, Memory, Outcome, Sink};
use ibos_model::{
    frames_are_fronts, frames_are_sent_in_turn, runs_go_on, sent_frames_are_fronts,
    texts_are_fronts,
};
use ibos_nic::Nic;
use ibos_script::{Line, LineFault, read_line_into, write_outcome};
use std::alloc::Global;

/// How a script ends: at its end, or at its first fault. Lines are counted from 1.
#[derive(Clone, Copy)]
pub enum End {
    Whole,
    /// The line wants a frame, and none is left.
    NoFrame { line: u32 },
    /// The line holds the byte after the limit.
    TooLong { line: u32 },
    /// The line has a fault, which isn't that it was out of memory.
    Refused { line: u32, fault: LineFault },
}

/// Makes the act that a line of that number asks for, if any, with the frames that are left of the
/// capture, or tells that the script ends there. `made` is room for the line as it was read, and
/// `outcome` for what comes of the act.
pub fn serve_line<C: Cabinet, N: Nic, K: Sink>(
    alloc: Global,
    kernel: &mut Kernel,
    number: u32,
    line: &[u8],
    made: &mut Line,
    capture: &mut Option<Capture<'_>>,
    cabinet: &mut C,
    outcome: &mut Outcome,
    nic: &mut N,
    text: &mut Bytes,
    sink: &mut K,
) -> Result<Option<End>, Fault>
    requires usable { kernel.old.usable ≡ true }
    requires acts { kernel.old.acts < 2 ^ 31 }
    requires device { AreTogether kernel.old (N.regs nic.old) (N.log nic.old) }
    ensures served { IfOk result (λ end. (file : List ℕ)
        → IsHeld (C.holds cabinet.old) file capture.old
        → (behind : List (List ℕ) → Reading) → Serves
        (reading_by number (line_in line.now) (frames_left file capture.old) behind)
        (behind_end end (behind (frames_left file capture.new)))
        (K.taken sink.old) (K.taken sink.new) text.old text.new kernel.old kernel.new
        (N.regs nic.old) (N.regs nic.new) (N.log nic.old) (N.log nic.new)) }
    ensures stopped { OnErr result ((file : List ℕ)
        → IsHeld (C.holds cabinet.old) file capture.old
        → (behind : List (List ℕ) → Reading) → Stops
        (reading_by number (line_in line.now) (frames_left file capture.old) behind)
        (K.taken sink.old) (K.taken sink.new) text.old text.new kernel.old
        (N.regs nic.old) (N.log nic.old) (N.log nic.new)) }
    ensures held { OnOk result ((file : List ℕ) → IsHeld (C.holds cabinet.old) file capture.old
        → IsHeld (C.holds cabinet.old) file capture.new) }
    ensures name { named capture.new ≡ named capture.old }
    ensures of_script { IfOk result (λ end. IfSome end IsOfScript) }
    ensures device { OnOk result (AreTogether kernel.new (N.regs nic.new) (N.log nic.new)) }
    ensures usable { OnOk result (kernel.new.usable ≡ true) }
    ensures acts { OnOk result (kernel.new.acts ≤ kernel.old.acts + 1) }
    ensures holds { (name : List ℕ) → C.holds cabinet.new name ≡ C.holds cabinet.old name }
    ensures files_later { (name : List ℕ) → C.faults cabinet.old name ≤ C.faults cabinet.new name }
    ensures later { K.faults sink.old ≤ K.faults sink.new }
    ensures cause { IfErr result (λ fault. IsCaused fault
        (IsSomeAnd (named capture.old) (λ name.
        Rose (C.faults cabinet.old name) (C.faults cabinet.new name)))
        (Rose (K.faults sink.old) (K.faults sink.new))) }
{
    // Called for the laws that are their clauses.
    texts_are_fronts();
    frames_are_fronts();
    sent_frames_are_fronts();
    match read_line_into(alloc, line, made) {
        Ok(true) => serve_made(
            alloc, kernel, number, made, capture, cabinet, outcome, nic, text, sink,
        ),
        Ok(false) => Ok(None),
        Err(fault) => {
            let end = end_at(number, fault)?;
            Ok(Some(end))
        }
    }
}

// Makes what a line gave that was read.
fn serve_made<C: Cabinet, N: Nic, K: Sink>(
    alloc: Global,
    kernel: &mut Kernel,
    number: u32,
    made: &Line,
    capture: &mut Option<Capture<'_>>,
    cabinet: &mut C,
    outcome: &mut Outcome,
    nic: &mut N,
    text: &mut Bytes,
    sink: &mut K,
) -> Result<Option<End>, Fault>
    requires usable { kernel.old.usable ≡ true }
    requires fits { LineFits made.now }
    requires acts { kernel.old.acts < 2 ^ 31 }
    requires device { AreTogether kernel.old (N.regs nic.old) (N.log nic.old) }
    ensures served { IfOk result (λ end. (file : List ℕ)
        → IsHeld (C.holds cabinet.old) file capture.old
        → (behind : List (List ℕ) → Reading) → Serves
        (reading_by number (Ok (Some made.now)) (frames_left file capture.old) behind)
        (behind_end end (behind (frames_left file capture.new)))
        (K.taken sink.old) (K.taken sink.new) text.old text.new kernel.old kernel.new
        (N.regs nic.old) (N.regs nic.new) (N.log nic.old) (N.log nic.new)) }
    ensures stopped { OnErr result ((file : List ℕ)
        → IsHeld (C.holds cabinet.old) file capture.old
        → (behind : List (List ℕ) → Reading) → Stops
        (reading_by number (Ok (Some made.now)) (frames_left file capture.old) behind)
        (K.taken sink.old) (K.taken sink.new) text.old text.new kernel.old
        (N.regs nic.old) (N.log nic.old) (N.log nic.new)) }
    ensures held { OnOk result ((file : List ℕ) → IsHeld (C.holds cabinet.old) file capture.old
        → IsHeld (C.holds cabinet.old) file capture.new) }
    ensures name { named capture.new ≡ named capture.old }
    ensures of_script { IfOk result (λ end. IfSome end IsOfScript) }
    ensures device { OnOk result (AreTogether kernel.new (N.regs nic.new) (N.log nic.new)) }
    ensures usable { OnOk result (kernel.new.usable ≡ true) }
    ensures acts { OnOk result (kernel.new.acts ≤ kernel.old.acts + 1) }
    ensures holds { (name : List ℕ) → C.holds cabinet.new name ≡ C.holds cabinet.old name }
    ensures files_later { (name : List ℕ) → C.faults cabinet.old name ≤ C.faults cabinet.new name }
    ensures later { K.faults sink.old ≤ K.faults sink.new }
    ensures cause { IfErr result (λ fault. IsCaused fault
        (IsSomeAnd (named capture.old) (λ name.
        Rose (C.faults cabinet.old name) (C.faults cabinet.new name)))
        (Rose (K.faults sink.old) (K.faults sink.new))) }
{
    // Called for the laws that are their clauses.
    runs_go_on();
    texts_are_fronts();
    frames_are_fronts();
    sent_frames_are_fronts();
    frames_are_sent_in_turn();
    match made {
        Line::Act(act) => {
            make_act(alloc, kernel, act, outcome, nic, text, sink)?;
            Ok(None)
        }
        Line::NextFrame => serve_frame(
            alloc, kernel, number, capture, cabinet, outcome, nic, text, sink,
        ),
    }
}

// How a script ends at the fault of a line, unless that is want of memory.
fn end_at(line: u32, fault: LineFault) -> Result<End, Memory>
    ensures refused { IfOk result (λ end.
        (end ≡ End.Refused line fault) × (fault ≢ LineFault.Memory)) }
    ensures memory { OnErr result (fault ≡ LineFault.Memory) }
{
    match fault {
        LineFault::Memory => Err(Memory),
        fault => Ok(End::Refused { line, fault }),
    }
}

// The next frame comes from the wire.
fn serve_frame<C: Cabinet, N: Nic, K: Sink>(
    alloc: Global,
    kernel: &mut Kernel,
    number: u32,
    capture: &mut Option<Capture<'_>>,
    cabinet: &mut C,
    outcome: &mut Outcome,
    nic: &mut N,
    text: &mut Bytes,
    sink: &mut K,
) -> Result<Option<End>, Fault>
    requires usable { kernel.old.usable ≡ true }
    requires acts { kernel.old.acts < 2 ^ 31 }
    requires device { AreTogether kernel.old (N.regs nic.old) (N.log nic.old) }
    ensures served { IfOk result (λ end. (file : List ℕ)
        → IsHeld (C.holds cabinet.old) file capture.old
        → (behind : List (List ℕ) → Reading) → Serves
        (reading_next number (frames_left file capture.old) behind)
        (behind_end end (behind (frames_left file capture.new)))
        (K.taken sink.old) (K.taken sink.new) text.old text.new kernel.old kernel.new
        (N.regs nic.old) (N.regs nic.new) (N.log nic.old) (N.log nic.new)) }
    ensures stopped { OnErr result ((file : List ℕ)
        → IsHeld (C.holds cabinet.old) file capture.old
        → (behind : List (List ℕ) → Reading) → Stops
        (reading_next number (frames_left file capture.old) behind)
        (K.taken sink.old) (K.taken sink.new) text.old text.new kernel.old
        (N.regs nic.old) (N.log nic.old) (N.log nic.new)) }
    ensures held { OnOk result ((file : List ℕ) → IsHeld (C.holds cabinet.old) file capture.old
        → IsHeld (C.holds cabinet.old) file capture.new) }
    ensures name { named capture.new ≡ named capture.old }
    ensures of_script { IfOk result (λ end. IfSome end IsOfScript) }
    ensures device { OnOk result (AreTogether kernel.new (N.regs nic.new) (N.log nic.new)) }
    ensures usable { OnOk result (kernel.new.usable ≡ true) }
    ensures acts { OnOk result (kernel.new.acts ≤ kernel.old.acts + 1) }
    ensures holds { (name : List ℕ) → C.holds cabinet.new name ≡ C.holds cabinet.old name }
    ensures files_later { (name : List ℕ) → C.faults cabinet.old name ≤ C.faults cabinet.new name }
    ensures later { K.faults sink.old ≤ K.faults sink.new }
    ensures cause { IfErr result (λ fault. IsCaused fault
        (IsSomeAnd (named capture.old) (λ name.
        Rose (C.faults cabinet.old name) (C.faults cabinet.new name)))
        (Rose (K.faults sink.old) (K.faults sink.new))) }
{
    // Called for the laws that are their clauses.
    runs_go_on();
    texts_are_fronts();
    frames_are_fronts();
    sent_frames_are_fronts();
    frames_are_sent_in_turn();
    match next_frame(alloc, capture, cabinet)? {
        Some(frame) => {
            let act = Act::WireIn { frame };
            make_act(alloc, kernel, &act, outcome, nic, text, sink)?;
            Ok(None)
        }
        None => Ok(Some(End::NoFrame { line: number })),
    }
}

// Makes one act.
fn make_act<N: Nic, K: Sink>(
    alloc: Global,
    kernel: &mut Kernel,
    act: &Act,
    outcome: &mut Outcome,
    nic: &mut N,
    text: &mut Bytes,
    sink: &mut K,
) -> Result<(), Fault>
    requires usable { kernel.old.usable ≡ true }
    requires acts { kernel.old.acts < 2 ^ 31 }
    requires fits { Fits act.now }
    requires device { AreTogether kernel.old (N.regs nic.old) (N.log nic.old) }
    ensures made { OnOk result ((J : Journal) → Stands J kernel.old
        → Agrees kernel.old.hosts J (N.regs nic.old) (N.log nic.old)
        → IsMade kernel.old.hosts J act.now (K.taken sink.old) (K.taken sink.new) text.old text.new
        kernel.new (N.regs nic.new) (N.log nic.old) (N.log nic.new)) }
    ensures cut { OnErr result ((J : Journal) → Stands J kernel.old
        → Agrees kernel.old.hosts J (N.regs nic.old) (N.log nic.old)
        → IsCut kernel.old.hosts J act.now (K.taken sink.old) (K.taken sink.new) text.old text.new
        (N.log nic.old) (N.log nic.new)) }
    ensures hosts { kernel.new.hosts ≡ kernel.old.hosts }
    ensures usable { OnOk result (kernel.new.usable ≡ true) }
    ensures acts { OnOk result (kernel.new.acts ≡ kernel.old.acts + 1) }
    ensures later { K.faults sink.old ≤ K.faults sink.new }
    ensures cause { IfErr result (λ fault.
        IsCaused fault ⊥ (Rose (K.faults sink.old) (K.faults sink.new))) }
{
    kernel.step(alloc, act, nic, outcome)?;
    write_outcome(alloc, u64::from(kernel.acts()), outcome, text)?;
    hand_over_if_much(text, sink)?;
    Ok(())
}
