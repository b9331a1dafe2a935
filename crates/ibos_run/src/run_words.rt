// The top call.
ghost use Rattle.std.specs.Prelude.{◌≡◌, ◌⊎◌, ◌≤◌, ◌<◌, ◌+◌, ◌-◌, ◌^◌, [], ◌∷◌, IsSome, IsSomeAnd};
ghost use Rattle.std.specs.Prelude.{IfSome, IfOk, IfErr, OnErr, OnOk, List, ℕ};
ghost use Rattle.std.specs.List.{All, Any};
ghost use Rattle.std.specs.Option.{option_copied, option_map};
ghost use Rattle.ibos_kinds.specs.Outside.{Rose, taken_after};
ghost use Rattle.ibos_origin.specs.Reads.{Reads};
ghost use Rattle.ibos_origin.specs.Tables.{hosts_in};
ghost use Rattle.ibos_model.specs.Logs.{written_in};
ghost use Rattle.ibos_run.specs.Device.{AreRegistersOf, AreSentRightly, IsLogged, IsLoggedFront};
ghost use Rattle.ibos_run.specs.Device.{IsReset};
ghost use Rattle.ibos_run.specs.Faults.{IsCaused, IsFaultless, OnWhole, status_for};
ghost use Rattle.ibos_run.specs.Forms.{IsBounded, form_of};
ghost use Rattle.ibos_run.specs.Inputs.{IsIsolatedInput, frames_by, input, input_of, script_with};
ghost use Rattle.ibos_run.specs.Inputs.{session_in, table_in, wanted};
ghost use Rattle.ibos_run.specs.Refusals.{capture_refusal, host_refusal, refusal_line};
ghost use Rattle.ibos_run.specs.Session.{IsBroken, IsTold};
ghost use Rattle.ibos_run.specs.Took.{Took, TookFront};
ghost use Rattle.ibos_run.specs.Words.{Files, files_of, form_in, three_words, with_capture};

use crate::capture::Capture;
use crate::drill::run_drill;
use crate::fault::{Fault, Status};
use crate::gather::{hand_over, make_room};
use crate::numbers::{read_rounds, read_seed};
use crate::session::run_session;
use crate::texts::{File, refusal, usage};
use crate::transfer::{read_file, write_all};
use ibos_capture::{CapFault, CaptureFault};
use ibos_kinds::{Bytes, Cabinet, Failed, Sink};
use ibos_model::{acts_make_runs, isolation, sends_are_right};
use ibos_nic::Nic;
use ibos_origin::{HostFault, Hosts, HostsFault};
use std::alloc::Global;

// The most that a host table may have, in bytes.
const MAX_HOSTS_LEN: usize = 4_194_304;

/// Runs the words of a command line: `run HOSTS SCRIPT` or `run HOSTS SCRIPT CAPTURE`, with the
/// names of a host table, a script and a packet capture, or `drill SEED ROUNDS`, with two numbers.
///
/// The host table is read first, then the capture if one is named, and then the script, each where
/// what comes before has no fault. Each line of the script that is an act is one step of a kernel,
/// and the text of its outcome goes to the sink, numbered from 1; a line `wire next` is the act
/// that the next frame of the capture comes in. The last line is `end K` with the number of acts,
/// or `refused FILE K N NAME` with the first fault: FILE is `hosts`, `capture` or `script`, K the
/// line or the capture's entry, N and NAME the fault's number and name. A drill makes its acts in
/// the same way, and writes one line that counts them. Any other words are answered with the usage
/// line, for which no memory is taken.
///
/// Of the capture all headers are read first, and each frame when a line wants it; the script is
/// read line by line while it is run. So acts may have been made before a read of either fails. The
/// device is at reset, and is asked for nothing until the host table and those headers are read. In
/// the clauses W is what it wrote for the frames that came in, by its log at the end.
///
/// # Examples
///
/// ```
/// use ibos_device::Model8254x;
/// use ibos_kinds::{Bytes, MemCabinet, MemSink, Memory};
/// use ibos_run::{Status, run};
/// use std::process::Abort;
///
/// const HOSTS: &[u8] = b"self 192.0.2.10 02:00:00:00:00:01\ngateway 02:00:00:00:00:fe\n";
///
/// fn run_script(rt: &(impl Abort + AllocGlobal)) -> Result<(), Memory> {
///     let alloc = rt.alloc();
///     let bytes = |text: &[u8]| Bytes::from_slice(alloc, text);
///     let mut cabinet = MemCabinet::new(alloc);
///     cabinet.put(bytes(b"hosts")?, bytes(HOSTS)?)?;
///     cabinet.put(bytes(b"script")?, bytes(b"user close 0\n")?)?;
///     let words = [bytes(b"run")?, bytes(b"hosts")?, bytes(b"script")?];
///     let mut nic = Model8254x::new();
///     let mut sink = MemSink::new(alloc, 4096)?;
///     let status = run(alloc, &words, &mut cabinet, &mut nic, &mut sink);
///     assert_eq!(rt; status, Status::Done);
///     assert_eq!(rt; sink.taken(), b"1 denied U2 TabClosed\nend 1\n".as_slice());
///     Ok(())
/// }
/// ```
pub fn run<C: Cabinet, N: Nic, K: Sink>(
    alloc: Global,
    words: &[Bytes],
    cabinet: &mut C,
    nic: &mut N,
    sink: &mut K,
) -> Status
    requires reset { IsReset (N.regs nic.old) (N.log nic.old) }
    requires sink_count { K.faults sink.old < 2 ^ 64 - 1 }
    requires file_counts { IfSome (form_in words.now) (λ form.
        All (λ name. C.faults cabinet.old name < 2 ^ 64 - 1) (files_of form)) }

    // Where no failed read or write ended the run, and it was not out of memory, its status, its
    // text and the device's log are those of the inputs, with that W.
    ensures status { OnWhole result (
        IfSome (input words.now (C.holds cabinet.old)) (λ i. result ≡ status_for i)) }
    ensures text { OnWhole result (
        IfSome (input words.now (C.holds cabinet.old)) (λ i.
        K.taken sink.new
        ≡ taken_after (K.taken sink.old) (wanted i (written_in (N.log nic.new))))) }
    ensures log { OnWhole result (
        IfSome (input words.now (C.holds cabinet.old)) (λ i. IsLogged i (N.log nic.new))) }

    // With any status the sink took a front of that text, a front of those frames came in, and a
    // front of those that the journal sent went out.
    ensures text_front { IfSome (input words.now (C.holds cabinet.old)) (λ i.
        TookFront (K.taken sink.old) (K.taken sink.new) []
        (wanted i (written_in (N.log nic.new)))) }
    ensures log_front { IfSome (input words.now (C.holds cabinet.old)) (λ i.
        IsLoggedFront i (N.log nic.new)) }

    // Each frame that went out, with any status, is that of a send which the journal accepted. It
    // breaks no rule: it goes from a port of its sender to the endpoint of its sender's origin.
    ensures sends { IfSome (input words.now (C.holds cabinet.old)) (λ i.
        AreSentRightly i (N.log nic.new)) }

    // Where the inputs were read to their end, the device's registers are those of their journal.
    ensures registers { OnWhole result (
        IfSome (input words.now (C.holds cabinet.old)) (λ i.
        AreRegistersOf i (N.regs nic.new) (written_in (N.log nic.new)))) }

    // In the journal of the inputs each instance is told what the facts that concern it give.
    ensures isolation { IfSome (input words.now (C.holds cabinet.old))
        (IsIsolatedInput (written_in (N.log nic.new))) }

    // The cabinet holds what it held.
    ensures holds { (name : List ℕ) → C.holds cabinet.new name ≡ C.holds cabinet.old name }

    // Usage comes exactly where the words are no form, unless a write failed.
    ensures usage { result ≡ Status.Usage → form_in words.now ≡ None }
    ensures no_form { form_in words.now ≡ None
        → (result ≡ Status.Usage) ⊎ (result ≡ Status.WriteFault) }

    // Each fault has its cause.
    ensures read { result ≡ Status.ReadFault → IsSomeAnd (form_in words.now) (λ form.
        Any (λ name. Rose (C.faults cabinet.old name) (C.faults cabinet.new name))
        (files_of form)) }
    ensures write { result ≡ Status.WriteFault → Rose (K.faults sink.old) (K.faults sink.new) }
    ensures memory { result ≡ Status.Memory → IsSome (form_in words.now) }
    ensures complete { K.faults sink.new ≡ K.faults sink.old
        → IfSome (form_in words.now) (λ form.
        All (λ name. C.faults cabinet.new name ≡ C.faults cabinet.old name) (files_of form))
        → IsFaultless result }
{
    // Called for the laws that its clauses follow from.
    isolation();
    acts_make_runs();
    sends_are_right();
    match read_form(words) {
        None => match write_all(sink, usage()) {
            Ok(()) => Status::Usage,
            Err(Failed::Failed) => Status::WriteFault,
        },
        Some(form) => match run_form(alloc, form, cabinet, nic, sink) {
            Ok(status) => status,
            Err(fault) => fault.status(),
        },
    }
}

/// What words ask for.
#[derive(Clone, Copy)]
pub enum Form<'a> {
    /// A session over files of these names.
    Files {
        hosts: &'a Bytes,
        script: &'a Bytes,
        capture: Option<&'a Bytes>,
    },
    /// A drill.
    Rounds {
        seed: u64,
        rounds: u32,
    },
}

fn read_form(words: &[Bytes]) -> Option<Form<'_>>
    ensures form { option_map form_of result ≡ form_in words.now }
    ensures few { IfSome result IsBounded }
{
    match words {
        [verb, second, third] => read_three(verb, second, third),
        [verb, hosts, script, capture] if verb.as_slice() == b"run".as_slice() => {
            Some(Form::Files {
                hosts,
                script,
                capture: Some(capture),
            })
        }
        _ => None,
    }
}

fn read_three<'a>(verb: &'a Bytes, second: &'a Bytes, third: &'a Bytes) -> Option<Form<'a>>
    ensures form { option_map form_of result ≡ three_words verb.now second.now third.now }
    ensures few { IfSome result IsBounded }
{
    if verb.as_slice() == b"run".as_slice() {
        return Some(Form::Files {
            hosts: second,
            script: third,
            capture: None,
        });
    }
    if verb.as_slice() == b"drill".as_slice() {
        let seed = read_seed(second.as_slice())?;
        let rounds = read_rounds(third.as_slice())?;
        return Some(Form::Rounds { seed, rounds });
    }
    None
}

// Runs what is asked for.
fn run_form<C: Cabinet, N: Nic, K: Sink>(
    alloc: Global,
    form: Form<'_>,
    cabinet: &mut C,
    nic: &mut N,
    sink: &mut K,
) -> Result<Status, Fault>
    requires reset { IsReset (N.regs nic.old) (N.log nic.old) }
    requires few { IsBounded form }
    ensures status { IfOk result (λ status.
        IfSome (input_of (C.holds cabinet.old) (form_of form.entry)) (λ i. status ≡ status_for i)) }
    ensures told { OnOk result (
        IfSome (input_of (C.holds cabinet.old) (form_of form.entry)) (λ i.
        IsTold i (K.taken sink.old) (K.taken sink.new) (N.regs nic.new) (N.log nic.new))) }
    ensures broken { OnErr result (
        IfSome (input_of (C.holds cabinet.old) (form_of form.entry)) (λ i.
        IsBroken i (K.taken sink.old) (K.taken sink.new) [] (N.log nic.new))) }
    ensures ends { IfOk result (λ status. (status ≡ Status.Done) ⊎ (status ≡ Status.Refused)) }
    ensures holds { (name : List ℕ) → C.holds cabinet.new name ≡ C.holds cabinet.old name }
    ensures cause { IfErr result (λ fault. IsCaused fault
        (Any (λ name. Rose (C.faults cabinet.old name) (C.faults cabinet.new name))
        (files_of (form_of form.entry)))
        (Rose (K.faults sink.old) (K.faults sink.new))) }
{
    match form {
        Form::Files {
            hosts,
            script,
            capture,
        } => run_files(alloc, hosts, script, capture, cabinet, nic, sink),
        Form::Rounds { seed, rounds } => run_drill(alloc, seed, rounds, nic, sink),
    }
}

// What is gathered is handed over, also where a read failed or the run is out of memory.
fn run_files<C: Cabinet, N: Nic, K: Sink>(
    alloc: Global,
    hosts: &Bytes,
    script: &Bytes,
    capture: Option<&Bytes>,
    cabinet: &mut C,
    nic: &mut N,
    sink: &mut K,
) -> Result<Status, Fault>
    requires { IsReset (N.regs nic.old) (N.log nic.old) }
    ensures status { IfOk result (λ status.
        IfSome (input_of (C.holds cabinet.old)
        (Files hosts.now script.now (option_copied capture.entry))) (λ i.
        status ≡ status_for i)) }
    ensures told { OnOk result (
        IfSome (input_of (C.holds cabinet.old)
        (Files hosts.now script.now (option_copied capture.entry))) (λ i.
        IsTold i (K.taken sink.old) (K.taken sink.new) (N.regs nic.new) (N.log nic.new))) }
    ensures broken { OnErr result (
        IfSome (input_of (C.holds cabinet.old)
        (Files hosts.now script.now (option_copied capture.entry))) (λ i.
        IsBroken i (K.taken sink.old) (K.taken sink.new) [] (N.log nic.new))) }
    ensures ends { IfOk result (λ status. (status ≡ Status.Done) ⊎ (status ≡ Status.Refused)) }
    ensures holds { (name : List ℕ) → C.holds cabinet.new name ≡ C.holds cabinet.old name }
    ensures cause { IfErr result (λ fault. IsCaused fault
        (Any (λ name. Rose (C.faults cabinet.old name) (C.faults cabinet.new name))
        (files_of (Files hosts.now script.now (option_copied capture.entry))))
        (Rose (K.faults sink.old) (K.faults sink.new))) }
{
    let mut text = make_room(alloc)?;
    match gather(alloc, hosts, script, capture, cabinet, nic, &mut text, sink) {
        Ok(status) => Ok(status),
        Err(fault) => {
            hand_over(&mut text, sink)?;
            Err(fault)
        }
    }
}

fn gather<C: Cabinet, N: Nic, K: Sink>(
    alloc: Global,
    hosts: &Bytes,
    script: &Bytes,
    capture: Option<&Bytes>,
    cabinet: &mut C,
    nic: &mut N,
    text: &mut Bytes,
    sink: &mut K,
) -> Result<Status, Fault>
    requires reset { IsReset (N.regs nic.old) (N.log nic.old) }
    requires empty { text.old ≡ [] }
    ensures status { IfOk result (λ status.
        IfSome (input_of (C.holds cabinet.old)
        (Files hosts.now script.now (option_copied capture.entry))) (λ i.
        status ≡ status_for i)) }
    ensures told { OnOk result (
        IfSome (input_of (C.holds cabinet.old)
        (Files hosts.now script.now (option_copied capture.entry))) (λ i.
        IsTold i (K.taken sink.old) (K.taken sink.new) (N.regs nic.new) (N.log nic.new))) }
    ensures broken { OnErr result (
        IfSome (input_of (C.holds cabinet.old)
        (Files hosts.now script.now (option_copied capture.entry))) (λ i.
        IsBroken i (K.taken sink.old) (K.taken sink.new) text.new (N.log nic.new))) }
    ensures ends { IfOk result (λ status. (status ≡ Status.Done) ⊎ (status ≡ Status.Refused)) }
    ensures holds { (name : List ℕ) → C.holds cabinet.new name ≡ C.holds cabinet.old name }
    ensures later { K.faults sink.old ≤ K.faults sink.new }
    ensures cause { IfErr result (λ fault. IsCaused fault
        (Any (λ name. Rose (C.faults cabinet.old name) (C.faults cabinet.new name))
        (files_of (Files hosts.now script.now (option_copied capture.entry))))
        (Rose (K.faults sink.old) (K.faults sink.new))) }
{
    match read_hosts(alloc, cabinet, hosts)? {
        Ok(hosts) => gather_capture(alloc, hosts, script, capture, cabinet, nic, text, sink),
        Err(HostsFault::At { line, fault }) => {
            let status = refuse_hosts(alloc, line, fault, text, sink)?;
            Ok(status)
        }
        Err(HostsFault::Memory) => Err(Fault::Memory),
    }
}

fn read_hosts<C: Cabinet>(
    alloc: Global,
    cabinet: &mut C,
    name: &Bytes,
) -> Result<Result<Hosts, HostsFault>, Fault>
    ensures hosts { IfOk result (λ read. IfSome (C.holds cabinet.old name.now) (λ file.
        Reads read (hosts_in (table_in file)))) }
    ensures holds { (name : List ℕ) → C.holds cabinet.new name ≡ C.holds cabinet.old name }
    ensures later { (name : List ℕ) → C.faults cabinet.old name ≤ C.faults cabinet.new name }
    ensures cause { IfErr result (λ fault.
        IsCaused fault (Rose (C.faults cabinet.old name.now) (C.faults cabinet.new name.now)) ⊥) }
{
    let table = read_file(alloc, cabinet, name, MAX_HOSTS_LEN)?;
    let hosts = Hosts::read(alloc, table.as_slice());
    Ok(hosts)
}

fn refuse_hosts<K: Sink>(
    alloc: Global,
    line: u32,
    fault: HostFault,
    text: &mut Bytes,
    sink: &mut K,
) -> Result<Status, Fault>
    requires { text.old ≡ [] }
    ensures status { IfOk result (λ status. status ≡ Status.Refused) }
    ensures text { OnOk result (Took (K.taken sink.old) (K.taken sink.new) []
        (refusal_line (host_refusal (line, fault)))) }
    ensures front { OnErr result (TookFront (K.taken sink.old) (K.taken sink.new) text.new
        (refusal_line (host_refusal (line, fault)))) }
    ensures later { K.faults sink.old ≤ K.faults sink.new }
    ensures cause { IfErr result (λ fault.
        IsCaused fault ⊥ (Rose (K.faults sink.old) (K.faults sink.new))) }
{
    let (number, name) = (fault.number(), fault.name().as_bytes());
    let last = refusal(alloc, File::Hosts, line, number, name)?;
    text.push_slice(last.as_slice())?;
    hand_over(text, sink)?;
    Ok(Status::Refused)
}

// Reads the capture, if one is named, and goes on with the script.
fn gather_capture<C: Cabinet, N: Nic, K: Sink>(
    alloc: Global,
    hosts: Hosts,
    script: &Bytes,
    capture: Option<&Bytes>,
    cabinet: &mut C,
    nic: &mut N,
    text: &mut Bytes,
    sink: &mut K,
) -> Result<Status, Fault>
    requires reset { IsReset (N.regs nic.old) (N.log nic.old) }
    requires empty { text.old ≡ [] }
    ensures status { IfOk result (λ status.
        IfSome (session_in hosts (frames_by (C.holds cabinet.old) (option_copied capture.entry))
        (C.holds cabinet.old script.now)) (λ i. status ≡ status_for i)) }
    ensures told { OnOk result (
        IfSome (session_in hosts (frames_by (C.holds cabinet.old) (option_copied capture.entry))
        (C.holds cabinet.old script.now)) (λ i.
        IsTold i (K.taken sink.old) (K.taken sink.new) (N.regs nic.new) (N.log nic.new))) }
    ensures broken { OnErr result (
        IfSome (session_in hosts (frames_by (C.holds cabinet.old) (option_copied capture.entry))
        (C.holds cabinet.old script.now)) (λ i.
        IsBroken i (K.taken sink.old) (K.taken sink.new) text.new (N.log nic.new))) }
    ensures ends { IfOk result (λ status. (status ≡ Status.Done) ⊎ (status ≡ Status.Refused)) }
    ensures holds { (name : List ℕ) → C.holds cabinet.new name ≡ C.holds cabinet.old name }
    ensures files_later { (name : List ℕ) → C.faults cabinet.old name ≤ C.faults cabinet.new name }
    ensures later { K.faults sink.old ≤ K.faults sink.new }
    ensures cause { IfErr result (λ fault. IsCaused fault
        (Any (λ name. Rose (C.faults cabinet.old name) (C.faults cabinet.new name))
        (with_capture (option_copied capture.entry) (script.now ∷ [])))
        (Rose (K.faults sink.old) (K.faults sink.new))) }
{
    let Some(name) = capture else {
        let mut none = None;
        return run_session(alloc, hosts, script, &mut none, cabinet, nic, text, sink);
    };
    match Capture::read(alloc, cabinet, name)? {
        Ok(capture) => {
            let mut capture = Some(capture);
            run_session(alloc, hosts, script, &mut capture, cabinet, nic, text, sink)
        }
        Err(CaptureFault::At { entry, fault }) => {
            let status = refuse_capture(alloc, entry, fault, text, sink)?;
            Ok(status)
        }
        Err(CaptureFault::Memory) => Err(Fault::Memory),
    }
}

fn refuse_capture<K: Sink>(
    alloc: Global,
    entry: u32,
    fault: CapFault,
    text: &mut Bytes,
    sink: &mut K,
) -> Result<Status, Fault>
    requires { text.old ≡ [] }
    ensures status { IfOk result (λ status. status ≡ Status.Refused) }
    ensures text { OnOk result (Took (K.taken sink.old) (K.taken sink.new) []
        (refusal_line (capture_refusal (entry, fault)))) }
    ensures front { OnErr result (TookFront (K.taken sink.old) (K.taken sink.new) text.new
        (refusal_line (capture_refusal (entry, fault)))) }
    ensures later { K.faults sink.old ≤ K.faults sink.new }
    ensures cause { IfErr result (λ fault.
        IsCaused fault ⊥ (Rose (K.faults sink.old) (K.faults sink.new))) }
{
    let (number, name) = (fault.number(), fault.name().as_bytes());
    let last = refusal(alloc, File::Capture, entry, number, name)?;
    text.push_slice(last.as_slice())?;
    hand_over(text, sink)?;
    Ok(Status::Refused)
}
