//! The top call over devices, and over cabinets and sinks whose calls fail.
ghost use Rattle.std.specs.Prelude.{◌≡◌, ◌<◌, IfOk};

use ibos_device::{Model8254x, Noisy};
use ibos_kinds::{Bytes, MemCabinet, MemSink, Memory};
use ibos_nic::Nic;
use ibos_run::{Status, run};
use std::alloc::Global;
use std::process::Abort;
use std::test::Fail;

const HOSTS: &[u8] = b"self 192.0.2.10 02:00:00:00:00:01\n\
    gateway 02:00:00:00:00:fe\n\
    host a.example 198.51.100.1\n\
    host b.example 198.51.100.2\n";

const SCRIPT: &[u8] = b"user close 0\nuser close 1\n";

const TEXT: &[u8] = b"1 denied U2 TabClosed\n2 denied U2 TabClosed\nend 2\n";

fn bytes(alloc: Global, text: &[u8]) -> Result<Bytes, Memory> {
    let mut bytes = Bytes::new(alloc);
    bytes.push_slice(text)?;
    Ok(bytes)
}

fn words(alloc: Global) -> Result<[Bytes; 3], Memory> {
    Ok([
        bytes(alloc, b"run")?,
        bytes(alloc, b"table")?,
        bytes(alloc, b"lines")?,
    ])
}

// A cabinet whose read of that number fails, and of which a read gives at most so many bytes.
fn cabinet(alloc: Global, script: Bytes, failing: u32, most: u32) -> Result<MemCabinet, Memory>
    requires { 0 < most }
    ensures held { IfOk result (λ cabinet. cabinet.held_faults ≡ 0) }
    ensures other { IfOk result (λ cabinet. cabinet.other_faults ≡ 0) }
{
    let mut cabinet = MemCabinet::new(alloc);
    cabinet.put(bytes(alloc, b"table")?, bytes(alloc, HOSTS)?)?;
    cabinet.put(bytes(alloc, b"lines")?, script)?;
    cabinet.fail(failing)?;
    cabinet.piece(most);
    Ok(cabinet)
}

// A sink whose write of that number fails, and of which a write takes at most so many bytes.
fn sink(alloc: Global, failing: u32, most: u32) -> Result<MemSink, Memory>
    requires { 0 < most }
    ensures { IfOk result (λ sink. sink.faults ≡ 0) }
{
    let mut sink = MemSink::new(alloc, 100_000)?;
    sink.fail(failing)?;
    sink.piece(most);
    Ok(sink)
}

// Runs words over a cabinet and a sink whose calls have not failed, and over a device at reset.
fn run_new<N: Nic>(
    rt: &(impl Abort + AllocGlobal),
    words: &[Bytes],
    cabinet: &mut MemCabinet,
    nic: &mut N,
    sink: &mut MemSink,
) -> Status
    requires held { cabinet.old.held_faults ≡ 0 }
    requires other { cabinet.old.other_faults ≡ 0 }
    requires sink { sink.old.faults ≡ 0 }
{
    assert!(rt; nic.at_reset());
    run(rt.alloc(), words, cabinet, nic, sink)
}

// What the acts alone print.
const MADE: &[u8] = b"1 denied U2 TabClosed\n2 denied U2 TabClosed\n";

// A call of that number isn't reached.
const NEVER: u32 = 1_000_000;

#[test]
fn a_failed_call_ends_the_run(rt: HostRuntime) -> Result<(), Fail> {
    let alloc = rt.alloc();
    // By whole files the table is read by two calls, and so is the script, whose acts are made
    // before the second. A text of five bytes a write has a front that ends within a line.
    for (read, read_most, write, write_most, status, text) in [
        (NEVER, 1u32, NEVER, 1u32, Status::Done, TEXT),
        (0, 9999, NEVER, 9999, Status::ReadFault, b"".as_slice()),
        (1, 9999, NEVER, 9999, Status::ReadFault, b""),
        (2, 9999, NEVER, 9999, Status::ReadFault, b""),
        (3, 9999, NEVER, 9999, Status::ReadFault, MADE),
        (NEVER, 9999, 0, 9999, Status::WriteFault, b""),
        (NEVER, 9999, 2, 5, Status::WriteFault, b"1 denied U"),
    ] {
        let mut cabinet = cabinet(alloc, bytes(alloc, SCRIPT)?, read, read_most)?;
        let mut sink = sink(alloc, write, write_most)?;
        let ended = run_new(
            &rt,
            &words(alloc)?,
            &mut cabinet,
            &mut Model8254x::new(),
            &mut sink,
        );
        assert_eq!(rt; ended, status);
        assert_eq!(rt; sink.taken(), text);
    }
    // No words are answered with the usage line.
    let mut cabinet = cabinet(alloc, Bytes::new(alloc), NEVER, 1)?;
    let mut sink = sink(alloc, NEVER, 1)?;
    let ended = run_new(&rt, &[], &mut cabinet, &mut Model8254x::new(), &mut sink);
    assert_eq!(rt; ended, Status::Usage);
    assert_eq!(rt;
        sink.taken(),
        b"usage: ibos run HOSTS SCRIPT [CAPTURE] | ibos drill SEED ROUNDS\n".as_slice()
    );
    Ok(())
}

#[test]
fn text_goes_to_the_sink_in_large_pieces(rt: HostRuntime) -> Result<(), Fail> {
    let alloc = rt.alloc();
    let mut script = Bytes::new(alloc);
    for _ in 0..10_000 {
        script.push_slice(b"user close 0\n")?;
    }
    let mut cabinet = cabinet(alloc, script, NEVER, 1_000_000)?;
    let mut sink = sink(alloc, 1, 1_000_000)?;
    let ended = run_new(
        &rt,
        &words(alloc)?,
        &mut cabinet,
        &mut Model8254x::new(),
        &mut sink,
    );
    assert_eq!(rt; ended, Status::WriteFault);
    let taken = sink.taken().len();
    assert!(rt; taken >= 65_536 && taken < 65_600);
    Ok(())
}

// Each page binds a flow, and the frame that comes is one of the first page's flow.
const FRAME_SCRIPT: &[u8] = b"user open 0 http://a.example/\n\
    user open 1 http://b.example/\n\
    net 0.0 flow tcp\n\
    net 1.0 flow udp\n\
    dev write 0x2800 0x100000\n\
    dev write 0x2808 0x400\n\
    dev rx 0 0 0\n\
    dev write 0x0100 0x04008002\n\
    dev write 0x2818 0x1\n\
    wire in 0200000000010200000000fe08004500002b0001400040064e8dc6336401c000020a005080000000000\
    100000001501820005ed50000616263\n\
    dev bell rx\n";

const FRAME_TEXT: &[u8] = b"1 ok\n\
    1 0.0 opened http://a.example/\n\
    2 ok\n\
    2 1.0 opened http://b.example/\n\
    3 ok\n\
    3 0.0 flow 0 32768 198.51.100.1 80\n\
    4 ok\n\
    4 1.0 flow 0 33280 198.51.100.2 80\n\
    5 ok\n\
    6 ok\n\
    7 ok\n\
    8 ok\n\
    9 ok\n\
    10 ok\n\
    10 wire heard\n\
    11 ok\n\
    11 dev lent 0 1\n";

// What came, and that the first page is told it.
const CAME: &[u8] =
    b"11 0.0 frame 0 0200000000010200000000fe08004500002b0001400040064e8dc6336401c000020a00508000\
      0000000100000001501820005ed50000616263\n\
      end 11\n";

// What the other device writes in its place, and that the page whose flow it names is told it.
const NOISE: &[u8] =
    b"\x02\x00\x00\x00\x00\x01\x02\x00\x00\x00\x00\xfe\x08\x00E\x00\x00\x1e\x00\x02\x00\x00@\x11\
      \x8e\x8d\xc63d\x02\xc0\x00\x02\x0a\x00P\x82\x00\x00\x0a\x00\x00hi";

const NOISE_CAME: &[u8] =
    b"11 1.0 frame 0 0200000000010200000000fe08004500001e0002000040118e8dc6336402c000020a00508200\
      000a00006869\n\
      end 11\n";

// The text of a run over a device.
fn text_over<N: Nic>(rt: &(impl Abort + AllocGlobal), nic: &mut N) -> Result<MemSink, Memory> {
    let alloc = rt.alloc();
    let mut cabinet = cabinet(alloc, bytes(alloc, FRAME_SCRIPT)?, NEVER, 9999)?;
    let mut sink = sink(alloc, NEVER, 9999)?;
    let ended = run_new(rt, &words(alloc)?, &mut cabinet, nic, &mut sink);
    assert!(rt; ended == Status::Done);
    Ok(sink)
}

#[test]
fn what_the_device_wrote_is_told_and_not_what_came(rt: HostRuntime) -> Result<(), Fail> {
    let alloc = rt.alloc();
    let honest = text_over(&rt, &mut Model8254x::new())?;
    let noise = bytes(alloc, NOISE)?;
    assert!(rt; noise.len() <= 1518);
    let noisy = text_over(&rt, &mut Noisy::new(noise))?;
    for (taken, came) in [(honest.taken(), CAME), (noisy.taken(), NOISE_CAME)] {
        let mut text = bytes(alloc, FRAME_TEXT)?;
        text.push_slice(came)?;
        assert_eq!(rt; taken, text.as_slice());
    }
    Ok(())
}
