//! The worked example over both devices, and the edges of what is heard and sent.
ghost use Rattle.std.specs.Prelude.{◌≡◌, ◌<◌, length, IsTrue};
ghost use Rattle.ibos_pool.specs.declared.name.Ring.TheVariants.{Receive, Transmit};
ghost use Rattle.ibos_pool.specs.declared.place.Place.{Place};
ghost use Rattle.ibos_pool.specs.Memory.{IsLent, is_lent_at};
ghost use Rattle.ibos_pool.specs.Names.{IsLoanOf};
ghost use Rattle.ibos_pool.specs.Places.{slot_address};
ghost use Rattle.ibos_nic.specs.Registers.{can_receive, can_transmit, receive_head, transmit_head};
ghost use Rattle.ibos_nic.specs.Device.{MayReceive, MayTransmit};

use crate::{Model8254x, Noisy};
use ibos_kinds::{Bytes, Verdict};
use ibos_nic::{Nic, Reg, RxDesc, TxDesc};
use ibos_pool::{Away, Mem, Name, Pool, Ring};
use std::alloc::Global;
use std::mem::size_of;
use std::process::Abort;
use std::test::Fail;

const TCP_FRAME: &[u8; 57] =
    b"\x02\0\0\0\0\x01\x02\0\0\0\0\xfe\x08\0\x45\0\0\x2b\0\x01\x40\0\x40\x06\x4e\x8d\xc6\x33\x64\
      \x01\xc0\0\x02\x0a\0\x50\x80\0\0\0\0\x01\0\0\0\x01\x50\x18\x20\0\x5e\xd5\0\0abc";

const UDP_FRAME: &[u8; 44] =
    b"\x02\0\0\0\0\x01\x02\0\0\0\0\xfe\x08\0\x45\0\0\x1e\0\x02\0\0\x40\x11\x8e\x8d\xc6\x33\x64\
      \x02\xc0\0\x02\x0a\0\x50\x82\0\0\x0a\0\0hi";

// Whether a descriptor of the receive ring names a buffer that is lent.
fn may_receive(mem: &Mem, slot: u32) -> bool
    requires { slot < 64 }
    ensures { IsTrue result → MayReceive mem.now (slot_address Receive slot) }
{
    ibos_pool::parts_are_apart();
    let mut bytes = [0; 16];
    mem.ring_get(Ring::Receive, slot, &mut bytes);
    let address = RxDesc::from_bytes(&bytes).address;
    address <= u64::from(u32::MAX) && mem.is_lent(address as u32, 2048)
}

// Whether the device has no descriptor for a frame, or has one that names a buffer that is lent.
fn may_arrive<N: Nic>(nic: &mut N, mem: &Mem) -> bool
    ensures { IsTrue result → IsTrue (can_receive (N.regs nic.new))
        → MayReceive mem.now (receive_head (N.regs nic.new)) }
{
    let control = nic.read(Reg::Rctl);
    let base = nic.read(Reg::Rdbal);
    let high = nic.read(Reg::Rdbah);
    let tail = nic.read(Reg::Rdt);
    let slot = nic.read(Reg::Rdh);
    if control & 2 != 2 || slot == tail {
        return true;
    }
    base == 0x0010_0000 && high == 0 && slot < 64 && may_receive(mem, slot)
}

// A frame comes.
fn arrive<N: Nic>(
    rt: &impl Abort,
    alloc: Global,
    nic: &mut N,
    frame: &[u8],
    mem: &mut Mem,
) -> Verdict
    ensures lent { (p : Place) → is_lent_at mem.new p ≡ is_lent_at mem.old p }
    ensures areas { length mem.new ≡ length mem.old }
{
    assert!(rt; may_arrive(nic, mem));
    nic.arrive(alloc, frame, mem).expect(rt, "memory")
}

// The receive tail goes on by one slot.
fn ring<N: Nic>(rt: &impl Abort, nic: &mut N, mem: &Mem) {
    let base = nic.read(Reg::Rdbal);
    let high = nic.read(Reg::Rdbah);
    let tail = nic.read(Reg::Rdt);
    assert!(rt; base == 0x0010_0000 && high == 0 && tail < 64);
    assert!(rt; may_receive(mem, tail));
    nic.write(Reg::Rdt, (tail + 1) % 64, mem);
}

// A buffer that is lent, at address 0x00104800.
fn lent(rt: &impl Abort, pool: &mut Pool, mem: &mut Mem) -> Away
    ensures lent { IsLent mem.new result.place }
    ensures loan { IsLoanOf pool.new result }
{
    assert!(rt; 0 < pool.areas());
    let loan = pool.take(Name { area: 0, index: 5 }).expect(rt, "free");
    assert!(rt; mem.is_kept(&loan));
    mem.lend(loan)
}

fn post(mem: &mut Mem, slot: u32, away: &Away)
    requires slot { slot < 64 }
    requires lent { IsLent mem.old away.now.place }
    ensures { IsLent mem.new away.now.place }
{
    let descriptor = RxDesc {
        address: u64::from(away.address()),
        length: 0,
        checksum: 0,
        status: 0,
        errors: 0,
        special: 0,
    };
    let mut bytes = [0; 16];
    descriptor.to_bytes(&mut bytes);
    mem.ring_put(Ring::Receive, slot, &bytes);
}

fn set_up<N: Nic>(rt: &impl Abort, nic: &mut N, mem: &Mem) {
    assert!(rt; nic.at_reset());
    nic.write(Reg::Ral0, 0x0000_0002, mem);
    nic.write(Reg::Rah0, 0x8000_0100, mem);
    nic.write(Reg::Rdbal, 0x0010_0000, mem);
    nic.write(Reg::Rdlen, 0x400, mem);
}

// What stands in the first receive descriptor.
fn first_descriptor(mem: &Mem) -> [u8; 16] {
    let mut bytes = [0; 16];
    mem.ring_get(Ring::Receive, 0, &mut bytes);
    bytes
}

// The first frame is heard, with those bytes written for it, and the second is missed.
fn hears_one<N: Nic>(
    rt: &impl Abort,
    alloc: Global,
    nic: &mut N,
    written: &[u8],
    after: &[u8; 16],
) -> Result<(), Fail> {
    let mut pool = Pool::new(alloc)?;
    let mut mem = Mem::new(alloc)?;
    let away = lent(rt, &mut pool, &mut mem);
    assert_eq!(rt; away.address(), 0x0010_4800);
    post(&mut mem, 0, &away);
    assert!(rt; &first_descriptor(&mem) == b"\x00\x48\x10\0\0\0\0\0\0\0\0\0\0\0\0\0");
    set_up(rt, nic, &mem);
    ring(rt, nic, &mem);
    nic.write(Reg::Rctl, 0x0400_8002, &mem);
    assert!(rt; arrive(rt, alloc, nic, TCP_FRAME, &mut mem) == Verdict::Heard);
    assert!(rt; &first_descriptor(&mem) == after);
    let loan = mem.regain(away);
    assert!(rt; written.len() <= 2048);
    assert!(rt; &mem.bytes(&loan)[..written.len()] == written);
    pool.give(loan);
    assert!(rt; arrive(rt, alloc, nic, TCP_FRAME, &mut mem) == Verdict::Missed);
    assert_eq!(rt; nic.read(Reg::Mpc), 1);
    assert_eq!(rt; nic.read(Reg::Mpc), 0);
    assert_eq!(rt; nic.read(Reg::Icr), 0xc0);
    assert_eq!(rt; nic.read(Reg::Icr), 0);
    assert_eq!(rt; nic.read(Reg::Rdh), 1);
    Ok(())
}

// The log takes no memory: a device is its registers, and whether its log is empty.
const MODEL_BYTES: usize = size_of::<Model8254x>();

const EXPECTED_BYTES: usize = size_of::<([u32; 18], bool)>();

#[test]
fn the_log_takes_no_memory(rt: HostRuntime) -> Result<(), Fail> {
    assert_eq!(rt; MODEL_BYTES, EXPECTED_BYTES);
    assert_eq!(rt; MODEL_BYTES, 76);
    let mut model = Model8254x::new();
    let mem = Mem::new(rt.alloc())?;
    assert!(rt; model.at_reset());
    model.write(Reg::Ral0, 2, &mem);
    assert!(rt; !model.at_reset());
    Ok(())
}

#[test]
fn both_devices_hear_one_frame(rt: HostRuntime) -> Result<(), Fail> {
    let mut model = Model8254x::new();
    let after = b"\x00\x48\x10\0\0\0\0\0\x39\0\0\0\x03\0\0\0";
    hears_one(&rt, rt.alloc(), &mut model, TCP_FRAME, after)?;
    let mut bytes = Bytes::new(rt.alloc());
    bytes.push_slice(UDP_FRAME).expect(&rt, "memory");
    assert_eq!(rt; bytes.len(), 44);
    let mut noisy = Noisy::new(bytes);
    let after = b"\x00\x48\x10\0\0\0\0\0\x2c\0\0\0\x03\0\0\0";
    hears_one(&rt, rt.alloc(), &mut noisy, UDP_FRAME, after)?;
    Ok(())
}

// A descriptor is posted at the receive tail and rung, and a frame comes.
fn round<N: Nic>(
    rt: &impl Abort,
    alloc: Global,
    nic: &mut N,
    frame: &[u8],
    mem: &mut Mem,
    away: &Away,
) -> Verdict
    requires { IsLent mem.old away.now.place }
    ensures { IsLent mem.new away.now.place }
{
    let tail = nic.read(Reg::Rdt);
    assert!(rt; tail < 64);
    post(mem, tail, away);
    ring(rt, nic, mem);
    arrive(rt, alloc, nic, frame, mem)
}

#[test]
fn frames_at_the_edges(rt: HostRuntime) -> Result<(), Fail> {
    let mut nic = Model8254x::new();
    let mut pool = Pool::new(rt.alloc())?;
    let mut mem = Mem::new(rt.alloc())?;
    let away = lent(&rt, &mut pool, &mut mem);
    set_up(&rt, &mut nic, &mem);
    let mut frame = [0; 1519];
    frame[..6].copy_from_slice(&[2, 0, 0, 0, 0, 1]);

    // Receiving is not enabled: nothing is counted.
    let verdict = round(&rt, rt.alloc(), &mut nic, &frame[..60], &mut mem, &away);
    assert!(rt; verdict == Verdict::Missed);
    assert_eq!(rt; (nic.read(Reg::Mpc), nic.read(Reg::Icr)), (0, 0));
    nic.write(Reg::Rctl, 0x0400_8002, &mem);

    for (len, last, verdict) in [
        (13, 1, Verdict::Filtered),
        (14, 1, Verdict::Heard),
        (1518, 1, Verdict::Heard),
        (1519, 1, Verdict::Filtered),
        (60, 2, Verdict::Filtered),
    ] {
        frame[5] = last;
        let found = round(&rt, rt.alloc(), &mut nic, &frame[..len], &mut mem, &away);
        assert!(rt; found == verdict, "{len} {last}");
    }
    let to_all = [0xff; 60];
    let mut heard = 0u32;
    for _ in 0..64 {
        let verdict = round(&rt, rt.alloc(), &mut nic, &to_all, &mut mem, &away);
        if verdict == Verdict::Heard {
            heard = heard.wrapping_add(1);
        }
    }
    assert_eq!(rt; heard, 64);
    // The head went around the ring.
    assert_eq!(rt; nic.read(Reg::Rdh), 2);
    let loan = mem.regain(away);
    pool.give(loan);
    Ok(())
}

// Whether a descriptor of the transmit ring names a buffer that is lent, with its length inside.
fn may_send(mem: &Mem, slot: u32) -> bool
    requires { slot < 64 }
    ensures { IsTrue result → MayTransmit mem.now (slot_address Transmit slot) }
{
    ibos_pool::parts_are_apart();
    let mut bytes = [0; 16];
    mem.ring_get(Ring::Transmit, slot, &mut bytes);
    let descriptor = TxDesc::from_bytes(&bytes);
    let address = descriptor.address;
    descriptor.length <= 2048 && address <= u64::from(u32::MAX) && mem.is_lent(address as u32, 2048)
}

// Whether the device has nothing to send, or may send what its descriptor names.
fn may_transmit<N: Nic>(nic: &mut N, mem: &Mem) -> bool
    ensures { IsTrue result → IsTrue (can_transmit (N.regs nic.new))
        → MayTransmit mem.now (transmit_head (N.regs nic.new)) }
{
    let control = nic.read(Reg::Tctl);
    let base = nic.read(Reg::Tdbal);
    let high = nic.read(Reg::Tdbah);
    let tail = nic.read(Reg::Tdt);
    let slot = nic.read(Reg::Tdh);
    if control & 2 != 2 || slot == tail {
        return true;
    }
    base == 0x0010_1000 && high == 0 && slot < 64 && may_send(mem, slot)
}

fn transmit<N: Nic>(rt: &impl Abort, alloc: Global, nic: &mut N, mem: &mut Mem) -> bool
    ensures lent { (p : Place) → is_lent_at mem.new p ≡ is_lent_at mem.old p }
    ensures areas { length mem.new ≡ length mem.old }
{
    assert!(rt; may_transmit(nic, mem));
    nic.transmit(alloc, mem).expect(rt, "memory")
}

// The transmit tail goes on by one slot.
fn ring_to_send<N: Nic>(rt: &impl Abort, nic: &mut N, mem: &Mem) {
    let base = nic.read(Reg::Tdbal);
    let high = nic.read(Reg::Tdbah);
    let tail = nic.read(Reg::Tdt);
    assert!(rt; base == 0x0010_1000 && high == 0 && tail < 64);
    assert!(rt; may_send(mem, tail));
    nic.write(Reg::Tdt, (tail + 1) % 64, mem);
}

fn post_to_send(mem: &mut Mem, away: &Away, length: u16)
    requires { IsLent mem.old away.now.place }
    ensures { IsLent mem.new away.now.place }
{
    let descriptor = TxDesc {
        address: u64::from(away.address()),
        length,
        cso: 0,
        cmd: 0x0b,
        sta: 0,
        css: 0,
        special: 0,
    };
    let mut bytes = [0; 16];
    descriptor.to_bytes(&mut bytes);
    mem.ring_put(Ring::Transmit, 0, &bytes);
}

// A frame is heard, and as many bytes as were written for it are sent, once.
fn sends_once<N: Nic>(
    rt: &impl Abort,
    alloc: Global,
    nic: &mut N,
    length: u16,
    after: &[u8; 16],
) -> Result<(), Fail> {
    let mut pool = Pool::new(alloc)?;
    let mut mem = Mem::new(alloc)?;
    let away = lent(rt, &mut pool, &mut mem);
    set_up(rt, nic, &mem);
    nic.write(Reg::Rctl, 0x0400_8002, &mem);
    let verdict = round(rt, alloc, nic, TCP_FRAME, &mut mem, &away);
    assert!(rt; verdict == Verdict::Heard);
    nic.write(Reg::Tdbal, 0x0010_1000, &mem);
    nic.write(Reg::Tdlen, 0x400, &mem);
    nic.write(Reg::Tctl, 2, &mem);
    assert!(rt; !transmit(rt, alloc, nic, &mut mem), "nothing is rung");
    post_to_send(&mut mem, &away, length);
    ring_to_send(rt, nic, &mem);
    assert!(rt; transmit(rt, alloc, nic, &mut mem));
    assert!(rt;
        !transmit(rt, alloc, nic, &mut mem),
        "the head is at the tail"
    );
    let mut bytes = [0; 16];
    mem.ring_get(Ring::Transmit, 0, &mut bytes);
    assert!(rt; &bytes == after);
    assert_eq!(rt; (nic.read(Reg::Tdh), nic.read(Reg::Icr)), (1, 0x81));
    let loan = mem.regain(away);
    pool.give(loan);
    Ok(())
}

#[test]
fn both_devices_send_a_frame_once(rt: HostRuntime) -> Result<(), Fail> {
    let mut model = Model8254x::new();
    let after = b"\x00\x48\x10\0\0\0\0\0\x39\0\0\x0b\x01\0\0\0";
    sends_once(&rt, rt.alloc(), &mut model, 57, after)?;
    let mut bytes = Bytes::new(rt.alloc());
    bytes.push_slice(UDP_FRAME).expect(&rt, "memory");
    assert_eq!(rt; bytes.len(), 44);
    let mut noisy = Noisy::new(bytes);
    let after = b"\x00\x48\x10\0\0\0\0\0\x2c\0\0\x0b\x01\0\0\0";
    sends_once(&rt, rt.alloc(), &mut noisy, 44, after)?;
    Ok(())
}
