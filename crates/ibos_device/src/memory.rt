//! What a device reads and writes in the memory, at the address of a descriptor.
ghost use Rattle.std.specs.Prelude.{◌≡◌, ◌≤◌, ◌∷◌, length};
ghost use Rattle.ibos_nic.specs.declared.log.LogEntry.TheVariants.{Out};
ghost use Rattle.ibos_nic.specs.Device.{IsLentFrom, IsReceived, IsTransmitted, MayReceive};
ghost use Rattle.ibos_nic.specs.Device.{MayTransmit, frame_at, rx_at, tx_at};
ghost use Rattle.ibos_nic.specs.Bits.{max_frame};

use crate::history::History;
use ibos_nic::{DONE, END_OF_PACKET, RxDesc, TxDesc};
use ibos_pool::{BUFFER_BYTES, DESCRIPTOR_BYTES, Mem};

// A lent buffer's address, as the memory takes it.
fn short(mem: &Mem, address: u64) -> u32
    requires { IsLentFrom mem.now address }
    ensures { result ≡ address }
{
    let _areas = mem.areas();
    address as u32
}

fn read_rx(mem: &Mem, at: u32) -> RxDesc
    requires { MayReceive mem.now at }
    ensures { result ≡ rx_at mem.now at }
{
    let mut bytes = [0; DESCRIPTOR_BYTES as usize];
    mem.dev_read(at, &mut bytes);
    RxDesc::from_bytes(&bytes)
}

fn read_tx(mem: &Mem, at: u32) -> TxDesc
    requires { MayTransmit mem.now at }
    ensures { result ≡ tx_at mem.now at }
{
    let mut bytes = [0; DESCRIPTOR_BYTES as usize];
    mem.dev_read(at, &mut bytes);
    TxDesc::from_bytes(&bytes)
}

/// Writes a frame into the buffer that the receive descriptor names, and says so in the descriptor.
pub(crate) fn put_frame(mem: &mut Mem, at: u32, written: &[u8])
    requires descriptor { MayReceive mem.old at }
    requires size { length written.now ≤ max_frame }
    ensures { IsReceived mem.old mem.new at written.now }
{
    ibos_pool::parts_are_apart();
    let descriptor = read_rx(mem, at);
    let received = RxDesc {
        address: descriptor.address,
        length: written.len() as u16,
        checksum: 0,
        status: DONE | END_OF_PACKET,
        errors: 0,
        special: 0,
    };
    let mut bytes = [0; DESCRIPTOR_BYTES as usize];
    received.to_bytes(&mut bytes);
    let buffer = short(mem, descriptor.address);
    mem.dev_write(buffer, written);
    mem.dev_write(at, &bytes);
}

/// Reads the frame that the transmit descriptor names, which goes out.
pub(crate) fn note_frame(history: &mut History, mem: &Mem, at: u32)
    requires { MayTransmit mem.now at }
    ensures { history.new.entries ≡ Out (frame_at mem.now at) ∷ history.old.entries }
{
    let descriptor = read_tx(mem, at);
    let mut room = [0; BUFFER_BYTES as usize];
    let frame = &mut room[..usize::from(descriptor.length)];
    mem.dev_read(short(mem, descriptor.address), frame);
    history.sent(frame);
}

/// Says in the transmit descriptor that its frame was sent.
pub(crate) fn put_done(mem: &mut Mem, at: u32)
    requires { MayTransmit mem.old at }
    ensures { IsTransmitted mem.old mem.new at }
{
    let descriptor = read_tx(mem, at);
    let done = TxDesc {
        sta: descriptor.sta | DONE,
        ..descriptor
    };
    let mut bytes = [0; DESCRIPTOR_BYTES as usize];
    done.to_bytes(&mut bytes);
    mem.dev_write(at, &bytes);
}
