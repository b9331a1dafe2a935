// Whole files in, whole texts out.
ghost use Rattle.std.specs.Prelude.{◌≡◌, ◌+◌, ◌<◌, ◌≤◌, ◌^◌, List, ℕ, length, take, [], IfOk};
ghost use Rattle.std.specs.Prelude.{IfErr, IfSome, OnErr, OnOk};
ghost use Rattle.ibos_kinds.specs.Outside.{Rose, HasCause};
ghost use Rattle.ibos_run.specs.Faults.{IsCaused};
ghost use Rattle.ibos_run.specs.Took.{Took, TookFront};

use crate::fault::Fault;
use ibos_kinds::{Bytes, Cabinet, Failed, Sink};
use std::alloc::Global;

// The most that one read asks for, in bytes.
const MAX_PIECE: usize = 65_536;

/// Reads a file, up to the most bytes that it may have, and one byte more.
pub fn read_file<C: Cabinet>(
    alloc: Global,
    cabinet: &mut C,
    name: &Bytes,
    max_len: usize,
) -> Result<Bytes, Fault>
    requires { max_len < 2 ^ 32 }
    ensures bytes { IfOk result (λ text.
        IfSome (C.holds cabinet.old name.now) (λ file. text ≡ take (max_len + 1) file)) }
    ensures within { IfOk result (λ text. length text ≤ max_len + 1) }
    ensures holds { (name : List ℕ) → C.holds cabinet.new name ≡ C.holds cabinet.old name }
    ensures later { (name : List ℕ) → C.faults cabinet.old name ≤ C.faults cabinet.new name }
    ensures cause { IfErr result (λ fault.
        IsCaused fault (Rose (C.faults cabinet.old name.now) (C.faults cabinet.new name.now)) ⊥) }
{
    let mut piece = vec![in alloc; 0u8; MAX_PIECE]?;
    read_pieces(alloc, cabinet, name, max_len, piece.as_mut_slice())
}

// The same, by way of a piece that holds what one read gives.
fn read_pieces<C: Cabinet>(
    alloc: Global,
    cabinet: &mut C,
    name: &Bytes,
    max_len: usize,
    piece: &mut [u8],
) -> Result<Bytes, Fault>
    requires max_len { max_len < 2 ^ 32 }
    requires piece { 0 < length piece.old }
    ensures bytes { IfOk result (λ text.
        IfSome (C.holds cabinet.old name.now) (λ file. text ≡ take (max_len + 1) file)) }
    ensures within { IfOk result (λ text. length text ≤ max_len + 1) }
    ensures holds { (name : List ℕ) → C.holds cabinet.new name ≡ C.holds cabinet.old name }
    ensures later { (name : List ℕ) → C.faults cabinet.old name ≤ C.faults cabinet.new name }
    ensures cause { IfErr result (λ fault.
        IsCaused fault (Rose (C.faults cabinet.old name.now) (C.faults cabinet.new name.now)) ⊥) }
{
    let mut text = Bytes::new(alloc);
    'pieces: while text.len() <= max_len {
        let want = piece.len().min(max_len + 1 - text.len());
        let got = match cabinet.read_at(name, text.len() as u64, &mut piece[..want]) {
            Ok(got) => got,
            Err(Failed::Failed) => return Err(Fault::Read),
        };
        if got == 0 {
            break 'pieces;
        }
        text.push_slice(&piece[..got])?;
    }
    Ok(text)
}

/// Writes all the bytes, or a front of them where a write fails.
pub fn write_all<K: Sink>(sink: &mut K, bytes: &[u8]) -> Result<(), Failed>
    ensures all { OnOk result (Took (K.taken sink.old) (K.taken sink.new) [] bytes.now) }
    ensures front { OnErr result (TookFront (K.taken sink.old) (K.taken sink.new) [] bytes.now) }
    ensures cause { HasCause (K.faults sink.old) (K.faults sink.new) result }
{
    let mut at = 0;
    while at < bytes.len() {
        at += sink.write(&bytes[at..])?;
    }
    Ok(())
}
