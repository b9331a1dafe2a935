// Text that is gathered before the sink gets it.
ghost use Rattle.std.specs.Prelude.{◌≡◌, [], IfOk, OnErr, OnOk};
ghost use Rattle.ibos_kinds.specs.Outside.{HasCause};
ghost use Rattle.ibos_run.specs.Took.{Took, TookFront};

use crate::transfer::write_all;
use ibos_kinds::{Bytes, Failed, Memory, Sink};
use std::alloc::Global;

// How much text is gathered at least, in bytes, before it is handed over between two acts.
const MIN_PIECE: usize = 65_536;

// That much, and the lines that go past it.
const ROOM: usize = 98_304;

/// Room for what is gathered.
pub fn make_room(alloc: Global) -> Result<Bytes, Memory>
    ensures { IfOk result (λ text. text ≡ []) }
{
    let mut text = Bytes::new(alloc);
    text.reserve(ROOM)?;
    Ok(text)
}

/// Hands the text to the sink. Nothing is gathered afterwards, also where a write failed.
pub fn hand_over<K: Sink>(text: &mut Bytes, sink: &mut K) -> Result<(), Failed>
    ensures all { OnOk result (Took (K.taken sink.old) (K.taken sink.new) [] text.old) }
    ensures front { OnErr result (TookFront (K.taken sink.old) (K.taken sink.new) [] text.old) }
    ensures empty { text.new ≡ [] }
    ensures cause { HasCause (K.faults sink.old) (K.faults sink.new) result }
{
    let written = write_all(sink, text.as_slice());
    text.clear();
    written
}

/// Hands the text to the sink once there is much of it.
pub fn hand_over_if_much<K: Sink>(text: &mut Bytes, sink: &mut K) -> Result<(), Failed>
    ensures all { OnOk result (Took (K.taken sink.old) (K.taken sink.new) text.new text.old) }
    ensures front { OnErr result (
        TookFront (K.taken sink.old) (K.taken sink.new) text.new text.old) }
    ensures cause { HasCause (K.faults sink.old) (K.faults sink.new) result }
{
    if text.len() >= MIN_PIECE {
        hand_over(text, sink)?;
    }
    Ok(())
}
