// A capture, and the frames of it that are left.
ghost use Rattle.std.specs.Prelude.{◌≡◌, ◌≤◌, ◌<◌, List, ℕ, [], Some, None, IfErr, IfOk, IfSome};
ghost use Rattle.std.specs.Prelude.{IsSomeAnd, OnOk};
ghost use Rattle.ibos_kinds.specs.Outside.{Rose};
ghost use Rattle.ibos_capture.specs.Progress.{IsReadTo};
ghost use Rattle.ibos_run.specs.Captured.{IsHeld, IsPieceOf, IsReadAs, Takes, frames_left, named};
ghost use Rattle.ibos_run.specs.Faults.{IsCaused};

use crate::fault::Fault;
use crate::window::Window;
use ibos_capture::{CapFault, CaptureFault, Index, IndexReader, MAX_CAPTURE};
use ibos_kinds::{Bytes, Cabinet};
use std::alloc::Global;
use std::marker::Model;

// The headers of a capture and of its entries, in bytes.
const HEADER_LEN: usize = 24;

const ENTRY_HEADER_LEN: usize = 16;

/// A capture without a fault: where its frames lie, how many of them were taken, and the window
/// through which its file is read.
#[derive(Drop)]
pub struct Capture<'a> {
    name: &'a Bytes,
    index: Index,
    used: u32,
    window: Window,
}

impl<'a> Model for Capture<'a> {
    ghost use Rattle.std.specs.Prelude.{◌≤◌, length};
    ghost use Rattle.ibos_run.specs.Captured.{Captured};

    ghost Value = { Captured };

    ghost view = { λ c. record {
      name = c.name.now;
      entries = c.index;
      used = c.used;
      piece = c.window;
    } };

    ghost invariant = { λ c. c.used ≤ length c.index };
}

impl<'a> Capture<'a> {
    /// Reads the headers of the capture of that name, or tells its first fault.
    pub fn read<C: Cabinet>(
        alloc: Global,
        cabinet: &mut C,
        name: &'a Bytes,
    ) -> Result<Result<Capture<'a>, CaptureFault>, Fault>
        ensures read { IfOk result (λ read. IfSome (C.holds cabinet.old name.now) (λ file.
            IsReadAs file read)) }
        ensures name { IfOk result (λ read. IfOk read (λ capture. capture.name ≡ name.now)) }
        ensures holds { (name : List ℕ) → C.holds cabinet.new name ≡ C.holds cabinet.old name }
        ensures later { (name : List ℕ) → C.faults cabinet.old name ≤ C.faults cabinet.new name }
        ensures cause { IfErr result (λ fault. IsCaused fault
            (Rose (C.faults cabinet.old name.now) (C.faults cabinet.new name.now)) ⊥) }
    {
        let mut window = Window::new(alloc)?;
        if window.has_byte(cabinet, name, MAX_CAPTURE)? {
            let fault = CapFault::TooLong;
            return Ok(Err(CaptureFault::At { entry: 0, fault }));
        }
        window.look(cabinet, name, 0, HEADER_LEN)?;
        match IndexReader::begin(alloc, window.front(0, HEADER_LEN)) {
            Ok(reader) => Capture::read_entries(cabinet, name, reader, window),
            Err(fault) => Ok(Err(fault)),
        }
    }

    // The entries from the reader's place on.
    fn read_entries<C: Cabinet>(
        cabinet: &mut C,
        name: &'a Bytes,
        reader: IndexReader,
        window: Window,
    ) -> Result<Result<Capture<'a>, CaptureFault>, Fault>
        ensures read { IfOk result (λ read. (file : List ℕ)
            → C.holds cabinet.old name.now ≡ Some file
            → IsReadTo file reader → IsPieceOf file window → IsReadAs file read) }
        ensures name { IfOk result (λ read. IfOk read (λ capture. capture.name ≡ name.now)) }
        ensures holds { (name : List ℕ) → C.holds cabinet.new name ≡ C.holds cabinet.old name }
        ensures later { (name : List ℕ) → C.faults cabinet.old name ≤ C.faults cabinet.new name }
        ensures cause { IfErr result (λ fault. IsCaused fault
            (Rose (C.faults cabinet.old name.now) (C.faults cabinet.new name.now)) ⊥) }
    {
        let mut reader = reader;
        let mut window = window;
        'entries: loop {
            let place = reader.place();
            window.look(cabinet, name, place, ENTRY_HEADER_LEN)?;
            let header = window.front(place, ENTRY_HEADER_LEN);
            if header.is_empty() {
                let index = reader.finish();
                return Ok(Ok(Capture {
                    name,
                    index,
                    used: 0,
                    window,
                }));
            }
            let len = match reader.next_len(header) {
                Ok(len) => len,
                Err(fault) => return Ok(Err(fault)),
            };
            let end = place + ENTRY_HEADER_LEN + len as usize;
            if end > MAX_CAPTURE || !window.has_byte(cabinet, name, end - 1)? {
                return Ok(Err(reader.cut()));
            }
            reader.push(len)?;
        }
    }

    /// Takes the next frame, if one is left. Its bytes are read anew.
    pub fn next<C: Cabinet>(
        &mut self,
        alloc: Global,
        cabinet: &mut C,
    ) -> Result<Option<Bytes>, Fault>
        ensures next { IfOk result (λ next. (file : List ℕ)
            → IsHeld (C.holds cabinet.old) file (Some self.old)
            → Takes next (frames_left file (Some self.old)) (frames_left file (Some self.new))) }
        ensures held { OnOk result ((file : List ℕ)
            → IsHeld (C.holds cabinet.old) file (Some self.old)
            → IsHeld (C.holds cabinet.old) file (Some self.new)) }
        ensures name { self.new.name ≡ self.old.name }
        ensures holds { (name : List ℕ) → C.holds cabinet.new name ≡ C.holds cabinet.old name }
        ensures later { (name : List ℕ) → C.faults cabinet.old name ≤ C.faults cabinet.new name }
        ensures cause { IfErr result (λ fault. IsCaused fault
            (Rose (C.faults cabinet.old self.old.name) (C.faults cabinet.new self.old.name)) ⊥) }
    {
        if self.used == self.index.len() {
            return Ok(None);
        }
        let (place, len) = self.index.frame(self.used);
        let (place, len) = (place as usize, len as usize);
        let frame = self.window.read(alloc, cabinet, self.name, place, len)?;
        self.used += 1;
        Ok(Some(frame))
    }
}

/// Takes the next frame of a capture, if one is named and a frame is left.
pub fn next_frame<C: Cabinet>(
    alloc: Global,
    capture: &mut Option<Capture<'_>>,
    cabinet: &mut C,
) -> Result<Option<Bytes>, Fault>
    ensures next { IfOk result (λ next. (file : List ℕ)
        → IsHeld (C.holds cabinet.old) file capture.old
        → Takes next (frames_left file capture.old) (frames_left file capture.new)) }
    ensures held { OnOk result ((file : List ℕ) → IsHeld (C.holds cabinet.old) file capture.old
        → IsHeld (C.holds cabinet.old) file capture.new) }
    ensures name { named capture.new ≡ named capture.old }
    ensures holds { (name : List ℕ) → C.holds cabinet.new name ≡ C.holds cabinet.old name }
    ensures later { (name : List ℕ) → C.faults cabinet.old name ≤ C.faults cabinet.new name }
    ensures cause { IfErr result (λ fault. IsCaused fault
        (IsSomeAnd (named capture.old) (λ name.
        Rose (C.faults cabinet.old name) (C.faults cabinet.new name))) ⊥) }
{
    match capture {
        Some(capture) => capture.next(alloc, cabinet),
        None => Ok(None),
    }
}
