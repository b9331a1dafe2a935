// A file that is read through a window.
ghost use Rattle.std.specs.Prelude.{◌≡◌, ◌≤◌, ◌<◌, ◌+◌, ◌-◌, ◌&&◌, List, ℕ, [], length, take, drop};
ghost use Rattle.std.specs.Prelude.{nat_le, nat_lt, Some, IfErr, IfOk, OnOk};
ghost use Rattle.ibos_kinds.specs.Outside.{Rose};
ghost use Rattle.ibos_run.specs.Captured.{IsAt, IsPieceOf, ReadsMore, Shows, no_piece};
ghost use Rattle.ibos_run.specs.Faults.{IsCaused};

use crate::fault::Fault;
use ibos_capture::MAX_CAPTURE;
use ibos_kinds::{Bytes, Cabinet, Failed};
use std::alloc::{AllocError, Global};
use std::marker::Model;

// In bytes.
const WINDOW_LEN: usize = 65_536;

/// The bytes of a file that are in memory: `len` of them, from `place` on.
#[derive(Drop)]
pub struct Window {
    bytes: Vec<u8>,
    place: usize,
    len: usize,
}

impl Model for Window {
    ghost use Rattle.std.specs.Prelude.{length, slice_range};
    ghost use Rattle.ibos_run.specs.Captured.{IsFilled, Piece};

    ghost Value = { Piece };

    ghost view = { λ w. record {
      place = w.place;
      bytes = slice_range w.bytes.items 0 w.len;
    } };

    ghost invariant = { λ w. IsFilled w.place w.len (length w.bytes.items) };
}

impl Window {
    /// Of a file of which nothing was read.
    pub fn new(alloc: Global) -> Result<Window, AllocError>
        ensures { IfOk result (λ window. window ≡ no_piece) }
    {
        let bytes = vec![in alloc; 0u8; WINDOW_LEN]?;
        Ok(Window {
            bytes,
            place: 0,
            len: 0,
        })
    }

    /// Reads where that is needed, so that from the place on so many bytes are in the window, or
    /// all that the file has.
    pub fn look<C: Cabinet>(
        &mut self,
        cabinet: &mut C,
        name: &Bytes,
        place: usize,
        least: usize,
    ) -> Result<(), Fault>
        requires limit { place ≤ MAX_CAPTURE }
        requires few { least ≤ WINDOW_LEN }
        ensures at { OnOk result (IsAt place self.new) }
        ensures shows { OnOk result ((file : List ℕ) → C.holds cabinet.old name.now ≡ Some file
            → IsPieceOf file self.old → Shows file place least self.new) }
        ensures holds { (name : List ℕ) → C.holds cabinet.new name ≡ C.holds cabinet.old name }
        ensures later { (name : List ℕ) → C.faults cabinet.old name ≤ C.faults cabinet.new name }
        ensures cause { IfErr result (λ fault. IsCaused fault
            (Rose (C.faults cabinet.old name.now) (C.faults cabinet.new name.now)) ⊥) }
    {
        if self.has(place, least) {
            return Ok(());
        }
        self.begin_at(place);
        'reads: loop {
            if self.has(place, least) {
                return Ok(());
            }
            if self.read_more(cabinet, name)? == 0 {
                return Ok(());
            }
        }
    }

    /// The bytes from a place on that are in the window, up to so many.
    pub fn front(&self, place: usize, most: usize) -> &[u8]
        requires { IsAt place self.now }
        ensures { result.now ≡ take most (drop (place - self.now.place) self.now.bytes) }
    {
        let left = self.left(place);
        &left[..most.min(left.len())]
    }

    /// Whether the file has a byte at a place.
    pub fn has_byte<C: Cabinet>(
        &mut self,
        cabinet: &mut C,
        name: &Bytes,
        place: usize,
    ) -> Result<bool, Fault>
        requires { place ≤ MAX_CAPTURE }
        ensures has { IfOk result (λ has. (file : List ℕ) → C.holds cabinet.old name.now ≡ Some file
            → IsPieceOf file self.old → has ≡ nat_lt place (length file)) }
        ensures of { OnOk result ((file : List ℕ) → C.holds cabinet.old name.now ≡ Some file
            → IsPieceOf file self.old → IsPieceOf file self.new) }
        ensures holds { (name : List ℕ) → C.holds cabinet.new name ≡ C.holds cabinet.old name }
        ensures later { (name : List ℕ) → C.faults cabinet.old name ≤ C.faults cabinet.new name }
        ensures cause { IfErr result (λ fault. IsCaused fault
            (Rose (C.faults cabinet.old name.now) (C.faults cabinet.new name.now)) ⊥) }
    {
        self.look(cabinet, name, place, 1)?;
        Ok(self.has(place, 1))
    }

    /// Reads so many bytes from a place on into a vector of their own, or all that the file has.
    /// They may be more than the window holds.
    pub fn read<C: Cabinet>(
        &mut self,
        alloc: Global,
        cabinet: &mut C,
        name: &Bytes,
        place: usize,
        len: usize,
    ) -> Result<Bytes, Fault>
        requires { place + len ≤ MAX_CAPTURE }
        ensures bytes { IfOk result (λ bytes. (file : List ℕ)
            → C.holds cabinet.old name.now ≡ Some file
            → IsPieceOf file self.old → bytes ≡ take len (drop place file)) }
        ensures of { OnOk result ((file : List ℕ) → C.holds cabinet.old name.now ≡ Some file
            → IsPieceOf file self.old → IsPieceOf file self.new) }
        ensures holds { (name : List ℕ) → C.holds cabinet.new name ≡ C.holds cabinet.old name }
        ensures later { (name : List ℕ) → C.faults cabinet.old name ≤ C.faults cabinet.new name }
        ensures cause { IfErr result (λ fault. IsCaused fault
            (Rose (C.faults cabinet.old name.now) (C.faults cabinet.new name.now)) ⊥) }
    {
        let mut bytes = Bytes::new(alloc);
        'pieces: loop {
            let got = bytes.len();
            if got >= len {
                return Ok(bytes);
            }
            self.look(cabinet, name, place + got, 1)?;
            let piece = self.front(place + got, len - got);
            if piece.is_empty() {
                return Ok(bytes);
            }
            bytes.push_slice(piece)?;
        }
    }

    // Whether so many bytes from the place on are in the window.
    fn has(&self, place: usize, least: usize) -> bool
        requires limit { place ≤ MAX_CAPTURE }
        requires few { least ≤ WINDOW_LEN }
        ensures { result ≡ (nat_le self.now.place place
            && nat_le (place + least) (self.now.place + length self.now.bytes)) }
    {
        self.place <= place && place + least <= self.place + self.len
    }

    // Nothing is read from the place on.
    fn begin_at(&mut self, place: usize)
        requires { place ≤ MAX_CAPTURE }
        ensures place { self.new.place ≡ place }
        ensures empty { self.new.bytes ≡ [] }
    {
        self.place = place;
        self.len = 0;
    }

    fn left(&self, place: usize) -> &[u8]
        requires { IsAt place self.now }
        ensures { result.now ≡ drop (place - self.now.place) self.now.bytes }
    {
        &self.bytes[place - self.place..self.len]
    }

    // Reads behind what is in the window, and tells how many bytes that were.
    fn read_more<C: Cabinet>(&mut self, cabinet: &mut C, name: &Bytes) -> Result<usize, Fault>
        requires { length self.old.bytes < WINDOW_LEN }
        ensures place { self.new.place ≡ self.old.place }
        ensures more { IfOk result (λ got. length self.new.bytes ≡ length self.old.bytes + got) }
        ensures reads { IfOk result (λ got. (file : List ℕ)
            → C.holds cabinet.old name.now ≡ Some file
            → IsPieceOf file self.old → ReadsMore file got self.new) }
        ensures holds { (name : List ℕ) → C.holds cabinet.new name ≡ C.holds cabinet.old name }
        ensures later { (name : List ℕ) → C.faults cabinet.old name ≤ C.faults cabinet.new name }
        ensures cause { IfErr result (λ fault. IsCaused fault
            (Rose (C.faults cabinet.old name.now) (C.faults cabinet.new name.now)) ⊥) }
    {
        let len = self.len;
        let place = self.place + len;
        let room = self.bytes.len();
        let into = &mut self.bytes[len..room];
        let got = match cabinet.read_at(name, place as u64, into) {
            Ok(got) => got,
            Err(Failed::Failed) => return Err(Fault::Read),
        };
        self.len = len + got;
        Ok(got)
    }
}
