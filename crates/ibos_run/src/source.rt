// A script that is read piece by piece, as far as its next line goes.
ghost use Rattle.std.specs.Prelude.{◌≡◌, ◌≤◌, ◌<◌, ◌+◌, ◌-◌, ◌||◌, ◌==◌, List, ℕ, length};
ghost use Rattle.std.specs.Prelude.{false, take, nat_lt, slice_range};
ghost use Rattle.std.specs.Prelude.{IfErr, IfOk, IfSome, OnOk};
ghost use Rattle.ibos_kinds.specs.Outside.{Rose};
ghost use Rattle.ibos_text.specs.Lines as spec;
ghost use Rattle.ibos_run.specs.Faults.{IsCaused};
ghost use Rattle.ibos_run.specs.Readings.{script_in};
ghost use Rattle.ibos_run.specs.Sources.{IsFound, Grows, ReadsOn, is_past, nothing_read, passed};

use crate::fault::Fault;
use ibos_kinds::{Bytes, Cabinet, Failed};
use ibos_text::len_before;
use std::alloc::{AllocError, Global};
use std::marker::Model;

/// The most that a script may have, in bytes.
pub const MAX_SCRIPT_LEN: usize = 67_108_864;

// How many bytes the window has at first.
const WINDOW_LEN: usize = 65_536;

/// What was read of a script and not yet given as lines.
#[derive(Drop)]
pub struct Source {
    // The bytes from `start` to `end` are those.
    window: Vec<u8>,
    start: usize,
    end: usize,
    // How many bytes of the file were read.
    place: usize,
    // No more are to be read: the file ended, or the byte after the limit was read.
    over: bool,
}

impl Model for Source {
    ghost use Rattle.std.specs.Prelude.{length, slice_range};
    ghost use Rattle.ibos_run.specs.Sources.{IsWindow, Unread};

    ghost Value = { Unread };

    ghost view = { λ s. record {
      bytes = slice_range s.window.items s.start s.end;
      place = s.place;
      over = s.over;
    } };

    ghost invariant = { λ s. IsWindow s.start s.end (length s.window.items) s.place s.over };
}

impl Source {
    /// Of a script of which nothing was read.
    pub fn new(alloc: Global) -> Result<Source, AllocError>
        ensures { IfOk result (λ source. source ≡ nothing_read) }
    {
        let window = vec![in alloc; 0u8; WINDOW_LEN]?;
        Ok(Source {
            window,
            start: 0,
            end: 0,
            place: 0,
            over: false,
        })
    }

    /// How many bytes the next line has, without its end: 0x0A, or that of the script. Reads on as
    /// far as the line goes. None where no line is left.
    pub fn find_line<C: Cabinet>(
        &mut self,
        cabinet: &mut C,
        name: &Bytes,
    ) -> Result<Option<usize>, Fault>
        ensures found { IfOk result (λ found. IsFound found self.new) }
        ensures text { OnOk result (IfSome (C.holds cabinet.old name.now) (λ file.
            ReadsOn (script_in file) self.old self.new)) }
        ensures more { OnOk result (length self.new.bytes + self.old.place
            ≡ length self.old.bytes + self.new.place) }
        ensures limit { OnOk result (self.new.place ≤ MAX_SCRIPT_LEN + 1) }
        ensures holds { (name : List ℕ) → C.holds cabinet.new name ≡ C.holds cabinet.old name }
        ensures later { (name : List ℕ) → C.faults cabinet.old name ≤ C.faults cabinet.new name }
        ensures cause { IfErr result (λ fault. IsCaused fault
            (Rose (C.faults cabinet.old name.now) (C.faults cabinet.new name.now)) ⊥) }
    {
        // No line ends in the first so many bytes.
        let mut searched = 0;
        'pieces: loop {
            let left = self.left();
            let len = searched + len_before(&left[searched..], b'\n');
            if len < left.len() {
                return Ok(Some(len));
            }
            if self.over {
                return Ok(if len > 0 { Some(len) } else { None });
            }
            searched = len;
            self.read_more(cabinet, name)?;
        }
    }

    /// The line that was found, of so many bytes, without one 0x0D at its end.
    pub fn line(&self, len: usize) -> &[u8]
        requires { len ≤ length self.now.bytes }
        ensures { result.now ≡ spec.without_return (take len self.now.bytes) }
    {
        without_return(&self.left()[..len])
    }

    /// Whether that line holds the byte after the limit.
    pub fn is_past(&self, len: usize) -> bool
        requires { len ≤ length self.now.bytes }
        ensures { result ≡ is_past len self.now }
    {
        self.place > MAX_SCRIPT_LEN && self.left().len() <= len + 1
    }

    /// Goes on behind that line.
    pub fn pass(&mut self, len: usize)
        requires { len ≤ length self.old.bytes }
        ensures { self.new ≡ passed len self.old }
    {
        self.start = (self.start + len + 1).min(self.end);
    }

    fn left(&self) -> &[u8]
        ensures bytes { result.now ≡ self.now.bytes }
        ensures few { length result.now ≤ MAX_SCRIPT_LEN + 1 }
    {
        &self.window[self.start..self.end]
    }

    // Reads a piece behind what is left.
    fn read_more<C: Cabinet>(&mut self, cabinet: &mut C, name: &Bytes) -> Result<(), Fault>
        requires { self.old.over ≡ false }
        ensures text { OnOk result (IfSome (C.holds cabinet.old name.now) (λ file.
            ReadsOn (script_in file) self.old self.new)) }
        ensures more { OnOk result (Grows self.old self.new) }
        ensures holds { (name : List ℕ) → C.holds cabinet.new name ≡ C.holds cabinet.old name }
        ensures later { (name : List ℕ) → C.faults cabinet.old name ≤ C.faults cabinet.new name }
        ensures cause { IfErr result (λ fault. IsCaused fault
            (Rose (C.faults cabinet.old name.now) (C.faults cabinet.new name.now)) ⊥) }
    {
        let (start, end) = (self.start, self.end);
        make_room(&mut self.window, start, end, self.place)?;
        self.start = 0;
        self.end = end - start;
        let end = self.end;
        let want = (self.window.len() - end).min(MAX_SCRIPT_LEN + 1 - self.place);
        let into = &mut self.window[end..end + want];
        let got = match cabinet.read_at(name, self.place as u64, into) {
            Ok(got) => got,
            Err(Failed::Failed) => return Err(Fault::Read),
        };
        self.end = end + got;
        self.place += got;
        self.over = is_over(got, self.place);
        Ok(())
    }
}

// Whether no more is to be read behind a read of so many bytes, up to that place.
fn is_over(got: usize, place: usize) -> bool
    ensures { result ≡ (got == 0 || nat_lt MAX_SCRIPT_LEN place) }
{
    got == 0 || place > MAX_SCRIPT_LEN
}

// Moves the bytes from `start` to `end` to the window's front, and makes the window longer where
// they fill it. So many bytes of the file were read.
fn make_room(window: &mut Vec<u8>, start: usize, end: usize, place: usize) -> Result<(), AllocError>
    requires ordered { start ≤ end }
    requires within { end ≤ length window.old.items }
    requires read { end ≤ place }
    requires most { length window.old.items ≤ MAX_SCRIPT_LEN + 1 }
    requires more { place ≤ MAX_SCRIPT_LEN }
    requires some { 0 < length window.old.items }
    ensures bytes { OnOk result (slice_range window.new.items 0 (end - start)
        ≡ slice_range window.old.items start end) }
    ensures room { OnOk result (end - start < length window.new.items) }
    ensures longer { length window.old.items ≤ length window.new.items }
    ensures most { length window.new.items ≤ MAX_SCRIPT_LEN + 1 }
{
    if start > 0 {
        window.copy_within(start..end, 0);
    }
    let len = window.len();
    if end - start == len {
        window.resize(len + len.min(MAX_SCRIPT_LEN + 1 - len), 0)?;
    }
    Ok(())
}

fn without_return(piece: &[u8]) -> &[u8]
    ensures { result.now ≡ spec.without_return piece.now }
{
    if let [front @ .., b'\r'] = piece {
        front
    } else {
        piece
    }
}
