// A cabinet and a sink in memory, whose calls can be told to fail.
ghost use Rattle.std.specs.Prelude.{◌≡◌, ◌+◌, ◌-◌, ◌<◌, ◌≤◌, ◌↔◌, min, [], ◌∷◌, ◌++◌, length, IfOk};
ghost use Rattle.std.specs.Prelude.{OnOk, OnErr, IsTrue, Contains, MatchOption, slice_get, IfSome};
ghost use Rattle.ibos_kinds.specs.Fakes.{file_named, no_files, no_bytes, after_read, after_write};
ghost use Rattle.std.specs.Option.{option_copied};
ghost use Rattle.ibos_kinds.specs.Outside.{ReadsFrom};

use crate::{Bytes, Cabinet, Failed, Memory, Sink};
use std::alloc::Global;
use std::marker::Model;

/// A name and the bytes under it.
#[derive(Debug, Drop)]
pub struct File {
    pub name: Bytes,
    pub bytes: Bytes,
}

/// A cabinet for tests, whose files lie in memory. Its reads are numbered, and fail if their number
/// was picked for that; a read of a file that isn't there fails too. Failures are counted apart for
/// files that are there and for those that aren't.
#[derive(Drop)]
pub struct MemCabinet {
    files: Vec<File>,
    fails: Vec<u32>,
    calls: u64,
    most: u32,
    held_faults: u64,
    other_faults: u64,
}

impl Model for MemCabinet {
    ghost use Rattle.std.specs.Prelude.{◌<◌};
    ghost use Rattle.ibos_kinds.specs.Fakes.{Files};

    ghost Value = { Files };

    ghost view = { λ m. record {
      files = m.files.items;
      fails = m.fails.items;
      calls = m.calls;
      most = m.most;
      held_faults = m.held_faults;
      other_faults = m.other_faults;
    } };

    ghost invariant = { λ m. 0 < m.most };
}

impl MemCabinet {
    /// Holds nothing.
    pub fn new(alloc: Global) -> MemCabinet
        ensures { result ≡ no_files }
    {
        MemCabinet {
            files: Vec::new(alloc),
            fails: Vec::new(alloc),
            calls: 0,
            most: u32::MAX,
            held_faults: 0,
            other_faults: 0,
        }
    }

    /// Puts in a file; of two with one name the later is read.
    pub fn put(&mut self, name: Bytes, bytes: Bytes) -> Result<(), Memory>
        ensures ok { OnOk result (self.new
            ≡ record self.old { files = record { name = name; bytes = bytes } ∷ self.old.files }) }
        ensures err { OnErr result (self.new ≡ self.old) }
    {
        match self.files.insert(0, File { name, bytes }) {
            Ok(()) => Ok(()),
            Err(_) => Err(Memory),
        }
    }

    /// From now on a read gives so many bytes at most.
    pub fn piece(&mut self, most: u32)
        requires { 0 < most }
        ensures { self.new ≡ record self.old { most = most } }
    {
        self.most = most;
    }

    /// Picks a read that will fail; the cabinet's first is number 0.
    pub fn fail(&mut self, call: u32) -> Result<(), Memory>
        ensures ok { OnOk result (self.new ≡ record self.old {
          fails = self.old.fails
              ++ call ∷ [];
        }) }
        ensures err { OnErr result (self.new ≡ self.old) }
    {
        match self.fails.push(call) {
            Ok(()) => Ok(()),
            Err(_) => Err(Memory),
        }
    }
}

impl Cabinet for MemCabinet {
    ghost use Rattle.std.specs.Prelude.{◌⊎◌, List, ℕ, IsErr, None};
    ghost use Rattle.ibos_kinds.specs.Fakes.{file_named, faults_of};
    ghost use Rattle.ibos_kinds.specs.Outside.{HasCause};

    ghost holds = { λ m. file_named m.files };

    ghost faults = { faults_of };

    fn read_at(&mut self, name: &Bytes, place: u64, into: &mut [u8]) -> Result<usize, Failed>
        ensures within { IfOk result (λ got. got ≤ length into.new) }
        ensures bytes { IfOk result (λ got. IfSome (file_named self.old.files name.now)
            (λ file. ReadsFrom file place got into.new)) }
        ensures holds { (name : List ℕ) → file_named self.new.files name
            ≡ file_named self.old.files name }
        ensures later { (name : List ℕ) → faults_of self.old name ≤ faults_of self.new name }
        ensures cause { HasCause (faults_of self.old name.now) (faults_of self.new name.now)
            result }

        // Exactly which reads fail, how much the others give, and what a read changes.
        ensures after { self.new ≡ after_read self.old name.now result }
        ensures fails { IsErr result ↔ (Contains self.old.fails self.old.calls
            ⊎ (file_named self.old.files name.now ≡ None)) }
        ensures count { IfOk result (λ got. IfSome (file_named self.old.files name.now)
            (λ file. got ≡ min (min (length into.old) self.old.most) (length file - place))) }
    {
        let is_listed = is_listed(&self.fails, self.calls);
        self.calls = self.calls.saturating_add(1);
        match file_of(&self.files, name.as_slice()) {
            None => {
                self.other_faults = self.other_faults.saturating_add(1);
                Err(Failed::Failed)
            }
            Some(_) if is_listed => {
                self.held_faults = self.held_faults.saturating_add(1);
                Err(Failed::Failed)
            }
            Some(file) => Ok(copy_piece(file, place, self.most, into)),
        }
    }
}

/// A sink for tests, which keeps what it takes in memory that it has from the start. A write fails
/// if its number was picked for that, or if there is something to write and the memory is full.
#[derive(Drop)]
pub struct MemSink {
    bytes: Vec<u8>,
    fails: Vec<u32>,
    calls: u64,
    most: u32,
    room: usize,
    faults: u64,
}

impl Model for MemSink {
    ghost use Rattle.std.specs.Prelude.{◌+◌, ◌<◌, ◌≤◌, vec_len, vec_capacity};
    ghost use Rattle.ibos_kinds.specs.Fakes.{Taken};

    ghost Value = { Taken };

    ghost view = { λ m. record {
      bytes = m.bytes.items;
      fails = m.fails.items;
      calls = m.calls;
      most = m.most;
      room = m.room;
      faults = m.faults;
    } };

    ghost invariant = { λ m. (0 < m.most) × (vec_len m.bytes + m.room ≤ vec_capacity m.bytes) };
}

impl MemSink {
    /// Nothing is taken yet, and there is memory for so many bytes.
    pub fn new(alloc: Global, room: usize) -> Result<MemSink, Memory>
        ensures { IfOk result (λ sink. sink ≡ no_bytes room) }
    {
        let mut bytes = Vec::new(alloc);
        bytes.reserve(room)?;
        Ok(MemSink {
            bytes,
            fails: Vec::new(alloc),
            calls: 0,
            most: u32::MAX,
            room,
            faults: 0,
        })
    }

    /// From now on a write takes so many bytes at most.
    pub fn piece(&mut self, most: u32)
        requires { 0 < most }
        ensures { self.new ≡ record self.old { most = most } }
    {
        self.most = most;
    }

    /// Picks a write that will fail; the sink's first is number 0.
    pub fn fail(&mut self, call: u32) -> Result<(), Memory>
        ensures ok { OnOk result (self.new ≡ record self.old {
          fails = self.old.fails
              ++ call ∷ [];
        }) }
        ensures err { OnErr result (self.new ≡ self.old) }
    {
        match self.fails.push(call) {
            Ok(()) => Ok(()),
            Err(_) => Err(Memory),
        }
    }

    /// The bytes taken so far.
    pub fn taken(&self) -> &[u8]
        ensures { result.now ≡ self.now.bytes }
    {
        self.bytes.as_slice()
    }
}

impl Sink for MemSink {
    ghost use Rattle.std.specs.Prelude.{◌⊎◌, IsErr, Some};
    ghost use Rattle.ibos_kinds.specs.Outside.{HasCause, TakesFront, front_taken, taken_after};

    ghost taken = { λ m. Some m.bytes };

    ghost faults = { λ m. m.faults };

    fn write(&mut self, bytes: &[u8]) -> Result<usize, Failed>
        ensures front { IfOk result (TakesFront (length bytes.now)) }
        ensures taken { Some self.new.bytes
            ≡ taken_after (Some self.old.bytes) (front_taken result bytes.now) }
        ensures cause { HasCause self.old.faults self.new.faults result }

        // Exactly which writes fail, how much the others take, and what a write changes.
        ensures after { self.new ≡ after_write self.old bytes.now result }
        ensures fails { IsErr result ↔ (Contains self.old.fails self.old.calls
            ⊎ ((0 < length bytes.now) × (self.old.room ≡ 0))) }
        ensures count { IfOk result (λ took. took
            ≡ min (min (length bytes.now) self.old.most) self.old.room) }
    {
        let is_listed = is_listed(&self.fails, self.calls);
        self.calls = self.calls.saturating_add(1);
        if is_listed || (!bytes.is_empty() && self.room == 0) {
            self.faults = self.faults.saturating_add(1);
            return Err(Failed::Failed);
        }
        let count = bytes.len().min(self.most as usize).min(self.room);
        match self.bytes.extend_from_slice(&bytes[..count]) {
            Ok(()) => {
                self.room -= count;
                Ok(count)
            }
            Err(_) => unreachable!(),
        }
    }
}

fn is_listed(fails: &[u32], call: u64) -> bool
    ensures { IsTrue result ↔ Contains fails.now call }
{
    fails.iter().any(|number| u64::from(*number) == call)
}

// The bytes of the first file of that name.
fn file_of<'a>(files: &'a [File], name: &[u8]) -> Option<&'a [u8]>
    ensures { option_copied result ≡ file_named files.now name.now }
{
    files
        .iter()
        .find(|file| file.name.as_slice() == name)
        .map(|file| file.bytes.as_slice())
}

// Copies as much as the slice, the bound and the rest of the file allow.
fn copy_piece(file: &[u8], place: u64, most: u32, into: &mut [u8]) -> usize
    requires { 0 < most }
    ensures count { result ≡ min (min (length into.old) most) (length file.now - place) }
    ensures piece { ReadsFrom file.now place result into.new }
{
    if place >= file.len() as u64 {
        return 0;
    }
    let rest = &file[place as usize..];
    let count = into.len().min(most as usize).min(rest.len());
    into[..count].copy_from_slice(&rest[..count]);
    count
}
