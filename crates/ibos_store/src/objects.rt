// The objects of one origin.
ghost use Rattle.std.specs.Prelude.{◌≡◌, ◌≤◌, ◌<◌, ◌+◌, ◌^◌, [], nat_lt, ◌||◌, length, OnOk, OnErr};
ghost use Rattle.ibos_kinds.specs.Objects.{newest_in, version_of, with_put, with_loss};
ghost use Rattle.ibos_store.specs.Answers.{Answers};
ghost use Rattle.ibos_kinds.specs.Labels.{lose_answer, newest_answer, quota_answer};

use crate::fault::StoreFault;
use crate::object::Object;
use ibos_kinds::{Bytes, Rule};
use ibos_text::TextHasher;
use indexmap::IndexMap;
use std::alloc::Global;
use std::hash::BuildHasherDefault;
use std::marker::Model;

const MAX_BYTES: usize = 65_536;

/// The objects of one origin, found by their keys, and how many bytes keys and newest versions
/// have together.
#[derive(Drop)]
pub(crate) struct Objects {
    objects: IndexMap<Vec<u8>, Object, BuildHasherDefault<TextHasher>>,
    bytes: usize,
}

impl Model for Objects {
    ghost use Rattle.std.specs.Prelude.{◌≡◌, List, false};
    ghost use Rattle.ibos_kinds.specs.Objects.{KeyObject, is_over, stored_bytes};
    ghost use Rattle.ibos_store.specs.Stores.{key_objects};

    ghost Value = { List KeyObject };

    ghost view = { λ o. key_objects o.objects.entries };

    ghost invariant = { λ o. (o.bytes ≡ stored_bytes (key_objects o.objects.entries))
        × (is_over (key_objects o.objects.entries) ≡ false) };
}

impl Objects {
    /// No objects. Takes no memory.
    pub(crate) fn new(alloc: Global) -> Objects
        ensures { result ≡ [] }
    {
        Objects {
            objects: IndexMap::with_hasher(alloc, BuildHasherDefault::new()),
            bytes: 0,
        }
    }

    /// Stores a newest version, unless the origin would store too much, and answers its number.
    pub(crate) fn put(&mut self, alloc: Global, key: &[u8], bytes: &[u8]) -> Result<u32, StoreFault>
        requires { version_of (newest_in self.old key.now) < 2 ^ 31 }
        ensures answer { Answers result (quota_answer key.now bytes.now self.old) }
        ensures ok { OnOk result (self.new ≡ with_put key.now bytes.now self.old) }
        ensures err { OnErr result (self.new ≡ self.old) }
    {
        match self.objects.get_mut(key) {
            Some(object) => {
                let rest = self.bytes - object.len();
                if passes_quota(rest, 0, bytes.len()) {
                    return Err(StoreFault::Denied(Rule::S3));
                }
                let version = object.put(alloc, bytes)?;
                self.bytes = rest + bytes.len();
                Ok(version)
            }
            None => {
                if passes_quota(self.bytes, key.len(), bytes.len()) {
                    return Err(StoreFault::Denied(Rule::S3));
                }
                let object = Object::new(alloc, bytes)?;
                self.objects.insert(Vec::from_slice(alloc, key)?, object)?;
                self.bytes += key.len() + bytes.len();
                Ok(1)
            }
        }
    }

    /// A copy of the bytes under a key, if the newest version is that one.
    pub(crate) fn copy(&self, alloc: Global, key: &[u8], version: u32) -> Result<Bytes, StoreFault>
        ensures { Answers result (newest_answer version (newest_in self.now key.now)) }
    {
        match self.objects.get(key) {
            Some(object) => object.copy(alloc, version),
            None => Err(StoreFault::Denied(Rule::S8)),
        }
    }

    /// Gives up the bytes under a key, if the newest version is that one.
    pub(crate) fn lose(&mut self, key: &[u8], version: u32) -> Result<(), Rule>
        ensures answer { result ≡ lose_answer version (newest_in self.old key.now) }
        ensures ok { OnOk result (self.new ≡ with_loss key.now self.old) }
        ensures err { OnErr result (self.new ≡ self.old) }
    {
        let Some(object) = self.objects.get_mut(key) else {
            return Err(Rule::S9);
        };
        object.lose(version)
    }
}

// Whether so many bytes, with those of a key and an object, are more than an origin may store.
fn passes_quota(bytes: usize, key_len: usize, len: usize) -> bool
    requires { bytes ≤ 65536 }
    ensures { result ≡ nat_lt 65536 (bytes + key_len + len) }
{
    let room = MAX_BYTES - bytes;
    key_len > room || len > room - key_len
}
