// What stands under one key.
ghost use Rattle.std.specs.Prelude.{◌≡◌, ◌<◌, ◌^◌, ◌+◌, length, None, Some, IfOk, OnOk, OnErr};
ghost use Rattle.ibos_kinds.specs.Objects.{after_loss, after_put};
ghost use Rattle.ibos_store.specs.Answers.{Answers};
ghost use Rattle.ibos_kinds.specs.Labels.{lose_answer, newest_answer};

use crate::fault::StoreFault;
use ibos_kinds::{Bytes, Memory, Rule};
use std::alloc::Global;
use std::marker::Model;

/// The newest version of an object. Its bytes are given up when they are lost, and their count
/// stays.
#[derive(Drop)]
pub(crate) struct Object {
    version: u32,
    len: usize,
    bytes: Option<Bytes>,
}

impl Model for Object {
    ghost use Rattle.ibos_kinds.specs.Objects.{Newest};

    ghost Value = { Newest };

    ghost view = { λ o. record { version = o.version; len = o.len; bytes = o.bytes } };
}

impl Object {
    /// What the first put makes.
    pub(crate) fn new(alloc: Global, bytes: &[u8]) -> Result<Object, Memory>
        ensures { IfOk result (λ object. object ≡ after_put None bytes.now) }
    {
        let kept = Bytes::from_slice(alloc, bytes)?;
        Ok(Object {
            version: 1,
            len: bytes.len(),
            bytes: Some(kept),
        })
    }

    /// A put more, which answers its version.
    pub(crate) fn put(&mut self, alloc: Global, bytes: &[u8]) -> Result<u32, Memory>
        requires { self.old.version < 2 ^ 31 }
        ensures version { IfOk result (λ version. version ≡ self.old.version + 1) }
        ensures ok { OnOk result (self.new ≡ after_put (Some self.old) bytes.now) }
        ensures err { OnErr result (self.new ≡ self.old) }
    {
        let kept = Bytes::from_slice(alloc, bytes)?;
        self.version += 1;
        self.len = bytes.len();
        self.bytes = Some(kept);
        Ok(self.version)
    }

    /// How many bytes the newest version has, or had.
    pub(crate) fn len(&self) -> usize
        ensures { result ≡ self.now.len }
    {
        self.len
    }

    /// A copy of the bytes, if the newest version is that one.
    pub(crate) fn copy(&self, alloc: Global, version: u32) -> Result<Bytes, StoreFault>
        ensures { Answers result (newest_answer version (Some self.now)) }
    {
        if self.version != version {
            return Err(StoreFault::Denied(Rule::S8));
        }
        match &self.bytes {
            Some(bytes) => {
                let copy = bytes.copy(alloc)?;
                Ok(copy)
            }
            None => Err(StoreFault::Denied(Rule::S9)),
        }
    }

    /// Gives up the bytes, if the newest version is that one.
    pub(crate) fn lose(&mut self, version: u32) -> Result<(), Rule>
        ensures answer { result ≡ lose_answer version (Some self.old) }
        ensures ok { OnOk result (self.new ≡ after_loss self.old) }
        ensures err { OnErr result (self.new ≡ self.old) }
    {
        if self.version != version || self.bytes.is_none() {
            return Err(Rule::S9);
        }
        self.bytes = None;
        Ok(())
    }
}
