// All stored objects and requests.
ghost use Rattle.std.specs.Prelude.{◌≡◌, ◌≢◌, ◌<◌, ◌^◌, [], None, Some, IfSome, IsSomeAnd, IfOk};
ghost use Rattle.std.specs.Prelude.{OnOk, OnErr};
ghost use Rattle.std.specs.Option.{option_map};
ghost use Rattle.ibos_kinds.specs.declared.names.Instance.{Instance};
ghost use Rattle.ibos_kinds.specs.Objects.{after_loss, after_put, version_of, with_loss, with_put};
ghost use Rattle.ibos_kinds.specs.Requests.{no_requests, with_ask, without_request};
ghost use Rattle.ibos_store.specs.Answers.{Answers};
ghost use Rattle.ibos_kinds.specs.Labels.{ask_answer, label_answer, lose_answer};
ghost use Rattle.ibos_kinds.specs.Labels.{newest_answer, none_answer, put_answer, quota_answer};

use crate::fault::StoreFault;
use crate::keys::is_key;
use crate::objects::Objects;
use crate::table::RequestTable;
use ibos_kinds::{Bytes, Instance, Memory, Rule};
use ibos_text::TextHasher;
use indexmap::IndexMap;
use std::alloc::Global;
use std::hash::BuildHasherDefault;
use std::marker::Model;

const MAX_OBJECT: usize = 2_048;

/// The stored objects of each origin, and the requests for them of the instances that were added
/// and not ended. An origin stores at most 65,536 bytes of keys and newest versions, where a lost
/// version counts as before its loss.
///
/// # Examples
///
/// ```
/// use ibos_kinds::Instance;
/// use ibos_store::{Store, StoreFault};
/// use std::process::Abort;
///
/// fn keep(rt: &(impl Abort + AllocGlobal)) -> Result<(), StoreFault> {
///     let who = Instance { tab: 5, ord: 0 };
///     let origin = b"http://a.example";
///     let mut store = Store::new(rt.alloc());
///     store.begin(who)?;
///     let version = store.put(origin, b"draft", b"hello")?;
///     let request = store.ask(who, b"draft")?;
///     let bytes = store.answer(rt.alloc(), who, origin, request, origin, b"draft", version)?;
///     assert_eq!(rt; bytes.as_slice(), b"hello".as_slice());
///     Ok(())
/// }
/// ```
#[derive(Drop)]
pub struct Store {
    alloc: Global,
    origins: IndexMap<Vec<u8>, Objects, BuildHasherDefault<TextHasher>>,
    requests: RequestTable,
}

impl Model for Store {
    ghost use Rattle.ibos_store.specs.Stores.{StoreState, origin_objects};

    ghost Value = { StoreState };

    ghost view = { λ s. record {
      origins = origin_objects s.origins.entries;
      requests = s.requests;
    } };
}

impl Store {
    ghost use Rattle.ibos_store.specs.Stores.{IsNewest, key_of, object_at, objects_of};
    ghost use Rattle.ibos_store.specs.Stores.{PutsNewest, PutsObjects, requests_of, SameRequests};

    /// Nothing was put, and no instance was added. Takes no memory.
    pub fn new(alloc: Global) -> Store
        ensures objects { result.origins ≡ [] }
        ensures requests { (who : Instance) → requests_of result who ≡ None }
    {
        Store {
            alloc,
            origins: IndexMap::with_hasher(alloc, BuildHasherDefault::new()),
            requests: RequestTable::new(alloc),
        }
    }

    /// Adds an instance without requests.
    pub fn begin(&mut self, who: Instance) -> Result<(), Memory>
        requires { requests_of self.old who ≡ None }
        ensures own { OnOk result (requests_of self.new who ≡ Some no_requests) }
        ensures others { SameRequests self.old.requests self.new.requests who }
        ensures objects { self.new.origins ≡ self.old.origins }
        ensures err { OnErr result (self.new ≡ self.old) }
    {
        self.requests.begin(self.alloc, who)?;
        Ok(())
    }

    /// Ends an instance, and with it its requests. Takes no memory.
    pub fn end(&mut self, who: Instance)
        requires { requests_of self.old who ≢ None }
        ensures own { requests_of self.new who ≡ None }
        ensures others { SameRequests self.old.requests self.new.requests who }
        ensures objects { self.new.origins ≡ self.old.origins }
    {
        self.requests.end(who);
    }

    /// Stores an object under a key of an origin, and answers its version: the count of the
    /// accepted puts there. Broken are, the first that applies, S1 by a key that isn't 1 to 64
    /// printable bytes without a space, S2 by more than 2,048 bytes, and S3 where the origin would
    /// store more than it may. Out of memory, and after a refusal, the store is as before.
    #[tactic(auto, unfolding(ibos_kinds::specs::Labels::put_answer))]
    pub fn put(&mut self, origin: &[u8], key: &[u8], bytes: &[u8]) -> Result<u32, StoreFault>
        requires { version_of (object_at self.old origin.now key.now) < 2 ^ 31 }
        ensures answer { Answers result
            (put_answer key.now bytes.now (objects_of self.old origin.now)) }
        ensures newest { OnOk result (PutsNewest self.old self.new origin.now key.now
            (Some (after_put (object_at self.old origin.now key.now) bytes.now))) }
        ensures objects { OnOk result (PutsObjects self.old.origins self.new.origins origin.now
            (with_put key.now bytes.now (objects_of self.old origin.now))) }
        ensures requests { self.new.requests ≡ self.old.requests }
        ensures err { OnErr result (self.new ≡ self.old) }
    {
        if !is_key(key) {
            return Err(StoreFault::Denied(Rule::S1));
        }
        if bytes.len() > MAX_OBJECT {
            return Err(StoreFault::Denied(Rule::S2));
        }
        self.put_newest(origin, key, bytes)
    }

    // Stores a newest version, unless the origin would store too much.
    fn put_newest(&mut self, origin: &[u8], key: &[u8], bytes: &[u8]) -> Result<u32, StoreFault>
        requires { version_of (object_at self.old origin.now key.now) < 2 ^ 31 }
        ensures answer { Answers result
            (quota_answer key.now bytes.now (objects_of self.old origin.now)) }
        ensures newest { OnOk result (PutsNewest self.old self.new origin.now key.now
            (Some (after_put (object_at self.old origin.now key.now) bytes.now))) }
        ensures objects { OnOk result (PutsObjects self.old.origins self.new.origins origin.now
            (with_put key.now bytes.now (objects_of self.old origin.now))) }
        ensures requests { self.new.requests ≡ self.old.requests }
        ensures err { OnErr result (self.new ≡ self.old) }
    {
        match self.origins.get_mut(origin) {
            Some(objects) => objects.put(self.alloc, key, bytes),
            None => {
                let mut objects = Objects::new(self.alloc);
                let version = objects.put(self.alloc, key, bytes)?;
                self.put_origin(origin, objects)?;
                Ok(version)
            }
        }
    }

    // Gives an origin these objects.
    fn put_origin(&mut self, origin: &[u8], objects: Objects) -> Result<(), Memory>
        ensures ok { OnOk result
            (PutsObjects self.old.origins self.new.origins origin.now objects) }
        ensures requests { self.new.requests ≡ self.old.requests }
        ensures err { OnErr result (self.new ≡ self.old) }
    {
        self.origins
            .insert(Vec::from_slice(self.alloc, origin)?, objects)?;
        Ok(())
    }

    /// An instance asks for the object under a key of its origin. The answer is the request's
    /// number, which counts the instance's accepted asks from 0. Broken are, the first that
    /// applies, S1 as of a put, and S4 where eight requests of the instance are unanswered. Out of
    /// memory, and after a refusal, the store is as before.
    pub fn ask(&mut self, who: Instance, key: &[u8]) -> Result<u32, StoreFault>
        requires begun { requests_of self.old who ≢ None }
        requires few { IfSome (requests_of self.old who) (λ requests. requests.count < 2 ^ 31) }
        ensures answer { IfSome (requests_of self.old who) (λ requests.
            Answers result (ask_answer key.now requests)) }
        ensures own { OnOk result (requests_of self.new who
            ≡ option_map (with_ask key.now) (requests_of self.old who)) }
        ensures others { SameRequests self.old.requests self.new.requests who }
        ensures objects { self.new.origins ≡ self.old.origins }
        ensures err { OnErr result (self.new ≡ self.old) }
    {
        self.requests.ask(self.alloc, who, key)
    }

    /// Answers a request of an instance of the origin `own` by a label, an origin with a key and a
    /// version: the bytes that stand there. Broken are, the first that applies, S5 where that
    /// request isn't unanswered, S6 and S7 by a label of another origin or another key than the
    /// request's, S8 where the version isn't the newest, or nothing was put there, and S9 where the
    /// newest was lost. Out of memory, and after a refusal, the store is as before.
    pub fn answer(
        &mut self,
        alloc: Global,
        who: Instance,
        own: &[u8],
        request: u32,
        origin: &[u8],
        key: &[u8],
        version: u32,
    ) -> Result<Bytes, StoreFault>
        ensures answer { Answers result (label_answer (key_of self.old who request) own.now
            origin.now key.now version (object_at self.old origin.now key.now)) }
        ensures sealed { IfOk result (λ bytes. IsSomeAnd (key_of self.old who request)
            (λ asked. IsNewest self.old own.now asked version bytes)) }
        ensures own { OnOk result (requests_of self.new who
            ≡ option_map (without_request request) (requests_of self.old who)) }
        ensures once { OnOk result (key_of self.new who request ≡ None) }
        ensures others { SameRequests self.old.requests self.new.requests who }
        ensures objects { self.new.origins ≡ self.old.origins }
        ensures err { OnErr result (self.new ≡ self.old) }
    {
        let bytes = self.labelled(alloc, who, own, request, origin, key, version)?;
        self.requests.answer(who, request);
        Ok(bytes)
    }

    // A copy of what stands under a label, for an open request.
    fn labelled(
        &self,
        alloc: Global,
        who: Instance,
        own: &[u8],
        request: u32,
        origin: &[u8],
        key: &[u8],
        version: u32,
    ) -> Result<Bytes, StoreFault>
        ensures { Answers result (label_answer (key_of self.now who request) own.now
            origin.now key.now version (object_at self.now origin.now key.now)) }
    {
        let Some(asked) = self.requests.key(who, request) else {
            return Err(StoreFault::Denied(Rule::S5));
        };
        if origin != own {
            return Err(StoreFault::Denied(Rule::S6));
        }
        if key != asked {
            return Err(StoreFault::Denied(Rule::S7));
        }
        self.copy(alloc, origin, key, version)
    }

    // A copy of what stands under a key of an origin, if the newest version is that one.
    fn copy(
        &self,
        alloc: Global,
        origin: &[u8],
        key: &[u8],
        version: u32,
    ) -> Result<Bytes, StoreFault>
        ensures { Answers result
            (newest_answer version (object_at self.now origin.now key.now)) }
    {
        match self.origins.get(origin) {
            Some(objects) => objects.copy(alloc, key, version),
            None => Err(StoreFault::Denied(Rule::S8)),
        }
    }

    /// Answers a request without bytes. S5 exactly where that request of the instance isn't
    /// unanswered. Takes no memory.
    pub fn none(&mut self, who: Instance, request: u32) -> Result<(), Rule>
        ensures answer { result ≡ none_answer (key_of self.old who request) }
        ensures own { OnOk result (requests_of self.new who
            ≡ option_map (without_request request) (requests_of self.old who)) }
        ensures once { OnOk result (key_of self.new who request ≡ None) }
        ensures others { SameRequests self.old.requests self.new.requests who }
        ensures objects { self.new.origins ≡ self.old.origins }
        ensures err { OnErr result (self.new ≡ self.old) }
    {
        if self.requests.key(who, request).is_none() {
            return Err(Rule::S5);
        }
        self.requests.answer(who, request);
        Ok(())
    }

    /// The storage process has lost the newest version under a key of an origin, and its bytes are
    /// given up; it counts as before. S9 exactly where nothing was put there, where the version
    /// isn't the newest, or where the newest was lost before. Takes no memory.
    pub fn lose(&mut self, origin: &[u8], key: &[u8], version: u32) -> Result<(), Rule>
        ensures answer { result ≡ lose_answer version (object_at self.old origin.now key.now) }
        ensures newest { OnOk result (PutsNewest self.old self.new origin.now key.now
            (option_map after_loss (object_at self.old origin.now key.now))) }
        ensures objects { OnOk result (PutsObjects self.old.origins self.new.origins origin.now
            (with_loss key.now (objects_of self.old origin.now))) }
        ensures requests { self.new.requests ≡ self.old.requests }
        ensures err { OnErr result (self.new ≡ self.old) }
    {
        let Some(objects) = self.origins.get_mut(origin) else {
            return Err(Rule::S9);
        };
        objects.lose(key, version)
    }
}
