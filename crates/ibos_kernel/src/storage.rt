// Acts on stored objects.
ghost use Rattle.std.specs.Prelude.{◌≡◌, ◌≢◌, ℕ, ◌<◌, ◌≤◌, ◌^◌, List, [], ◌∷◌, None, true, false};
ghost use Rattle.std.specs.Prelude.{◌&&◌, bytes_eq, length, IfSome, IsOk, OnOk, if◌then◌else◌};
ghost use Rattle.ibos_kinds.specs.declared.names.Instance.{Instance};
ghost use Rattle.ibos_kinds.specs.declared.act.Act.TheVariants.{Ask, StoreAnswer, StoreNone};
ghost use Rattle.ibos_kinds.specs.declared.outcome.Item.TheVariants as item;
ghost use Rattle.ibos_kinds.specs.Objects.{version_of, with_loss, with_put};
ghost use Rattle.ibos_kinds.specs.Labels.{label_answer, lose_answer, none_answer};
ghost use Rattle.ibos_page.specs.Tabs.{live_at};
ghost use Rattle.ibos_route.specs.Parties.{admission_of};
ghost use Rattle.ibos_store.specs.Stores.{key_of, object_at, objects_of, requests_of};
ghost use Rattle.ibos_model.specs.Journal.{is_ok, same};
ghost use Rattle.ibos_model.specs.Outcomes.{accepted, ask_outcome, none_outcome, object_outcome};
ghost use Rattle.ibos_model.specs.Outcomes.{put_outcome, unless_denied};
ghost use Rattle.ibos_model.specs.Stored.{is_about, objects_by};
ghost use Rattle.ibos_kernel.specs.Storage.{IsAskedWhereLive, IsFew, asked_by, followed};
ghost use Rattle.ibos_kernel.specs.Storage.{is_storage, objects_after, own_requests};
ghost use Rattle.ibos_kernel.specs.Storage.{storage_outcome};
ghost use Rattle.ibos_kernel.specs.Tables.{origin_at, takes_none};

use ibos_kinds::{Act, Bytes, Head, Instance, Item, Memory, Outcome, Rule};
use ibos_page::Tabs;
use ibos_store::{Store, StoreFault};
use std::alloc::Global;

/// Makes an act on stored objects.
pub fn make_stored(
    tabs: &Tabs,
    store: &mut Store,
    alloc: Global,
    act: &Act,
    out: &mut Outcome,
) -> Result<(), Memory>
    requires storage { is_storage act.now ≡ true }
    requires admitted { admission_of tabs.now act.now ≡ None }
    requires asked { IsAskedWhereLive tabs.now store.old }
    requires few { IsFew store.old }
    requires head { out.old.head ≡ Head.Ok }
    requires items { out.old.items ≡ [] }
    ensures outcome { OnOk result (out.new
        ≡ storage_outcome (origin_at tabs.now) store.old act.now) }
    ensures objects { OnOk result ((o : List ℕ) → objects_of store.new o
        ≡ objects_after (origin_at tabs.now) store.old (is_ok out.new.head) act.now o) }
    ensures requests { OnOk result ((q : Instance) → requests_of store.new q
        ≡ asked_by (is_about q act.now) (is_ok out.new.head) act.now (requests_of store.old q)) }
    ensures denied { OnOk result (is_ok out.new.head ≡ false → store.new ≡ store.old) }
    ensures free { takes_none act.now ≡ true → IsOk result }
{
    match act {
        Act::Put { who, key, bytes } => {
            let origin = tabs.origin(*who);
            put(
                store,
                alloc,
                origin,
                *who,
                key.as_slice(),
                bytes.as_slice(),
                out,
            )?;
        }
        Act::Ask { who, key } => {
            ask(store, alloc, tabs.origin(*who), *who, key.as_slice(), out)?;
        }
        Act::StoreAnswer {
            who,
            request,
            origin,
            key,
            version,
        } => {
            let (origin, key) = (origin.as_slice(), key.as_slice());
            answer(
                tabs, store, alloc, *who, *request, origin, key, *version, out,
            )?;
        }
        Act::StoreNone { who, request } => none(store, *who, *request, out)?,
        Act::StoreLose {
            origin,
            key,
            version,
        } => lose(store, origin.as_slice(), key.as_slice(), *version, out),
        _ => unreachable!(),
    }
    Ok(())
}

// A renderer of an instance of an origin stores an object.
fn put(
    store: &mut Store,
    alloc: Global,
    origin: &[u8],
    who: Instance,
    key: &[u8],
    bytes: &[u8],
    out: &mut Outcome,
) -> Result<(), Memory>
    requires few { version_of (object_at store.old origin.now key.now) < 2 ^ 31 }
    requires head { out.old.head ≡ Head.Ok }
    requires items { out.old.items ≡ [] }
    ensures outcome { OnOk result (out.new ≡ put_outcome who origin.now key.now bytes.now
        (objects_of store.old origin.now)) }
    ensures objects { OnOk result ((o : List ℕ) → objects_of store.new o
        ≡ (if is_ok out.new.head && bytes_eq origin.now o
        then with_put key.now bytes.now (objects_of store.old o) else objects_of store.old o)) }
    ensures requests { OnOk result ((q : Instance) → requests_of store.new q
        ≡ requests_of store.old q) }
    ensures denied { OnOk result (is_ok out.new.head ≡ false → store.new ≡ store.old) }
{
    match store.put(origin, key, bytes) {
        Ok(version) => tell_put(alloc, who, origin, key, version, bytes, out),
        Err(StoreFault::Denied(rule)) => {
            out.head = Head::Denied(rule);
            Ok(())
        }
        Err(StoreFault::Memory) => Err(Memory),
    }
}

// The instance is told the version, and the storage process the label and the length.
fn tell_put(
    alloc: Global,
    who: Instance,
    origin: &[u8],
    key: &[u8],
    version: u32,
    bytes: &[u8],
    out: &mut Outcome,
) -> Result<(), Memory>
    requires short { length bytes.now ≤ 2048 }
    requires head { out.old.head ≡ Head.Ok }
    requires items { out.old.items ≡ [] }
    ensures { OnOk result (out.new ≡ accepted (item.VersionIs who version
        ∷ item.StorePut origin.now key.now version (length bytes.now) ∷ [])) }
{
    let origin = Bytes::from_slice(alloc, origin)?;
    let key = Bytes::from_slice(alloc, key)?;
    let len = bytes.len() as u32;
    out.push(Item::VersionIs { who, version })?;
    out.push(Item::StorePut {
        origin,
        key,
        version,
        len,
    })?;
    Ok(())
}

// A renderer of an instance of an origin asks for an object.
fn ask(
    store: &mut Store,
    alloc: Global,
    origin: &[u8],
    who: Instance,
    key: &[u8],
    out: &mut Outcome,
) -> Result<(), Memory>
    requires begun { requests_of store.old who ≢ None }
    requires few { (own_requests store.old who).count < 2 ^ 31 }
    requires head { out.old.head ≡ Head.Ok }
    requires items { out.old.items ≡ [] }
    ensures outcome { OnOk result (out.new
        ≡ ask_outcome who origin.now key.now (own_requests store.old who)) }
    ensures objects { (o : List ℕ) → objects_of store.new o ≡ objects_of store.old o }
    ensures requests { OnOk result ((q : Instance) → requests_of store.new q
        ≡ asked_by (same who q) (is_ok out.new.head) (Ask who key.now) (requests_of store.old q)) }
    ensures denied { OnOk result (is_ok out.new.head ≡ false → store.new ≡ store.old) }
{
    match store.ask(who, key) {
        Ok(request) => tell_ask(alloc, origin, who, request, key, out),
        Err(StoreFault::Denied(rule)) => {
            out.head = Head::Denied(rule);
            Ok(())
        }
        Err(StoreFault::Memory) => Err(Memory),
    }
}

// The instance is told the request's number, and the storage process what is asked for.
fn tell_ask(
    alloc: Global,
    origin: &[u8],
    who: Instance,
    request: u32,
    key: &[u8],
    out: &mut Outcome,
) -> Result<(), Memory>
    requires head { out.old.head ≡ Head.Ok }
    requires items { out.old.items ≡ [] }
    ensures { OnOk result (out.new ≡ accepted (item.RequestIs who request
        ∷ item.StoreAsk who request origin.now key.now ∷ [])) }
{
    let origin = Bytes::from_slice(alloc, origin)?;
    let key = Bytes::from_slice(alloc, key)?;
    out.push(Item::RequestIs { who, request })?;
    out.push(Item::StoreAsk {
        who,
        request,
        origin,
        key,
    })?;
    Ok(())
}

// The storage process answers a request by a label. Who doesn't live has no request.
fn answer(
    tabs: &Tabs,
    store: &mut Store,
    alloc: Global,
    who: Instance,
    request: u32,
    origin: &[u8],
    key: &[u8],
    version: u32,
    out: &mut Outcome,
) -> Result<(), Memory>
    requires asked { IsAskedWhereLive tabs.now store.old }
    requires head { out.old.head ≡ Head.Ok }
    requires items { out.old.items ≡ [] }
    ensures outcome { OnOk result (out.new ≡ object_outcome who request version
        (label_answer (key_of store.old who request) (origin_at tabs.now who) origin.now key.now
        version (object_at store.old origin.now key.now))) }
    ensures objects { (o : List ℕ) → objects_of store.new o ≡ objects_of store.old o }
    ensures requests { OnOk result ((q : Instance) → requests_of store.new q
        ≡ asked_by (same who q) (is_ok out.new.head)
        (StoreAnswer who request origin.now key.now version) (requests_of store.old q)) }
    ensures denied { OnOk result (is_ok out.new.head ≡ false → store.new ≡ store.old) }
{
    if tabs.live(who).is_err() {
        out.head = Head::Denied(Rule::S5);
        return Ok(());
    }
    answer_live(
        store,
        alloc,
        who,
        tabs.origin(who),
        request,
        origin,
        key,
        version,
        out,
    )
}

// The same of an instance that lives, of the origin `own`.
fn answer_live(
    store: &mut Store,
    alloc: Global,
    who: Instance,
    own: &[u8],
    request: u32,
    origin: &[u8],
    key: &[u8],
    version: u32,
    out: &mut Outcome,
) -> Result<(), Memory>
    requires head { out.old.head ≡ Head.Ok }
    requires items { out.old.items ≡ [] }
    ensures outcome { OnOk result (out.new ≡ object_outcome who request version
        (label_answer (key_of store.old who request) own.now origin.now key.now version
        (object_at store.old origin.now key.now))) }
    ensures objects { (o : List ℕ) → objects_of store.new o ≡ objects_of store.old o }
    ensures requests { OnOk result ((q : Instance) → requests_of store.new q
        ≡ asked_by (same who q) (is_ok out.new.head)
        (StoreAnswer who request origin.now key.now version) (requests_of store.old q)) }
    ensures denied { OnOk result (is_ok out.new.head ≡ false → store.new ≡ store.old) }
{
    match store.answer(alloc, who, own, request, origin, key, version) {
        Ok(bytes) => {
            out.push(Item::Object {
                who,
                request,
                version,
                bytes,
            })?;
            Ok(())
        }
        Err(StoreFault::Denied(rule)) => {
            out.head = Head::Denied(rule);
            Ok(())
        }
        Err(StoreFault::Memory) => Err(Memory),
    }
}

// The storage process has no object for a request.
fn none(store: &mut Store, who: Instance, request: u32, out: &mut Outcome) -> Result<(), Memory>
    requires head { out.old.head ≡ Head.Ok }
    requires items { out.old.items ≡ [] }
    ensures outcome { OnOk result (out.new
        ≡ none_outcome who request (none_answer (key_of store.old who request))) }
    ensures objects { (o : List ℕ) → objects_of store.new o ≡ objects_of store.old o }
    ensures requests { OnOk result ((q : Instance) → requests_of store.new q
        ≡ asked_by (same who q) (is_ok out.new.head) (StoreNone who request)
        (requests_of store.old q)) }
    ensures denied { OnOk result (is_ok out.new.head ≡ false → store.new ≡ store.old) }
{
    match store.none(who, request) {
        Ok(()) => {
            out.push(Item::NoObject { who, request })?;
            Ok(())
        }
        Err(rule) => {
            out.head = Head::Denied(rule);
            Ok(())
        }
    }
}

// The storage process lost a version of an object. Takes no memory.
fn lose(store: &mut Store, origin: &[u8], key: &[u8], version: u32, out: &mut Outcome)
    requires head { out.old.head ≡ Head.Ok }
    requires items { out.old.items ≡ [] }
    ensures outcome { out.new
        ≡ unless_denied (lose_answer version (object_at store.old origin.now key.now)) }
    ensures objects { (o : List ℕ) → objects_of store.new o
        ≡ (if is_ok out.new.head && bytes_eq origin.now o
        then with_loss key.now (objects_of store.old o) else objects_of store.old o) }
    ensures requests { (q : Instance) → requests_of store.new q ≡ requests_of store.old q }
    ensures denied { is_ok out.new.head ≡ false → store.new ≡ store.old }
{
    if let Err(rule) = store.lose(origin, key, version) {
        out.head = Head::Denied(rule);
    }
}

/// Requests end with their instance, and an instance that starts has none. Where none starts, takes
/// no memory.
pub fn follow(
    store: &mut Store,
    ended: Option<Instance>,
    opened: Option<Instance>,
) -> Result<(), Memory>
    requires ends { IfSome ended (λ who. requests_of store.old who ≢ None) }
    requires begins { IfSome opened (λ who. requests_of store.old who ≡ None) }
    ensures objects { (o : List ℕ) → objects_of store.new o ≡ objects_of store.old o }
    ensures requests { OnOk result ((q : Instance) → requests_of store.new q
        ≡ followed ended opened q (requests_of store.old q)) }
    ensures none { ended ≡ None → opened ≡ None → store.new ≡ store.old }
    ensures free { opened ≡ None → IsOk result }
{
    if let Some(who) = ended {
        store.end(who);
    }
    if let Some(who) = opened {
        store.begin(who)?;
    }
    Ok(())
}
