// The jar of one origin.
ghost use Rattle.std.specs.Prelude.{◌≡◌, ◌≤◌, ◌<◌, ◌+◌, ◌^◌, ◌++◌, [], ◌||◌, false, nat_lt};
ghost use Rattle.std.specs.Prelude.{length, take, drop, IfOk, OnOk, OnErr};
ghost use Rattle.ibos_kinds.specs.Cookies.{cookie_in, set_breaks, jar_text, is_over, put};
ghost use Rattle.ibos_cookie.specs.Lines.{front, table_len};
ghost use Rattle.ibos_cookie.specs.Lines as spec;
ghost use Rattle.ibos_cookie.specs.Faults.{Answers, full_rule};

use crate::jars::CookieFault;
use crate::texts::{is_token, is_value, split_cookie};
use ibos_kinds::{Bytes, Memory, Rule};
use ibos_text::TextHasher;
use indexmap::IndexMap;
use std::alloc::Global;
use std::hash::BuildHasherDefault;
use std::marker::Model;
use std::mem::swap;

const MAX_COOKIES: usize = 20;

const MAX_BYTES: usize = 4096;

// What a cookie's line has beside its name and its value: `; ` and `=`.
const MARKS: usize = 3;

// How many bytes each value has, by its name.
type Lens = IndexMap<Vec<u8>, usize, BuildHasherDefault<TextHasher>>;

/// The cookies of one origin, in the order in which their names were first set. They are kept as
/// one text, so that reading them is one copy.
#[derive(Drop)]
pub struct Jar {
    lens: Lens,
    // Each cookie as `; name=value`.
    text: Vec<u8>,
    // Room in which the text of the next set is made.
    room: Vec<u8>,
}

impl Model for Jar {
    ghost use Rattle.std.specs.Prelude.{List};
    ghost use Rattle.ibos_kinds.specs.declared.cookies.Cookie.{Cookie};
    ghost use Rattle.ibos_cookie.specs.Lines.{cookies_in, IsJar};

    ghost Value = { List Cookie };

    ghost view = { λ j. cookies_in j.lens.entries j.text.items };

    ghost invariant = { λ j. IsJar j.lens.entries j.text.items
        (cookies_in j.lens.entries j.text.items) };
}

impl Jar {
    /// No cookies. Takes no memory.
    pub fn new(alloc: Global) -> Jar
        ensures { result ≡ [] }
    {
        Jar {
            lens: IndexMap::with_hasher(alloc, BuildHasherDefault::new()),
            text: Vec::new(alloc),
            room: Vec::new(alloc),
        }
    }

    // Sets a cookie in its place, or as the last, unless the jar would pass a limit.
    fn put(&mut self, alloc: Global, name: &[u8], value: &[u8]) -> Result<(), CookieFault>
        ensures answer { Answers result
            (full_rule (put (record { name = name.now; value = value.now }) self.old)) }
        ensures ok { OnOk result (self.new
            ≡ put (record { name = name.now; value = value.now }) self.old) }
        ensures err { OnErr result (self.new ≡ self.old) }
    {
        let count = self.lens.len();
        let text = self.text.as_slice();
        let bytes = text.len() - MARKS * count;
        match self.lens.get_full(name) {
            Some((index, _name, len)) => {
                let len = *len;
                if passes_limit(count, bytes - len, 0, value.len()) {
                    return Err(CookieFault::Denied(Rule::C3));
                }
                let at = value_at(&self.lens, index);
                replace(&mut self.text, &mut self.room, at, len, value)?;
                self.lens[index] = value.len();
                Ok(())
            }
            None => {
                if passes_limit(count + 1, bytes, name.len(), value.len()) {
                    return Err(CookieFault::Denied(Rule::C3));
                }
                append(&mut self.room, text, name, value)?;
                self.lens
                    .insert(Vec::from_slice(alloc, name)?, value.len())?;
                swap(&mut self.text, &mut self.room);
                Ok(())
            }
        }
    }

    /// Stores one cookie, given as `name=value`. Out of memory, and after a refusal, the jar is as
    /// before.
    #[tactic(auto, unfolding(ibos_kinds::specs::Cookies::set_breaks))]
    pub fn set(&mut self, alloc: Global, text: &[u8]) -> Result<(), CookieFault>
        ensures answer { Answers result (set_breaks text.now self.old) }
        ensures ok { OnOk result (self.new ≡ put (cookie_in text.now) self.old) }
        ensures err { OnErr result (self.new ≡ self.old) }
    {
        let (name, value) = split_cookie(text);
        if !is_token(name) {
            return Err(CookieFault::Denied(Rule::C1));
        }
        if !is_value(value) {
            return Err(CookieFault::Denied(Rule::C2));
        }
        self.put(alloc, name, value)?;
        Ok(())
    }

    /// All cookies in their order, as a Cookie header has them: pairs with a semicolon and a space
    /// between.
    pub fn text(&self, alloc: Global) -> Result<Bytes, Memory>
        ensures { IfOk result (λ text. text ≡ jar_text self.now) }
    {
        // No mark stands before the first.
        match self.text.as_slice() {
            [_, _, pairs @ ..] => Bytes::from_slice(alloc, pairs),
            _ => Ok(Bytes::new(alloc)),
        }
    }
}

// Whether so many cookies, or so many bytes with those of a name and a value, pass a limit.
fn passes_limit(count: usize, bytes: usize, name_len: usize, value_len: usize) -> bool
    requires { bytes ≤ 4096 }
    ensures { result ≡ (nat_lt 20 count || nat_lt 4096 (bytes + name_len + value_len)) }
{
    let room = MAX_BYTES - bytes;
    count > MAX_COOKIES || name_len > room || value_len > room - name_len
}

// Where the value of a cookie begins in the text of its jar.
fn value_at(lens: &Lens, index: usize) -> usize
    requires { table_len lens.now.entries < 2 ^ 63 }
    ensures { result ≡ spec.value_at lens.now.entries index }
{
    let mut at = 0;
    let mut left = index;
    for (name, len) in lens {
        if left == 0 {
            return at + name.len() + MARKS;
        }
        at += name.len() + MARKS + *len;
        left -= 1;
    }
    at
}

// Puts a value in place of what stands at one place of a text: over it where it is as long, since
// most values are.
fn replace(
    text: &mut Vec<u8>,
    room: &mut Vec<u8>,
    at: usize,
    len: usize,
    value: &[u8],
) -> Result<(), Memory>
    requires { at + len ≤ length text.old.items }
    ensures ok { OnOk result (text.new.items ≡ take at text.old.items ++ value.now
        ++ drop (at + len) text.old.items) }
    ensures err { OnErr result (text.new.items ≡ text.old.items) }
{
    if value.len() == len {
        text[at..at + len].copy_from_slice(value);
        return Ok(());
    }
    splice(room, text.as_slice(), at, len, value)?;
    swap(text, room);
    Ok(())
}

// Makes a text that has a value in place of what stands at one place of another text.
fn splice(
    made: &mut Vec<u8>,
    text: &[u8],
    at: usize,
    len: usize,
    value: &[u8],
) -> Result<(), Memory>
    requires { at + len ≤ length text.now }
    ensures { OnOk result (made.new.items ≡ take at text.now ++ value.now
        ++ drop (at + len) text.now) }
{
    made.clear();
    made.extend_from_slice(&text[..at])?;
    made.extend_from_slice(value)?;
    made.extend_from_slice(&text[at + len..])?;
    Ok(())
}

// Makes a text that has one cookie more than another.
#[tactic(auto, unfolding(crate::specs::Lines::front))]
fn append(made: &mut Vec<u8>, text: &[u8], name: &[u8], value: &[u8]) -> Result<(), Memory>
    ensures { OnOk result (made.new.items ≡ text.now ++ front name.now ++ value.now) }
{
    made.clear();
    made.extend_from_slice(text)?;
    made.extend_from_slice(b"; ")?;
    made.extend_from_slice(name)?;
    made.extend_from_slice(b"=")?;
    made.extend_from_slice(value)?;
    Ok(())
}
