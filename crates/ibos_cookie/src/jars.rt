// The jars.
ghost use Rattle.std.specs.Prelude.{◌≡◌, [], IfOk, OnOk, OnErr};
ghost use Rattle.ibos_kinds.specs.Cookies.{cookie_in, set_breaks, jar_text};

use crate::jar::Jar;
use ibos_kinds::{Bytes, Memory, Rule};
use ibos_text::TextHasher;
use indexmap::IndexMap;
use std::alloc::{AllocError, AllocFailed, Global};
use std::hash::BuildHasherDefault;
use std::marker::Model;

/// Why a set is refused.
#[derive(Clone, Copy, Debug, PartialEq, Eq)]
pub enum CookieFault {
    Denied(Rule),
    Memory,
}

impl From<AllocError> for CookieFault {
    ghost use Rattle.ibos_cookie.specs.declared.jars.CookieFault.TheVariants.{Memory};

    ghost from_gives = { λ _ e. e ≡ Memory };

    fn from(_: AllocError) -> Self {
        CookieFault::Memory
    }
}

impl<T: Drop> From<AllocFailed<T>> for CookieFault {
    ghost use Rattle.ibos_cookie.specs.declared.jars.CookieFault.TheVariants.{Memory};

    ghost from_gives = { λ _ e. e ≡ Memory };

    fn from(_: AllocFailed<T>) -> Self {
        CookieFault::Memory
    }
}

impl From<Memory> for CookieFault {
    ghost use Rattle.ibos_cookie.specs.declared.jars.CookieFault.TheVariants.{Memory};

    ghost from_gives = { λ _ e. e ≡ Memory };

    fn from(_: Memory) -> Self {
        CookieFault::Memory
    }
}

/// A table from origins to their cookie jars. The limits of a jar are 20 cookies, and 4,096 bytes
/// in all its names and values.
///
/// # Examples
///
/// ```
/// use ibos_cookie::{CookieFault, Jars};
/// use std::process::Abort;
///
/// fn remember(rt: &(impl Abort + AllocGlobal)) -> Result<(), CookieFault> {
///     let mut jars = Jars::new(rt.alloc());
///     jars.set(b"http://a.example", b"theme=dark")?;
///     jars.set(b"http://a.example", b"lang=en")?;
///     let text = jars.text(rt.alloc(), b"http://a.example")?;
///     assert_eq!(rt; text.as_slice(), b"theme=dark; lang=en".as_slice());
///     assert!(rt; jars.text(rt.alloc(), b"http://b.example")?.is_empty());
///     Ok(())
/// }
/// ```
#[derive(Drop)]
pub struct Jars {
    alloc: Global,
    jars: IndexMap<Vec<u8>, Jar, BuildHasherDefault<TextHasher>>,
}

impl Model for Jars {
    ghost use Rattle.std.specs.Prelude.{List};
    ghost use Rattle.ibos_cookie.specs.Jars.{OriginJar, origin_jars};

    ghost Value = { List OriginJar };

    ghost view = { λ j. origin_jars j.jars.entries };
}

impl Jars {
    ghost use Rattle.ibos_cookie.specs.Jars.{jar_of, SetsIn, PutsJar};
    ghost use Rattle.ibos_cookie.specs.Faults.{Answers};

    /// No jar has a cookie. Takes no memory.
    pub fn new(alloc: Global) -> Jars
        ensures { result ≡ [] }
    {
        Jars {
            alloc,
            jars: IndexMap::with_hasher(alloc, BuildHasherDefault::new()),
        }
    }

    /// Stores one cookie of an origin, given as `name=value`. A new value for a name leaves the
    /// jar's order; a name that the jar lacks comes behind all others. Broken are, the first that
    /// applies, C1 by a bad name, C2 by a bad value (RFC 6265, section 4.1.1), and C3 by a jar that
    /// would grow past its limits. Out of memory, and after a refusal, the jars are as before.
    pub fn set(&mut self, origin: &[u8], text: &[u8]) -> Result<(), CookieFault>
        ensures answer { Answers result (set_breaks text.now (jar_of self.old origin.now)) }
        ensures ok { OnOk result (SetsIn self.old self.new origin.now (cookie_in text.now)) }
        ensures err { OnErr result (self.new ≡ self.old) }
    {
        match self.jars.get_mut(origin) {
            Some(jar) => jar.set(self.alloc, text),
            None => {
                let mut jar = Jar::new(self.alloc);
                jar.set(self.alloc, text)?;
                self.put_jar(origin, jar)?;
                Ok(())
            }
        }
    }

    // Gives an origin a jar.
    fn put_jar(&mut self, origin: &[u8], jar: Jar) -> Result<(), Memory>
        ensures ok { OnOk result (PutsJar self.old self.new origin.now jar) }
        ensures err { OnErr result (self.new ≡ self.old) }
    {
        self.jars.insert(Vec::from_slice(self.alloc, origin)?, jar)?;
        Ok(())
    }

    /// All cookies of an origin in their order, as a Cookie header has them (RFC 6265, section
    /// 4.2.1): pairs with a semicolon and a space between them. No text, if there are none.
    pub fn text(&self, alloc: Global, origin: &[u8]) -> Result<Bytes, Memory>
        ensures { IfOk result (λ text. text ≡ jar_text (jar_of self.now origin.now)) }
    {
        match self.jars.get(origin) {
            Some(jar) => jar.text(alloc),
            None => Ok(Bytes::new(alloc)),
        }
    }
}
