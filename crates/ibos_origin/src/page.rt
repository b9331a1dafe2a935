// Allowed URLs.
ghost use Rattle.std.specs.Prelude.{◌≡◌, List, ℕ, None, Ok, true, false, IfOk, MatchOption};
ghost use Rattle.std.specs.Str.{is_utf8};
ghost use Rattle.url.specs.Parser.{parse_url};
ghost use Rattle.url.specs.Parts.{has_credentials, serialize};
ghost use Rattle.url.specs.Origin.{is_http};
ghost use Rattle.ibos_origin.specs.Pages.{allowed, allowed_url, origin_text, host_of, endpoint_of};
ghost use Rattle.ibos_origin.specs.Pages as spec;

use crate::hosts::Hosts;
use ibos_kinds::{Bytes, Endpoint, Memory, Rule};
use std::alloc::{AllocError, Global};
use std::marker::Model;
use thiserror::Error;
use url::{ParseError, Position, Url};

/// Why a text is no page: the first rule that it breaks, or out of memory.
#[derive(Clone, Copy, Debug, PartialEq, Eq, Error)]
pub enum UrlFault {
    #[error("denied {} {}", .0.code(), .0.name())]
    Denied(Rule),
    #[error("out of memory")]
    Memory,
}

impl From<Memory> for UrlFault {
    ghost use Rattle.ibos_origin.specs.declared.page.UrlFault.TheVariants.{Memory};

    ghost from_gives = { λ _ e. e ≡ Memory };

    fn from(_: Memory) -> Self {
        UrlFault::Memory
    }
}

// In bytes: of a serialized URL, and of an origin's text.
const MAX_URL: usize = 1024;

const MAX_ORIGIN: usize = 72;

/// An allowed URL, its origin and where it leads.
///
/// # Examples
///
/// ```
/// use ibos_origin::{Hosts, Page, UrlFault};
/// use std::process::Abort;
///
/// fn read(rt: &(impl Abort + AllocGlobal), hosts: &Hosts) -> Result<(), UrlFault> {
///     let page = Page::read(rt.alloc(), hosts, b"http://a.example:8080/x")?;
///     assert_eq!(rt; page.origin(), b"http://a.example:8080".as_slice());
///     assert_eq!(rt; page.endpoint().port, 8080);
///     Ok(())
/// }
/// ```
#[derive(Debug, Drop)]
pub struct Page {
    url: Bytes,
    origin: Bytes,
    addr: u32,
    port: u16,
}

impl Model for Page {
    ghost use Rattle.ibos_origin.specs.Pages.{Page};

    ghost Value = { Page };

    ghost view = { λ p. record { url = p.url; origin = p.origin; addr = p.addr; port = p.port } };
}

impl Page {
    ghost use Rattle.ibos_origin.specs.Faults.{Gives};

    /// The serialized URL (URL Standard, section 4.5).
    pub fn url(&self) -> &[u8]
        ensures { result.now ≡ self.now.url }
    {
        self.url.as_slice()
    }

    /// The serialized origin (RFC 6454, section 6.2). A port is written only where the scheme has
    /// another by default, so two pages have one origin exactly where these texts are equal.
    pub fn origin(&self) -> &[u8]
        ensures { result.now ≡ self.now.origin }
    {
        self.origin.as_slice()
    }

    /// Where the page is fetched from. It follows from the origin (`endpoints_follow_origins`).
    pub fn endpoint(&self) -> Endpoint
        ensures { result ≡ endpoint_of self.now }
    {
        Endpoint {
            addr: self.addr,
            port: self.port,
        }
    }

    /// The page that a text names, read as an absolute URL (URL Standard, section 4.4), or the
    /// first of these rules that it breaks:
    ///
    /// | Rule | asks of the text |
    /// |---|---|
    /// | U4 | to be UTF-8, and a URL |
    /// | U5 | the scheme `http` or `https` |
    /// | U6 | no user and no password |
    /// | U7 | at most 1,024 bytes once serialized |
    /// | U8 | at most 72 bytes of serialized origin |
    /// | U9 | a host that the host table names |
    #[tactic(auto, unfolding(crate::specs::Pages::allowed))]
    pub fn read(alloc: Global, hosts: &Hosts, text: &[u8]) -> Result<Page, UrlFault>
        ensures { Gives result (allowed hosts.now text.now) }
    {
        let Some(text) = as_text(text) else {
            return Err(UrlFault::Denied(Rule::U4));
        };
        match Url::parse(alloc, text) {
            Ok(url) => Ok(Page::of_url(alloc, hosts, url)?),
            Err(ParseError::OutOfMemory | ParseError::Overflow) => Err(UrlFault::Memory),
            Err(_) => Err(UrlFault::Denied(Rule::U4)),
        }
    }

    #[tactic(auto, unfolding(crate::specs::Pages::allowed_url))]
    fn of_url(alloc: Global, hosts: &Hosts, url: Url) -> Result<Page, UrlFault>
        requires parsed { (text : List ℕ) × (parse_url None text ≡ Ok url) }
        ensures { Gives result (allowed_url hosts.now url) }
    {
        if !is_web(&url) {
            return Err(UrlFault::Denied(Rule::U5));
        }
        if has_user(&url) {
            return Err(UrlFault::Denied(Rule::U6));
        }
        if url.as_str().len() > MAX_URL {
            return Err(UrlFault::Denied(Rule::U7));
        }
        let origin = origin_in(&url);
        if origin.len() > MAX_ORIGIN {
            return Err(UrlFault::Denied(Rule::U8));
        }
        let Some(addr) = address_at(hosts, &url) else {
            return Err(UrlFault::Denied(Rule::U9));
        };
        let origin = copy_of(alloc, origin)?;
        Ok(Page {
            origin,
            addr,
            port: url.port_or_known_default().unwrap_or(0),
            url: text_of(url),
        })
    }
}

// The text, if the bytes are UTF-8.
fn as_text(bytes: &[u8]) -> Option<&str>
    ensures { MatchOption result (is_utf8 bytes.now ≡ false)
        (λ text. (is_utf8 bytes.now ≡ true) × (text.now ≡ bytes.now)) }
{
    match std::str::from_utf8(bytes) {
        Ok(text) => Some(text),
        Err(_) => None,
    }
}

fn is_web(url: &Url) -> bool
    ensures { result ≡ is_http url.now.scheme }
{
    url.scheme() == "http" || url.scheme() == "https"
}

fn has_user(url: &Url) -> bool
    ensures { result ≡ has_credentials url.now }
{
    !url.username().is_empty() || url.password().is_some()
}

fn address_at(hosts: &Hosts, url: &Url) -> Option<u32>
    ensures { result ≡ spec.address_at hosts.now (host_of url.now) }
{
    match url.host_str() {
        None => None,
        Some(host) => hosts.address(host.as_bytes()),
    }
}

// The origin's text is the front of the URL's.
fn origin_in(url: &Url) -> &str
    requires parsed { (text : List ℕ) × (parse_url None text ≡ Ok url.now) }
    requires web { is_http url.now.scheme ≡ true }
    requires no_user { has_credentials url.now ≡ false }
    ensures { result.now ≡ origin_text url.now }
{
    url.slice(Position::BeforeScheme, Position::AfterPort)
}

fn copy_of(alloc: Global, text: &str) -> Result<Bytes, Memory>
    ensures { IfOk result (λ copy. copy ≡ text.now) }
{
    let copy = Vec::from_slice(alloc, text.as_bytes())?;
    Ok(Bytes::from(copy))
}

// The serialized URL, which is not copied.
fn text_of(url: Url) -> Bytes
    ensures { result ≡ serialize url }
{
    let text = String::from(url);
    Bytes::from(text.into_bytes())
}
