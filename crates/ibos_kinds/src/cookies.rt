// Cookies.
use crate::Bytes;

/// A cookie: its name and its value (RFC 6265, section 4.1.1), without attributes.
#[derive(Debug, PartialEq, Eq, Drop)]
pub struct Cookie {
    pub name: Bytes,
    pub value: Bytes,
}
