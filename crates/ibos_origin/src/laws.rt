//! Laws of host tables, URLs and origins.
ghost use Rattle.std.specs.Prelude.{◌≡◌, ◌≤◌, ◌++◌, List, ℕ, true, length, Ok, Some};
ghost use Rattle.std.specs.List.{list_all};
ghost use Rattle.ibos_kinds.specs.Screens.{is_pixel};
ghost use Rattle.ibos_origin.specs.Hosts.{HostTable};
ghost use Rattle.ibos_origin.specs.Tables.{HasPlainNames, IsSound, hosts_in};
ghost use Rattle.ibos_origin.specs.Pages.{Page, allowed, endpoint_of};
ghost use Rattle.ibos_origin.specs.Endpoints.{origin_endpoint};

/// An allowed URL begins with its origin, since a web URL has a host, an allowed one has no user,
/// and a port stands in both texts or in neither (RFC 6454, sections 4 and 6.2; URL Standard,
/// sections 4.5 and 4.7). The origin has at most 72 bytes.
pub fn urls_begin_with_their_origin()
    ensures begins { (H : HostTable) (text : List ℕ) (page : Page) → allowed H text ≡ Ok page →
        (rest : List ℕ) × (page.url ≡ page.origin ++ rest) }
    ensures short { (H : HostTable) (text : List ℕ) (page : Page) → allowed H text ≡ Ok page →
        length page.origin ≤ 72 }
{}

/// The origin of an allowed URL is printable: its host is a name of the table.
pub fn origins_are_printable()
    ensures { (H : HostTable) (text : List ℕ) (page : Page) → HasPlainNames H →
        allowed H text ≡ Ok page → list_all is_pixel page.origin ≡ true }
{}

/// The text of an allowed URL is printable, so that no page can forge a line of what is printed:
/// its origin is, and behind that all that is not printable ASCII is percent-encoded (URL Standard,
/// section 1.3).
pub fn urls_are_printable()
    ensures { (H : HostTable) (text : List ℕ) (page : Page) → HasPlainNames H →
        allowed H text ≡ Ok page → list_all is_pixel page.url ≡ true }
{}

/// Where a page is follows from its origin's text: the table's address of the origin's host, and
/// the port that is written there, or else its scheme's, 80 or 443. So all pages of one origin are
/// at one endpoint.
pub fn endpoints_follow_origins()
    ensures endpoint { (H : HostTable) (text : List ℕ) (page : Page) → HasPlainNames H →
        allowed H text ≡ Ok page → origin_endpoint H page.origin ≡ Some (endpoint_of page) }
    ensures same { (H : HostTable) (first second : List ℕ) (p q : Page) → HasPlainNames H →
        allowed H first ≡ Ok p → allowed H second ≡ Ok q → p.origin ≡ q.origin →
        endpoint_of p ≡ endpoint_of q }
{}

/// A host table that was read is sound: its MAC addresses have 48 bits, its names are names, and no
/// two are equal.
pub fn tables_are_sound()
    ensures { (text : List ℕ) (H : HostTable) → hosts_in text ≡ Ok H → IsSound H }
{}

/// The names of a host table that was read have only the bytes `a` to `z`, `0` to `9`, `-`, `.` and
/// `_`.
pub fn hosts_have_plain_names()
    ensures { (text : List ℕ) (H : HostTable) → hosts_in text ≡ Ok H → HasPlainNames H }
{}
