// The chrome's rows as texts of at most 80 bytes. Takes no memory.
ghost use Rattle.std.specs.Prelude.{◌≡◌, ◌+◌, ◌-◌, ◌<◌, ◌≤◌, ◌++◌, ◌∷◌, [], length, map, take};
ghost use Rattle.std.specs.Prelude.{drop, decimal};
ghost use Rattle.arrayvec.specs.ArrayVec.{array_vec_len};
ghost use Rattle.ibos_model.specs.Screen as spec;
ghost use Rattle.ibos_model.specs.Screen.{state_text, bar_text, entry_line_text};
ghost use Rattle.ibos_kernel.specs.Tables.{is_entry};

use arrayvec::ArrayVec;
use ibos_focus::Spot;
use ibos_kinds::{COLUMNS, Instance};
use itoa::Buffer;

/// A row's text.
pub type Row = ArrayVec<u8, COLUMNS>;

fn push(row: &mut Row, text: &[u8])
    requires { array_vec_len row.old + length text.now ≤ 80 }
    ensures items { row.new.items ≡ row.old.items ++ text.now }
    ensures len { array_vec_len row.new ≡ array_vec_len row.old + length text.now }
{
    let Ok(()) = row.try_extend_from_slice(text) else {
        unreachable!()
    };
}

/// The state: which instance is active, and whether it or the entry line gets the keys.
#[tactic(auto, unfolding(ibos_model::specs::Screen::state_text))]
pub fn state_row(active: Option<Instance>, spot: Spot) -> Row
    ensures { result.items ≡ state_text active (is_entry spot) }
{
    let mut row = ArrayVec::new();
    let Some(who) = active else {
        push(&mut row, b"no tab");
        return row;
    };
    push(&mut row, b"tab ");
    push_number(&mut row, who.tab);
    push(&mut row, b".");
    push_number(&mut row, who.ord);
    match spot {
        Spot::Entry => push(&mut row, b" entry"),
        Spot::Content => push(&mut row, b" page"),
    }
    row
}

fn push_number(row: &mut Row, number: u8)
    requires { array_vec_len row.old ≤ 70 }
    ensures items { row.new.items ≡ row.old.items ++ decimal number }
    ensures len { array_vec_len row.new ≤ array_vec_len row.old + 3 }
{
    let mut digits = Buffer::new();
    push(row, digits.format(number).as_bytes());
}

// A byte as the chrome shows it.
fn chrome_byte(byte: u8) -> u8
    ensures { result ≡ spec.chrome_byte byte }
{
    if byte >= b' ' && byte <= b'~' {
        byte
    } else {
        b'?'
    }
}

fn push_shown(row: &mut Row, text: &[u8])
    requires { array_vec_len row.old + length text.now ≤ 80 }
    ensures items { row.new.items ≡ row.old.items ++ map spec.chrome_byte text.now }
    ensures len { array_vec_len row.new ≡ array_vec_len row.old + length text.now }
{
    'bytes: for byte in text {
        row.push(chrome_byte(*byte));
    }
}

/// The address bar. A URL that is too long for the row is cut, and a `>` in the last cell says so.
#[tactic(auto, unfolding(ibos_model::specs::Screen::bar_text))]
pub fn bar_row(url: &[u8]) -> Row
    ensures { result.items ≡ bar_text url.now }
{
    let mut row = ArrayVec::new();
    if url.len() > COLUMNS {
        push_shown(&mut row, &url[..COLUMNS - 1]);
        push_shown(&mut row, b">");
    } else {
        push_shown(&mut row, url);
    }
    row
}

/// The entry line. Of a text that is too long for the row the end is seen, and a `<` in the first
/// cell says that there is more.
#[tactic(auto, unfolding(ibos_model::specs::Screen::entry_line_text))]
pub fn entry_row(entry: &[u8]) -> Row
    ensures { result.items ≡ entry_line_text entry.now }
{
    let mut row = ArrayVec::new();
    if entry.len() > COLUMNS {
        push_shown(&mut row, b"<");
        push_shown(&mut row, &entry[entry.len() - (COLUMNS - 1)..]);
    } else {
        push_shown(&mut row, entry);
    }
    row
}
