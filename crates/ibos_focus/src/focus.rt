// The entry line, and where keys and clicks go.
ghost use Rattle.std.specs.Prelude.{◌≡◌, ℕ, ◌≤◌, [], length, true, false, OnErr};
ghost use Rattle.std.specs.List.{list_all};
ghost use Rattle.ibos_kinds.specs.Keyboard as kinds;
ghost use Rattle.ibos_kinds.specs.Limits.{IsKey};
ghost use Rattle.ibos_kinds.specs.Screens.{is_pixel};

use arrayvec::ArrayVec;
use ibos_kinds::{CHROME_ROWS, COLUMNS, Key, Rule, SCREEN_ROWS};
use std::marker::Model;

// The last row of the chrome is the entry line.
const ENTRY_ROW: u32 = CHROME_ROWS as u32 - 1;

/// Where keys go: to the entry line, or to the content of the active instance.
#[derive(Clone, Copy, Debug, PartialEq, Eq)]
pub enum Spot {
    Entry,
    Content,
}

/// What a key did: it goes to the active instance as this byte, it changed the entry line, or it is
/// an Enter at the entry line, which stays.
#[derive(Clone, Copy, Debug, PartialEq, Eq)]
pub enum KeyDone {
    ToPage(u8),
    Edited,
    Enter,
}

/// Where a click fell: on the chrome's first rows, on the entry line, or on the content, at this
/// row and column of it.
#[derive(Clone, Copy, Debug, PartialEq, Eq)]
pub enum ClickDone {
    Chrome,
    Entry,
    Content { row: u8, col: u8 },
}

/// What is typed into the entry line, printable bytes in an array with room for 1,024, and who gets
/// the next key. No call takes memory.
///
/// # Examples
///
/// ```
/// use ibos_focus::{Focus, KeyDone, Spot};
/// use ibos_kinds::{Key, Rule};
/// use std::process::Abort;
///
/// fn type_keys(rt: &impl Abort) {
///     let mut focus = Focus::new();
///     assert_eq!(rt; focus.key(Key::Byte(b'a'), false), Ok(KeyDone::Edited));
///     assert_eq!(rt; focus.entry(), b"a".as_slice());
///     // No tab is active that an Enter could open something in.
///     assert_eq!(rt; focus.key(Key::Enter, false), Err(Rule::U10));
///     focus.to(Spot::Content);
///     assert_eq!(rt; focus.key(Key::Byte(b'b'), true), Ok(KeyDone::ToPage(b'b')));
/// }
/// ```
#[derive(Drop)]
pub struct Focus {
    entry: ArrayVec<u8, 1024>,
    spot: Spot,
}

impl Model for Focus {
    ghost use Rattle.std.specs.Prelude.{◌≡◌, true};
    ghost use Rattle.std.specs.List.{list_all};
    ghost use Rattle.ibos_kinds.specs.Screens.{is_pixel};
    ghost use Rattle.ibos_focus.specs.Focused.{Focused};

    ghost Value = { Focused };

    ghost view = { λ f. record { entry_line = f.entry.items; spot = f.spot } };

    ghost invariant = { λ f. list_all is_pixel f.entry.items ≡ true };
}

impl Focus {
    ghost use Rattle.ibos_focus.specs.Focused.{key_of, after_key, click_of, after_click};

    /// Nothing is typed yet, and the entry line gets the keys.
    pub fn new() -> Focus
        ensures { result ≡ record { entry_line = []; spot = Spot.Entry } }
    {
        Focus {
            entry: ArrayVec::new(),
            spot: Spot::Entry,
        }
    }

    /// Takes a key. While keys go to a page, it gets the key's byte: a line feed for Enter, a
    /// backspace for Back. While they go to the entry line, a printable byte is added to it, or U11
    /// is broken because the line is full; Back shortens the line, and does nothing to an empty
    /// one; Enter leaves it to the caller, and breaks U10 if no tab is active.
    pub fn key(&mut self, key: Key, active: bool) -> Result<KeyDone, Rule>
        requires byte { IsKey key }
        requires spot { active ≡ false → self.old.spot ≡ Spot.Entry }
        ensures answer { result ≡ key_of self.old key active }
        ensures after { self.new ≡ after_key self.old key }
        ensures err { OnErr result (self.new ≡ self.old) }
    {
        if self.spot == Spot::Content {
            return Ok(KeyDone::ToPage(key_byte(key)));
        }
        match key {
            Key::Byte(byte) => {
                if self.entry.is_full() {
                    return Err(Rule::U11);
                }
                self.entry.push(byte);
                Ok(KeyDone::Edited)
            }
            Key::Back => {
                self.entry.pop();
                Ok(KeyDone::Edited)
            }
            Key::Enter => {
                if active {
                    Ok(KeyDone::Enter)
                } else {
                    Err(Rule::U10)
                }
            }
        }
    }

    /// Takes a click on a cell of the screen, or breaks U12 if there is no such cell. The entry
    /// line and the content each get the keys once they are clicked on; the chrome's other rows do
    /// nothing. A click on the content breaks U10 if no tab is active; its row is counted from the
    /// content's first.
    pub fn click(&mut self, row: u32, col: u32, active: bool) -> Result<ClickDone, Rule>
        ensures answer { result ≡ click_of row col active }
        ensures after { self.new ≡ after_click self.old row col active }
        ensures err { OnErr result (self.new ≡ self.old) }
    {
        if row >= SCREEN_ROWS as u32 || col >= COLUMNS as u32 {
            return Err(Rule::U12);
        }
        if row < ENTRY_ROW {
            return Ok(ClickDone::Chrome);
        }
        if row == ENTRY_ROW {
            self.spot = Spot::Entry;
            return Ok(ClickDone::Entry);
        }
        if !active {
            return Err(Rule::U10);
        }
        self.spot = Spot::Content;
        Ok(ClickDone::Content {
            row: (row - CHROME_ROWS as u32) as u8,
            col: col as u8,
        })
    }

    /// The entry line's bytes.
    pub fn entry(&self) -> &[u8]
        ensures value { result.now ≡ self.now.entry_line }
        ensures fits { length result.now ≤ 1024 }
        ensures printable { list_all is_pixel result.now ≡ true }
    {
        self.entry.as_slice()
    }

    /// Where keys go.
    pub fn spot(&self) -> Spot
        ensures { result ≡ self.now.spot }
    {
        self.spot
    }

    /// Empties the entry line.
    pub fn clear(&mut self)
        ensures { self.new ≡ record self.old { entry_line = [] } }
    {
        self.entry.clear();
    }

    /// Sends keys to the entry line, or to the content.
    pub fn to(&mut self, spot: Spot)
        ensures { self.new ≡ record self.old { spot = spot } }
    {
        self.spot = spot;
    }
}

// The byte that a page is told of a key.
fn key_byte(key: Key) -> u8
    ensures { result ≡ kinds.key_byte key }
{
    match key {
        Key::Byte(byte) => byte,
        Key::Enter => 0x0a,
        Key::Back => 0x08,
    }
}
