// The contents of all instances, and what of them is seen.
ghost use Rattle.std.specs.Prelude.{◌≡◌, ◌≢◌, ◌↔◌, ℕ, ◌+◌, ◌*◌, ◌<◌, ◌≤◌, ◌++◌, length, take};
ghost use Rattle.std.specs.Prelude.{replicate, slice_index, true, false, None, Some, IfOk, OnOk};
ghost use Rattle.std.specs.Prelude.{OnErr, IfSome, IsTrue};
ghost use Rattle.std.specs.List.{list_all};
ghost use Rattle.ibos_kinds.specs.declared.names.Instance.{Instance};
ghost use Rattle.ibos_kinds.specs.Screens.{columns, content_rows, space, is_pixel, draw_breaks};
ghost use Rattle.ibos_kinds.specs.Screens.{cell_after, padded};
ghost use Rattle.ibos_kinds.specs.Screens as spec;
ghost use Rattle.ibos_frame.specs.ScreenStates.{answer_of, body_of, content_in};

use crate::content::Content;
use crate::contents::Contents;
use crate::rows::Rows;
use ibos_kinds::{COLUMNS, CONTENT_ROWS, Instance, Memory, Rule};
use std::alloc::Global;
use std::marker::Model;

/// What is on the screen, in cells of one printable byte of ASCII: the chrome's rows, and under
/// them the content of one instance, or blanks if none is chosen or it has ended. Each instance
/// that was added has a content of its own, which is kept while others are shown. Only `new` and
/// `begin` take memory.
///
/// # Examples
///
/// ```
/// use ibos_frame::Screen;
/// use ibos_kinds::{Instance, Memory, Rule};
/// use std::process::Abort;
///
/// fn draw(rt: &(impl Abort + AllocGlobal)) -> Result<(), Memory> {
///     let who = Instance { tab: 5, ord: 0 };
///     let mut screen = Screen::new(rt.alloc())?;
///     screen.begin(who)?;
///     screen.show(Some(who));
///     // One row of two cells, at the corner of the content and over its edge.
///     assert_eq!(rt; screen.draw(who, 0, 0, 1, 2, b"hi"), Ok(()));
///     assert_eq!(rt; screen.draw(who, 0, 79, 1, 2, b"hi"), Err(Rule::P3));
///     // The content begins under the three rows of the chrome.
///     assert!(rt; screen.pixels()[3 * 80..].starts_with(b"hi"));
///     Ok(())
/// }
/// ```
#[derive(Drop)]
pub struct Screen {
    alloc: Global,
    contents: Contents,
    shown: Option<Instance>,
    rows: Rows,
}

impl Model for Screen {
    ghost use Rattle.std.specs.Prelude.{◌≡◌};
    ghost use Rattle.ibos_frame.specs.ScreenStates.{ScreenState, body_of};

    ghost Value = { ScreenState };

    ghost view = { λ s. record { contents = s.contents; shown = s.shown; chrome = s.rows.chrome } };

    // What is shown is what is seen below the chrome.
    ghost invariant = { λ s. s.rows.body ≡ body_of s.contents s.shown };
}

impl Screen {
    ghost use Rattle.ibos_frame.specs.ScreenStates.{content_of, content_at, is_open, chrome_at};
    ghost use Rattle.ibos_frame.specs.ScreenStates.{seen_at};

    /// A blank screen, and no contents.
    pub fn new(alloc: Global) -> Result<Screen, Memory>
        ensures open { IfOk result (λ screen. (q : Instance) → content_of screen q ≡ None) }
        ensures shown { IfOk result (λ screen. screen.shown ≡ None) }
        ensures chrome { IfOk result (λ screen. (r : ℕ) → r < 3 → chrome_at screen r
            ≡ replicate 80 space) }
    {
        Ok(Screen {
            alloc,
            contents: Contents::new(alloc),
            shown: None,
            rows: Rows::new(alloc)?,
        })
    }

    /// Gives an instance a blank content.
    pub fn begin(&mut self, who: Instance) -> Result<(), Memory>
        requires { is_open self.old who ≡ false }
        ensures open { OnOk result (is_open self.new who ≡ true) }
        ensures blank { OnOk result ((r c : ℕ) → r < 22 → c < 80 → content_at self.new who r c
            ≡ space) }
        ensures others { (q : Instance) → q ≢ who → content_of self.new q ≡ content_of self.old q }
        ensures shown { self.new.shown ≡ self.old.shown }
        ensures chrome { self.new.chrome ≡ self.old.chrome }
        ensures err { OnErr result (self.new ≡ self.old) }
    {
        let content = Content::new(self.alloc)?;
        self.contents.begin(who, content)?;
        Ok(())
    }

    /// Drops an instance's content and frees its memory. If it was on the screen, its rows are
    /// blank from now on.
    pub fn end(&mut self, who: Instance)
        requires { is_open self.old who ≡ true }
        ensures open { is_open self.new who ≡ false }
        ensures others { (q : Instance) → q ≢ who → content_of self.new q ≡ content_of self.old q }
        ensures hidden { self.old.shown ≡ Some who → self.new.shown ≡ None }
        ensures shown { self.old.shown ≢ Some who → self.new.shown ≡ self.old.shown }
        ensures chrome { self.new.chrome ≡ self.old.chrome }
    {
        self.contents.end(who);
        if is_shown(self.shown, Some(who)) {
            self.shown = None;
            self.rows.hide();
        }
    }

    /// Writes a rectangle of an instance's content, whose row and column count from the content's
    /// corner; `pixels` has its cells line by line. P3 is broken by a rectangle without cells, by
    /// one that leaves the content, and by another number of pixels than it has cells; P4 by a byte
    /// that can't be printed. The screen follows at once if this content is on it.
    pub fn draw(
        &mut self,
        who: Instance,
        row: u32,
        col: u32,
        height: u32,
        width: u32,
        pixels: &[u8],
    ) -> Result<(), Rule>
        requires { is_open self.old who ≡ true }
        ensures answer { result ≡ answer_of (draw_breaks row col height width pixels.now) }
        ensures open { is_open self.new who ≡ true }
        ensures drawn { OnOk result ((r c : ℕ) → r < 22 → c < 80 → content_at self.new who r c
            ≡ cell_after row col height width pixels.now r c (content_at self.old who r c)) }
        ensures others { (q : Instance) → q ≢ who → content_of self.new q ≡ content_of self.old q }
        ensures shown { self.new.shown ≡ self.old.shown }
        ensures chrome { self.new.chrome ≡ self.old.chrome }
        ensures err { OnErr result (self.new ≡ self.old) }
    {
        check(row, col, height, width, pixels)?;
        let (row, col) = (row as usize, col as usize);
        let (height, width) = (height as usize, width as usize);
        self.contents.draw(who, row, col, height, width, pixels);
        if is_shown(self.shown, Some(who)) {
            self.rows.draw(row, col, height, width, pixels);
        }
        Ok(())
    }

    /// Puts an instance's content on the screen, or blanks. What is shown already isn't written
    /// again.
    pub fn show(&mut self, active: Option<Instance>)
        requires { IfSome active (λ who. is_open self.old who ≡ true) }
        ensures shown { self.new.shown ≡ active }
        ensures contents { (q : Instance) → content_of self.new q ≡ content_of self.old q }
        ensures chrome { self.new.chrome ≡ self.old.chrome }
    {
        if is_shown(self.shown, active) {
            return;
        }
        self.shown = active;
        match active {
            Some(who) => self.rows.show(self.contents.pixels(who)),
            None => self.rows.hide(),
        }
    }

    /// Writes one of the chrome's rows: the text, and spaces up to the row's end.
    pub fn chrome(&mut self, row: u8, text: &[u8])
        requires row { row < 3 }
        requires fits { length text.now ≤ 80 }
        ensures row { chrome_at self.new row ≡ padded text.now }
        ensures rows { (r : ℕ) → r < 3 → r ≢ row → chrome_at self.new r ≡ chrome_at self.old r }
        ensures contents { (q : Instance) → content_of self.new q ≡ content_of self.old q }
        ensures shown { self.new.shown ≡ self.old.shown }
    {
        self.rows.write(row as usize, text);
    }

    /// Every cell of the screen, one row after the other.
    pub fn pixels(&self) -> &[u8]
        ensures count { length result.now ≡ 2000 }
        ensures pixels { (r c : ℕ) → r < 25 → c < 80 → slice_index result.now (80 * r + c)
            ≡ seen_at self.now r c }
    {
        self.rows.as_slice()
    }
}

fn is_shown(shown: Option<Instance>, active: Option<Instance>) -> bool
    ensures { IsTrue result ↔ (shown ≡ active) }
{
    shown == active
}

#[tactic(auto, unfolding(ibos_kinds::specs::Screens::is_region))]
fn is_region(row: u32, col: u32, height: u32, width: u32, pixels: &[u8]) -> bool
    ensures { result ≡ spec.is_region row col height width pixels.now }
{
    let (height, width) = (height as u64, width as u64);
    height > 0
        && width > 0
        && row as u64 + height <= CONTENT_ROWS as u64
        && col as u64 + width <= COLUMNS as u64
        && pixels.len() as u64 == height * width
}

// The first rule that a draw breaks.
#[tactic(auto, unfolding(ibos_kinds::specs::Screens::is_region, ibos_kinds::specs::Screens::draw_breaks))]
fn check(row: u32, col: u32, height: u32, width: u32, pixels: &[u8]) -> Result<(), Rule>
    ensures answer { result ≡ answer_of (draw_breaks row col height width pixels.now) }
    ensures rows { OnOk result (row + height ≤ content_rows) }
    ensures columns { OnOk result (col + width ≤ columns) }
    ensures count { OnOk result (length pixels.now ≡ height * width) }
{
    if !is_region(row, col, height, width, pixels) {
        return Err(Rule::P3);
    }
    if !are_pixels(pixels) {
        return Err(Rule::P4);
    }
    Ok(())
}

fn are_pixels(pixels: &[u8]) -> bool
    ensures { result ≡ list_all is_pixel pixels.now }
{
    pixels.iter().all(|&pixel| pixel >= 0x20 && pixel <= 0x7e)
}
