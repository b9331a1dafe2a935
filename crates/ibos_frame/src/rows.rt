// The rows that are seen.
ghost use Rattle.std.specs.Prelude.{◌≡◌, ◌≢◌, ℕ, ◌+◌, ◌*◌, ◌<◌, ◌≤◌, ◌++◌, length, take, drop};
ghost use Rattle.std.specs.Prelude.{replicate, slice_index, IfOk};
ghost use Rattle.ibos_kinds.specs.Screens.{columns, content_rows, cell_after, padded, space};
ghost use Rattle.ibos_frame.specs.ScreenStates.{line_of};

use crate::content::{SPACE, paint, spaces};
use ibos_kinds::{CHROME_ROWS, COLUMNS, Memory, SCREEN_ROWS};
use std::alloc::Global;
use std::marker::Model;

const SCREEN: usize = SCREEN_ROWS * COLUMNS;

const CHROME: usize = CHROME_ROWS * COLUMNS;

/// Three rows of chrome over 22 of content, 80 pixels each, one after the other.
#[derive(Drop)]
pub(crate) struct Rows {
    pixels: Vec<u8>,
}

impl Model for Rows {
    ghost use Rattle.std.specs.Prelude.{◌≡◌, length, take, drop};
    ghost use Rattle.ibos_frame.specs.ScreenStates.{Seen};

    ghost Value = { Seen };

    ghost view = { λ r.
        record { chrome = take 240 r.pixels.items; body = drop 240 r.pixels.items } };

    ghost invariant = { λ r. length r.pixels.items ≡ 2000 };
}

impl Rows {
    /// All spaces.
    pub(crate) fn new(alloc: Global) -> Result<Rows, Memory>
        ensures chrome { IfOk result (λ rows. rows.chrome ≡ replicate 240 space) }
        ensures body { IfOk result (λ rows. rows.body ≡ replicate 1760 space) }
    {
        Ok(Rows {
            pixels: spaces(alloc, SCREEN)?,
        })
    }

    /// The pixels, row by row.
    pub(crate) fn as_slice(&self) -> &[u8]
        ensures value { result.now ≡ self.now.chrome ++ self.now.body }
        ensures chrome { length self.now.chrome ≡ 240 }
        ensures body { length self.now.body ≡ 1760 }
    {
        self.pixels.as_slice()
    }

    /// Makes the rows below the chrome a content.
    pub(crate) fn show(&mut self, content: &[u8])
        requires { length content.now ≡ 1760 }
        ensures { self.new ≡ record self.old { body = content.now } }
    {
        write_body(self.pixels.as_mut_slice(), content);
    }

    /// Makes the rows below the chrome spaces.
    pub(crate) fn hide(&mut self)
        ensures { self.new ≡ record self.old { body = replicate 1760 space } }
    {
        clear_body(self.pixels.as_mut_slice());
    }

    /// Writes a region of the rows below the chrome, row by row, and no other cell.
    pub(crate) fn draw(
        &mut self,
        row: usize,
        col: usize,
        height: usize,
        width: usize,
        pixels: &[u8],
    )
        requires rows { row + height ≤ content_rows }
        requires columns { col + width ≤ columns }
        requires count { length pixels.now ≡ height * width }
        ensures drawn { (r c : ℕ) → c < 80 → slice_index self.new.body (80 * r + c)
            ≡ cell_after row col height width pixels.now r c
            (slice_index self.old.body (80 * r + c)) }
        ensures size { length self.new.body ≡ 1760 }
        ensures chrome { self.new.chrome ≡ self.old.chrome }
    {
        paint_body(self.pixels.as_mut_slice(), row, col, height, width, pixels);
    }

    /// Makes a row of the chrome a text, padded by spaces.
    pub(crate) fn write(&mut self, row: usize, text: &[u8])
        requires row { row < 3 }
        requires fits { length text.now ≤ columns }
        ensures row { line_of self.new.chrome row ≡ padded text.now }
        ensures rows { (r : ℕ) → r < 3 → r ≢ row → line_of self.new.chrome r
            ≡ line_of self.old.chrome r }
        ensures body { self.new.body ≡ self.old.body }
    {
        write_row(self.pixels.as_mut_slice(), row, text);
    }
}

fn write_body(pixels: &mut [u8], content: &[u8])
    requires screen { length pixels.old ≡ 2000 }
    requires content { length content.now ≡ 1760 }
    ensures chrome { take 240 pixels.new ≡ take 240 pixels.old }
    ensures body { drop 240 pixels.new ≡ content.now }
{
    pixels[CHROME..].copy_from_slice(content);
}

fn paint_body(screen: &mut [u8], row: usize, col: usize, height: usize, width: usize, pixels: &[u8])
    requires screen { length screen.old ≡ 2000 }
    requires rows { row + height ≤ content_rows }
    requires columns { col + width ≤ columns }
    requires count { length pixels.now ≡ height * width }
    ensures chrome { take 240 screen.new ≡ take 240 screen.old }
    ensures body { (r c : ℕ) → c < 80 → slice_index (drop 240 screen.new) (80 * r + c)
        ≡ cell_after row col height width pixels.now r c
        (slice_index (drop 240 screen.old) (80 * r + c)) }
    ensures size { length (drop 240 screen.new) ≡ 1760 }
{
    paint(&mut screen[CHROME..], row, col, height, width, pixels);
}

fn clear_body(pixels: &mut [u8])
    requires { length pixels.old ≡ 2000 }
    ensures chrome { take 240 pixels.new ≡ take 240 pixels.old }
    ensures body { drop 240 pixels.new ≡ replicate 1760 space }
{
    pixels[CHROME..].fill(SPACE);
}

fn write_row(pixels: &mut [u8], row: usize, text: &[u8])
    requires screen { length pixels.old ≡ 2000 }
    requires row { row < 3 }
    requires fits { length text.now ≤ columns }
    ensures row { line_of (take 240 pixels.new) row ≡ padded text.now }
    ensures rows { (r : ℕ) → r < 3 → r ≢ row → line_of (take 240 pixels.new) r
        ≡ line_of (take 240 pixels.old) r }
    ensures body { drop 240 pixels.new ≡ drop 240 pixels.old }
{
    let at = row * COLUMNS;
    write_line(&mut pixels[at..at + COLUMNS], text);
}

// Makes a row a text, padded by spaces.
fn write_line(line: &mut [u8], text: &[u8])
    requires size { length line.old ≡ columns }
    requires fits { length text.now ≤ columns }
    ensures { line.new ≡ padded text.now }
{
    line[..text.len()].copy_from_slice(text);
    line[text.len()..].fill(SPACE);
}
