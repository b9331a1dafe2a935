// What one instance has drawn.
ghost use Rattle.std.specs.Prelude.{◌≡◌, ℕ, ◌+◌, ◌*◌, ◌<◌, ◌≤◌, length, replicate, slice_index};
ghost use Rattle.std.specs.Prelude.{IfOk};
ghost use Rattle.ibos_kinds.specs.Screens.{content_rows, columns, space, cell_after};

use ibos_kinds::{COLUMNS, CONTENT_ROWS, Memory};
use std::alloc::Global;
use std::marker::Model;

pub(crate) const SPACE: u8 = b' ';

/// 22 rows of 80 pixels, one after the other.
#[derive(Drop)]
pub(crate) struct Content {
    pixels: Vec<u8>,
}

impl Model for Content {
    ghost use Rattle.std.specs.Prelude.{◌≡◌, ℕ, List, length};

    ghost Value = { List ℕ };

    ghost view = { λ c. c.pixels.items };

    ghost invariant = { λ c. length c.pixels.items ≡ 1760 };
}

impl Content {
    /// All spaces.
    pub(crate) fn new(alloc: Global) -> Result<Content, Memory>
        ensures { IfOk result (λ content. content ≡ replicate 1760 space) }
    {
        Ok(Content {
            pixels: spaces(alloc, CONTENT_ROWS * COLUMNS)?,
        })
    }

    /// The pixels.
    pub(crate) fn pixels(&self) -> &[u8]
        ensures value { result.now ≡ self.now }
        ensures count { length result.now ≡ 1760 }
    {
        self.pixels.as_slice()
    }

    /// Writes a region, row by row.
    pub(crate) fn draw(
        &mut self,
        row: usize,
        col: usize,
        height: usize,
        width: usize,
        pixels: &[u8],
    )
        requires rows { row + height ≤ content_rows }
        requires columns { col + width ≤ columns }
        requires count { length pixels.now ≡ height * width }
        ensures drawn { (r c : ℕ) → c < 80 → slice_index self.new (80 * r + c)
            ≡ cell_after row col height width pixels.now r c (slice_index self.old (80 * r + c)) }
        ensures size { length self.new ≡ 1760 }
    {
        paint(self.pixels.as_mut_slice(), row, col, height, width, pixels);
    }
}

/// So many spaces.
pub(crate) fn spaces(alloc: Global, count: usize) -> Result<Vec<u8>, Memory>
    ensures { IfOk result (λ spaces. spaces.items ≡ replicate count space) }
{
    let mut spaces = Vec::new(alloc);
    spaces.resize(count, SPACE)?;
    Ok(spaces)
}

/// Writes a region of 22 rows of 80 pixels.
pub(crate) fn paint(
    target: &mut [u8],
    row: usize,
    col: usize,
    height: usize,
    width: usize,
    pixels: &[u8],
)
    requires size { length target.old ≡ 1760 }
    requires rows { row + height ≤ content_rows }
    requires columns { col + width ≤ columns }
    requires count { length pixels.now ≡ height * width }
    ensures { (r c : ℕ) → c < 80 → slice_index target.new (80 * r + c)
        ≡ cell_after row col height width pixels.now r c (slice_index target.old (80 * r + c)) }
{
    'lines: for k in 0..height {
        let at = (row + k) * COLUMNS + col;
        target[at..at + width].copy_from_slice(&pixels[k * width..(k + 1) * width]);
    }
}
