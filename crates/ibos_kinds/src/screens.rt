//! The sizes of the screen, in cells. Three rows of chrome stand over the rows of a page's content.

/// A row of the screen has so many cells.
pub const COLUMNS: usize = 80;

/// The chrome has so many rows, the first of the screen.
pub const CHROME_ROWS: usize = 3;

/// A page's content has so many rows, those behind the chrome's.
pub const CONTENT_ROWS: usize = 22;

/// The screen has so many rows.
pub const SCREEN_ROWS: usize = CHROME_ROWS + CONTENT_ROWS;
