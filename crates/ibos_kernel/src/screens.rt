// What the user sees, and what pages draw.
ghost use Rattle.std.specs.Prelude.{◌≡◌, [], OnOk, IfOk};
ghost use Rattle.ibos_frame.specs.ScreenStates.{seen_at};
ghost use Rattle.ibos_model.specs.Screen.{seen_row, trimmed};
ghost use Rattle.ibos_model.specs.Outcomes.{look_outcome};

use ibos_frame::Screen;
use ibos_kinds::{Bytes, COLUMNS, Head, Item, Memory, Outcome, SCREEN_ROWS};
use std::alloc::Global;

/// The user looks at the screen: each row without the spaces at its end.
pub fn look(screen: &Screen, alloc: Global, out: &mut Outcome) -> Result<(), Memory>
    requires head { out.old.head ≡ Head.Ok }
    requires items { out.old.items ≡ [] }
    ensures outcome { OnOk result (out.new ≡ look_outcome (seen_row (seen_at screen.now))) }
{
    let pixels = screen.pixels();
    'rows: for row in 0..SCREEN_ROWS {
        let text = row_text(alloc, &pixels[COLUMNS * row..COLUMNS * row + COLUMNS])?;
        out.push(Item::RowIs {
            row: row as u8,
            text,
        })?;
    }
    Ok(())
}

fn row_text(alloc: Global, cells: &[u8]) -> Result<Bytes, Memory>
    ensures { IfOk result (λ text. text ≡ trimmed cells.now) }
{
    let text = Bytes::from_slice(alloc, trim(cells))?;
    Ok(text)
}

// A row without the spaces at its end.
fn trim(cells: &[u8]) -> &[u8]
    ensures { result.now ≡ trimmed cells.now }
{
    let mut len = cells.len();
    'spaces: while len > 0 && cells[len - 1] == b' ' {
        len -= 1;
    }
    &cells[..len]
}
