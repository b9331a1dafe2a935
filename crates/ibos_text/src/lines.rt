// Lines of a text.
ghost use Rattle.std.specs.Prelude.{◌≡◌, ◌<◌, [], ◌∷◌, length, MatchOption, IfSome};
ghost use Rattle.ibos_text.specs.Lines as spec;
ghost use Rattle.ibos_text.specs.Lines.{lines_of};

use memchr::memchr;

/// The first line of a text, and what follows the line's end: 0x0A, 0x0D 0x0A, or that of the text,
/// before which one 0x0D counts too. None exactly where the text is empty.
pub fn next_line(text: &[u8]) -> Option<(&[u8], &[u8])>
    ensures first { MatchOption result (text.now ≡ [])
        (λ found. lines_of text.now ≡ found.0.now ∷ lines_of found.1.now) }
    ensures shorter { IfSome result (λ found. length found.1.now < length text.now) }
{
    if text.is_empty() {
        return None;
    }
    match memchr(b'\n', text) {
        Some(len) => Some((without_return(&text[..len]), &text[len + 1..])),
        None => Some((without_return(text), &[])),
    }
}

fn without_return(piece: &[u8]) -> &[u8]
    ensures { result.now ≡ spec.without_return piece.now }
{
    if let [front @ .., b'\r'] = piece {
        front
    } else {
        piece
    }
}
