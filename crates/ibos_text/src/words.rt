// Words of a line.
ghost use Rattle.std.specs.Prelude.{◌≡◌, [], ◌∷◌, true, false, MatchOption};
ghost use Rattle.ibos_text.specs.Words.{after_spaces, words_of, has_word, first_word, after_word};

use crate::parts::len_before;

/// What follows the spaces at the front.
pub fn skip_spaces(line: &[u8]) -> &[u8]
    ensures rest { result.now ≡ after_spaces line.now }
{
    let mut rest = line;
    while let [b' ', after @ ..] = rest {
        rest = after;
    }
    rest
}

/// The first word of a line, and the rest after it. None exactly where the line has no word.
pub fn next_word(line: &[u8]) -> Option<(&[u8], &[u8])>
    ensures words { MatchOption result (words_of line.now ≡ [])
        (λ found. words_of line.now ≡ found.0.now ∷ words_of found.1.now) }
    ensures found { MatchOption result (has_word line.now ≡ false) (λ _. has_word line.now ≡ true) }
    ensures first { MatchOption result (first_word line.now ≡ [])
        (λ found. found.0.now ≡ first_word line.now) }
    ensures rest { MatchOption result (after_word line.now ≡ [])
        (λ found. found.1.now ≡ after_word line.now) }
{
    let text = skip_spaces(line);
    if text.is_empty() {
        return None;
    }
    Some(text.split_at(len_before(text, b' ')))
}
