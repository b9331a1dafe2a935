// Whether bytes are printable.
ghost use Rattle.std.specs.Prelude.{◌≡◌, ◌<◌, length};
ghost use Rattle.std.specs.List.{list_all};
ghost use Rattle.ibos_fields.specs.Printable.{is_printable};

use crate::lanes::is_printable_block;

/// Whether each byte of a text is printable.
pub fn are_printable(text: &[u8]) -> bool
    ensures { result ≡ list_all is_printable text.now }
{
    if text.len() < 16 {
        return are_few_printable(text);
    }
    let mut at = 0;
    while text.len() - at >= 16 {
        if !is_printable_block(&text[at..]) {
            return false;
        }
        at += 16;
    }
    // Some of the last 16 bytes were looked at already.
    is_printable_block(&text[text.len() - 16..])
}

fn are_few_printable(text: &[u8]) -> bool
    requires few { length text.now < 16 }
    ensures { result ≡ list_all is_printable text.now }
{
    let mut all = true;
    for b in text {
        all = all & (*b >= b' ') & (*b <= b'~');
    }
    all
}
