ghost use Rattle.std.specs.Prelude.{◌≡◌, ◌≤◌, false};

use super::*;
use ibos_kinds::{Key, Rule};
use std::process::Abort;
use std::test::Fail;

#[test]
fn a_new_entry_is_empty(rt: HostRuntime) -> Result<(), Fail> {
    let focus = Focus::new();
    assert_eq!(rt; focus.spot(), Spot::Entry);
    assert!(rt; focus.entry().is_empty());
    Ok(())
}

#[test]
fn keys_edit_the_entry_or_go_to_the_page(rt: HostRuntime) -> Result<(), Fail> {
    let mut focus = Focus::new();
    assert_eq!(rt; focus.key(Key::Back, false), Ok(KeyDone::Edited));
    assert_eq!(rt; focus.key(Key::Byte(b'h'), false), Ok(KeyDone::Edited));
    assert_eq!(rt; focus.key(Key::Byte(b'i'), false), Ok(KeyDone::Edited));
    assert_eq!(rt; focus.key(Key::Enter, false), Err(Rule::U10));
    assert_eq!(rt; focus.key(Key::Enter, true), Ok(KeyDone::Enter));
    assert_eq!(rt; focus.entry(), b"hi".as_slice());
    assert_eq!(rt; focus.key(Key::Back, true), Ok(KeyDone::Edited));
    assert_eq!(rt; focus.entry(), b"h".as_slice());
    focus.to(Spot::Content);
    assert_eq!(rt; focus.key(Key::Byte(b'~'), true), Ok(KeyDone::ToPage(b'~')));
    assert_eq!(rt; focus.key(Key::Enter, true), Ok(KeyDone::ToPage(0x0a)));
    assert_eq!(rt; focus.key(Key::Back, true), Ok(KeyDone::ToPage(0x08)));
    assert_eq!(rt; focus.entry(), b"h".as_slice());
    focus.clear();
    assert!(rt; focus.entry().is_empty());
    assert_eq!(rt; focus.spot(), Spot::Content);
    Ok(())
}

#[test]
fn the_entry_holds_1024_bytes(rt: HostRuntime) -> Result<(), Fail> {
    let mut focus = Focus::new();
    for _typed in 0..1024 {
        assert_eq!(rt; focus.key(Key::Byte(b'a'), true), Ok(KeyDone::Edited));
    }
    assert_eq!(rt; focus.key(Key::Byte(b'b'), true), Err(Rule::U11));
    assert_eq!(rt; focus.entry(), [b'a'; 1024].as_slice());
    assert_eq!(rt; focus.key(Key::Back, true), Ok(KeyDone::Edited));
    assert_eq!(rt; focus.key(Key::Byte(b'b'), true), Ok(KeyDone::Edited));
    Ok(())
}

#[test]
fn clicks_fall_on_the_chrome_the_entry_or_the_content(rt: HostRuntime) -> Result<(), Fail> {
    let mut focus = Focus::new();
    for (row, col, active, done, spot) in [
        (0u32, 0u32, true, Ok(ClickDone::Chrome), Spot::Entry),
        (3, 0, false, Err(Rule::U10), Spot::Entry),
        (
            3,
            79,
            true,
            Ok(ClickDone::Content { row: 0, col: 79 }),
            Spot::Content,
        ),
        (1, 79, true, Ok(ClickDone::Chrome), Spot::Content),
        (25, 0, true, Err(Rule::U12), Spot::Content),
        (25, 80, false, Err(Rule::U12), Spot::Content),
        (24, 80, true, Err(Rule::U12), Spot::Content),
        (2, 80, true, Err(Rule::U12), Spot::Content),
        (2, 0, false, Ok(ClickDone::Entry), Spot::Entry),
        (
            24,
            0,
            true,
            Ok(ClickDone::Content { row: 21, col: 0 }),
            Spot::Content,
        ),
    ] {
        assert_eq!(rt; focus.click(row, col, active), done);
        assert_eq!(rt; focus.spot(), spot);
    }
    Ok(())
}
