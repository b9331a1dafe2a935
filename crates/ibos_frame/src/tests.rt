ghost use Rattle.std.specs.Prelude.{◌≡◌, ◌≢◌, ◌<◌, true, IfOk};
ghost use Rattle.ibos_kinds.specs.declared.names.Instance.{Instance};
ghost use Rattle.ibos_frame.specs.ScreenStates.{content_of, is_open};

use super::*;
use ibos_kinds::{Instance, Memory, Rule};
use std::alloc::Global;
use std::process::Abort;
use std::test::Fail;

const FIRST: Instance = Instance { tab: 0, ord: 0 };

const SECOND: Instance = Instance { tab: 63, ord: 31 };

// A content's pixels as they are drawn: row after row.
const ABCDEF: &[u8] = b"abcdef";

fn assert_seen(rt: &impl Abort, screen: &Screen, row: usize, text: &[u8])
    requires { row < 25 }
{
    let seen = &screen.pixels()[80 * row..80 * row + 80];
    assert!(rt; seen.starts_with(text));
    assert!(rt; seen[text.len()..].iter().all(|&pixel| pixel == b' '));
}

fn with_first(alloc: Global) -> Result<Screen, Memory>
    ensures { IfOk result (λ screen. is_open screen FIRST ≡ true) }
{
    let mut screen = Screen::new(alloc)?;
    screen.begin(FIRST)?;
    screen.show(Some(FIRST));
    Ok(screen)
}

fn assert_draw(
    rt: &impl Abort,
    screen: &mut Screen,
    who: Instance,
    region: [u32; 4],
    pixels: &[u8],
    answer: Result<(), Rule>,
)
    requires { is_open screen.old who ≡ true }
    ensures open { is_open screen.new who ≡ true }
    ensures others { (q : Instance) → q ≢ who → content_of screen.new q ≡ content_of screen.old q }
{
    let [row, col, height, width] = region;
    assert_eq!(rt; screen.draw(who, row, col, height, width, pixels), answer);
}

#[test]
fn a_new_screen_is_blank(rt: HostRuntime) -> Result<(), Fail> {
    let screen = Screen::new(rt.alloc())?;
    assert_eq!(rt; screen.pixels(), [b' '; 2000].as_slice());
    Ok(())
}

#[test]
fn a_draw_is_within_the_content_and_printable(rt: HostRuntime) -> Result<(), Fail> {
    let alloc = rt.alloc();
    let mut screen = with_first(alloc)?;
    assert_draw(&rt, &mut screen, FIRST, [21, 79, 1, 1], b"x", Ok(()));
    assert_draw(&rt, &mut screen, FIRST, [4, 78, 1, 2], b" ~", Ok(()));
    assert_eq!(rt; screen.pixels()[80 * 7 + 79], b'~');
    assert_eq!(rt; screen.pixels()[1999], b'x');
    assert_eq!(rt;
        screen
            .pixels()
            .iter()
            .filter(|&&pixel| pixel != b' ')
            .count(),
        2
    );
    for (region, pixels, rule) in [
        ([22, 79, 1, 1], b"x".as_slice(), Rule::P3),
        ([21, 80, 1, 1], b"x".as_slice(), Rule::P3),
        ([21, 79, 2, 1], b"xx".as_slice(), Rule::P3),
        ([u32::MAX, 0, 1, 1], b"x".as_slice(), Rule::P3),
        ([0, 0, 0, 1], b"".as_slice(), Rule::P3),
        ([0, 0, 1, 0], b"".as_slice(), Rule::P3),
        ([0, 0, 2, 3], b"abcde".as_slice(), Rule::P3),
        ([0, 0, 1, 1], b"\n\n".as_slice(), Rule::P3),
        ([0, 0, 1, 1], b"\x1f".as_slice(), Rule::P4),
        ([0, 0, 1, 1], b"\x7f".as_slice(), Rule::P4),
    ] {
        let mut screen = with_first(alloc)?;
        assert_draw(&rt, &mut screen, FIRST, region, pixels, Err(rule));
        assert_eq!(rt; screen.pixels(), [b' '; 2000].as_slice());
    }
    Ok(())
}

#[test]
fn what_is_shown_is_seen(rt: HostRuntime) -> Result<(), Fail> {
    let mut screen = Screen::new(rt.alloc())?;
    screen.begin(FIRST)?;
    screen.begin(SECOND)?;
    screen.chrome(0, b"tab 0.0 page");
    screen.chrome(2, b"");
    screen.show(Some(FIRST));
    assert_draw(&rt, &mut screen, SECOND, [0, 0, 2, 3], ABCDEF, Ok(()));
    assert_seen(&rt, &screen, 3, b"");
    assert_draw(&rt, &mut screen, FIRST, [0, 1, 1, 2], b"hi", Ok(()));
    assert_seen(&rt, &screen, 3, b" hi");
    screen.show(Some(SECOND));
    assert_seen(&rt, &screen, 3, b"abc");
    assert_seen(&rt, &screen, 4, b"def");
    assert_draw(&rt, &mut screen, SECOND, [1, 1, 1, 1], b"E", Ok(()));
    assert_seen(&rt, &screen, 4, b"dEf");
    screen.end(SECOND);
    assert_seen(&rt, &screen, 0, b"tab 0.0 page");
    assert_seen(&rt, &screen, 4, b"");
    screen.show(Some(FIRST));
    assert_seen(&rt, &screen, 3, b" hi");
    screen.show(None);
    assert_seen(&rt, &screen, 3, b"");
    screen.chrome(0, b"no tab");
    assert_seen(&rt, &screen, 0, b"no tab");
    Ok(())
}
