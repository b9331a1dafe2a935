use super::*;
use ibos_kinds::Rule;
use std::process::Abort;
use std::test::Fail;

const A: &[u8] = b"http://a.example";

const B: &[u8] = b"http://a.example:8080";

fn set_all(rt: &impl Abort, jars: &mut Jars, cases: &[(&[u8], Result<(), CookieFault>)]) {
    for (text, wanted) in cases {
        assert_eq!(rt; jars.set(A, text), *wanted);
    }
}

#[test]
fn names_and_values_are_judged_at_their_edges(rt: HostRuntime) -> Result<(), Fail> {
    let mut jars = Jars::new(rt.alloc());
    let name = Err(CookieFault::Denied(Rule::C1));
    let value = Err(CookieFault::Denied(Rule::C2));
    set_all(
        &rt,
        &mut jars,
        &[
            (b"a b=1", name),
            (b"=1", name),
            (b"a", name),
            (b"a,b=c,d", name),
            (b"a=b,c", value),
            (b"a=b ", value),
            (b"a=\"", value),
            (b"a=\"\"\"", value),
            (b"a=\"\"", Ok(())),
            (b"b=\"x\"", Ok(())),
            (b"!#$%&'*+-.^_`|~09azAZ=!#+-:<[]~", Ok(())),
            (b"c=", Ok(())),
            (b"b=d=e", Ok(())),
        ],
    );
    let text = jars.text(rt.alloc(), A)?;
    assert_eq!(rt;
        text.as_slice(),
        b"a=\"\"; b=d=e; !#$%&'*+-.^_`|~09azAZ=!#+-:<[]~; c=".as_slice()
    );
    assert!(rt; jars.text(rt.alloc(), B)?.is_empty());
    Ok(())
}

#[test]
fn a_jar_is_full_at_its_limits(rt: HostRuntime) -> Result<(), Fail> {
    let full = Err(CookieFault::Denied(Rule::C3));
    let mut jars = Jars::new(rt.alloc());
    for name in b'a'..b'a' + 20 {
        assert_eq!(rt; jars.set(A, &[name, b'=', b'1']), Ok(()));
    }
    set_all(&rt, &mut jars, &[(b"z=1", full), (b"c=2", Ok(()))]);
    assert_eq!(rt; jars.set(B, b"z=1"), Ok(()));

    let mut long = [b'x'; 4097];
    long[1] = b'=';
    let mut jars = Jars::new(rt.alloc());
    assert_eq!(rt; jars.set(A, &long), Ok(()));
    set_all(
        &rt,
        &mut jars,
        &[(b"y=", full), (b"x=", Ok(())), (b"y=", Ok(()))],
    );
    assert_eq!(rt; jars.set(A, &long), full);
    Ok(())
}
