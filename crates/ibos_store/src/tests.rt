use super::*;
use ibos_kinds::Instance;
use std::process::Abort;
use std::test::Fail;

const A: &[u8] = b"http://a.example";

#[test]
fn calls_find_their_memory(rt: HostRuntime) -> Result<(), Fail> {
    let who = Instance { tab: 1, ord: 2 };
    let mut store = Store::new(rt.alloc());
    assert_eq!(rt; store.begin(who), Ok(()));
    assert_eq!(rt; store.put(A, b"key", &[1, 2]), Ok(1));
    assert_eq!(rt; store.ask(who, b"key"), Ok(0));
    let bytes = store.answer(rt.alloc(), who, A, 0, A, b"key", 1)?;
    assert_eq!(rt; bytes.as_slice(), [1, 2].as_slice());
    Ok(())
}
