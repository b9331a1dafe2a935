use super::*;
use ibos_kinds::{Cabinet, Failed, Sink};
use std::test::Fail;

fn bytes(alloc: Global, text: &str) -> Result<Bytes, Memory> {
    let mut bytes = Bytes::new(alloc);
    bytes.push_slice(text.as_bytes())?;
    Ok(bytes)
}

#[test]
fn files_that_are_not_there_are_failed_reads(rt: HostRuntime) -> Result<(), Fail> {
    let alloc = rt.alloc();
    let mut cabinet = FileCabinet::new(&rt);
    let mut piece = [0; 4];
    for name in ["no-such-file", "", "."] {
        let name = bytes(alloc, name)?;
        assert_eq!(rt; cabinet.read_at(&name, 0, &mut piece), Err(Failed::Failed));
    }
    let mut no_text = Bytes::new(alloc);
    no_text.push_slice(b"\xff")?;
    assert_eq!(rt;
        cabinet.read_at(&no_text, 0, &mut piece),
        Err(Failed::Failed)
    );
    Ok(())
}

#[test]
fn standard_output_takes_bytes(rt: HostRuntime) -> Result<(), Fail> {
    let mut sink = StdoutSink::new(&rt);
    assert_eq!(rt; sink.write(b"\n"), Ok(1));
    assert_eq!(rt; sink.write(b""), Ok(0));
    Ok(())
}
