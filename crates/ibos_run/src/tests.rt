use crate::Status;
use std::test::Fail;

#[test]
fn each_status_has_its_exit_number(rt: HostRuntime) -> Result<(), Fail> {
    for (status, number) in [
        (Status::Done, 0u8),
        (Status::Usage, 2),
        (Status::Refused, 3),
        (Status::ReadFault, 4),
        (Status::WriteFault, 5),
        (Status::Memory, 6),
    ] {
        assert_eq!(rt; status.exit_number(), number);
    }
    Ok(())
}
