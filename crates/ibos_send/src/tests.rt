//! Buffers that are added, ended, and closed with the others.
ghost use Rattle.std.specs.Prelude.{◌≢◌, None};
ghost use Rattle.ibos_pool.specs.Hands.{AreAtHand};
ghost use Rattle.ibos_send.specs.Sends.{held_in, homes_by};

use crate::{Sends, areas_are_fresh};
use ibos_kinds::{Instance, Rule};
use ibos_pool::{Mem, Pool};
use std::process::Abort;
use std::test::Fail;

const LAST: Instance = Instance { tab: 63, ord: 31 };

fn fill_end_and_close(rt: &impl Abort, sends: Sends, pool: &mut Pool, mem: &mut Mem)
    requires open { homes_by sends LAST ≢ None }
    requires hands { AreAtHand pool.old mem.old (held_in sends) }
{
    let mut sends = sends;
    assert_eq!(rt;
        sends.fill(LAST, 3, 2047, b"xy".as_slice(), mem),
        Err(Rule::N5)
    );
    sends.end(LAST, pool);
    sends.close(pool);
}

#[test]
fn buffers_are_added_ended_and_closed(rt: HostRuntime) -> Result<(), Fail> {
    let mut pool = Pool::new(rt.alloc())?;
    let mut mem = Mem::new(rt.alloc())?;
    pool.grow_instance()?;
    mem.grow_instance()?;
    areas_are_fresh();
    let mut sends = Sends::new(rt.alloc())?;
    match sends.begin(LAST, 1, &mut pool) {
        Ok(()) => fill_end_and_close(&rt, sends, &mut pool, &mut mem),
        Err(_) => sends.close(&mut pool),
    }
    Ok(())
}
