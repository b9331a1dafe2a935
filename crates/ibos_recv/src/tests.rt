//! An inbox that is added, ended, and closed with the others.
ghost use Rattle.std.specs.Prelude.{◌≢◌, None};
ghost use Rattle.ibos_recv.specs.Inboxes.{AreHeld, held_in, inbox_by};

use crate::{Inboxes, fresh_areas};
use ibos_kinds::{Instance, Rule};
use ibos_pool::{Mem, Pool};
use std::process::Abort;
use std::test::Fail;

const LAST: Instance = Instance { tab: 63, ord: 31 };

fn end_and_close(rt: &impl Abort, inboxes: Inboxes, pool: &mut Pool)
    requires open { inbox_by inboxes LAST ≢ None }
    requires hands { AreHeld pool.old (held_in inboxes) }
{
    let mut inboxes = inboxes;
    assert_eq!(rt; inboxes.unread(LAST), 0);
    assert_eq!(rt; inboxes.done(LAST), Err(Rule::N6));
    inboxes.end(LAST, pool);
    inboxes.close(pool);
}

#[test]
fn inboxes_are_added_ended_and_closed(rt: HostRuntime) -> Result<(), Fail> {
    let mut pool = Pool::new(rt.alloc())?;
    let mut mem = Mem::new(rt.alloc())?;
    pool.grow_instance()?;
    mem.grow_instance()?;
    fresh_areas();
    let mut inboxes = Inboxes::new(rt.alloc())?;
    match inboxes.begin(LAST, 1, &mut pool) {
        Ok(()) => end_and_close(&rt, inboxes, &mut pool),
        Err(_) => inboxes.close(&mut pool),
    }
    Ok(())
}
