//! The mediator over a model of the device: registers, a ring that is filled, drained and wrapped,
//! stale handles, both rings at once, and the end with buffers in both.
ghost use Rattle.std.specs.Prelude.{◌≡◌, ◌<◌};

use ibos_device::Model8254x;
use ibos_kinds::{Handle, Rule, Verdict};
use ibos_mediate::{
    Counts, Mediator, arrivals_keep_the_relation, gifts_keep_the_relation,
    other_changes_keep_the_relation, other_names_keep_the_relation, parts_keep_the_whole,
    relation_begins, transmissions_keep_the_relation,
};
use ibos_nic::{Nic, Reg};
use ibos_pool::{Mem, Name, Pool};
use std::alloc::Global;
use std::marker::Model;
use std::process::Abort;
use std::test::Fail;

/// A mediator with a device, a memory and a pool of its own, which agree at all times.
struct Desk {
    mediator: Mediator,
    pool: Pool,
    mem: Mem,
    nic: Model8254x,
}

impl Model for Desk {
    ghost use Rattle.ibos_device.specs.Cards.{regs_of};
    ghost use Rattle.ibos_mediate.specs.Mediated.{Mediated};
    ghost use Rattle.ibos_mediate.specs.Relation.{Mediates};

    ghost Value = { Mediated };

    ghost view = { λ d. d.mediator };

    ghost invariant = { λ d. Mediates d.mediator d.mem (regs_of d.nic) d.pool };
}

impl Desk {
    fn new(rt: &impl Abort, alloc: Global) -> Result<Desk, Fail> {
        relation_begins();
        other_changes_keep_the_relation();
        other_names_keep_the_relation();
        let mut pool = Pool::new(alloc)?;
        let mut mem = Mem::new(alloc)?;
        pool.grow_instance()?;
        mem.grow_instance()?;
        let mut nic = Model8254x::new();
        nic.write(Reg::Ral0, 0x0000_0002, &mem);
        nic.write(Reg::Rah0, 0x8000_0100, &mem);
        let mediator = Mediator::new(alloc).expect(rt, "memory");
        Ok(Desk {
            mediator,
            pool,
            mem,
            nic,
        })
    }

    fn write(&mut self, offset: u32, value: u32) -> Result<(), Rule> {
        self.mediator.write(offset, value, &mut self.nic, &self.mem)
    }

    fn read(&mut self, offset: u32) -> Result<u32, Rule> {
        self.mediator.read(offset, &mut self.nic)
    }

    fn post(&mut self, rt: &impl Abort, slot: u32, name: u8, turn: u32) -> Result<(), Rule> {
        parts_keep_the_whole();
        assert!(rt; self.mediator.rx_counts().posted < 0x8000_0000);
        let handle = Handle { name, turn };
        self.mediator
            .rx_post(slot, handle, &mut self.pool, &mut self.mem)
    }

    // Posts a buffer of the instance's at the next slot.
    fn send(&mut self, rt: &impl Abort, index: u8, len: u16) -> Result<(), Rule> {
        other_names_keep_the_relation();
        parts_keep_the_whole();
        let posted = self.mediator.tx_counts().posted;
        assert!(rt; posted < 0x8000_0000 && index < 4 && 42 <= len && len <= 1514);
        self.mediator.tx_may(posted % 64)?;
        let name = Name { area: 1, index };
        assert!(rt; 1 < self.pool.areas());
        let loan = self.pool.take(name).expect(rt, "not in the ring");
        assert!(rt; self.mem.is_kept(&loan));
        self.mediator.tx_post(loan, len, &mut self.mem);
        Ok(())
    }

    fn arrive(&mut self, rt: &impl Abort, alloc: Global, frame: &[u8]) -> Verdict {
        arrivals_keep_the_relation();
        self.nic
            .arrive(alloc, frame, &mut self.mem)
            .expect(rt, "memory")
    }

    fn transmit(&mut self, rt: &impl Abort, alloc: Global) -> bool {
        transmissions_keep_the_relation();
        self.nic.transmit(alloc, &mut self.mem).expect(rt, "memory")
    }

    // The handle and the length of the oldest frame that was heard, whose buffer is given to the
    // pool.
    fn take(&mut self) -> Option<(Handle, u16)> {
        parts_keep_the_whole();
        gifts_keep_the_relation();
        match self.mediator.rx_take(&mut self.pool, &mut self.mem) {
            Some((handle, loan, len)) => {
                self.pool.give(loan);
                Some((handle, len))
            }
            None => None,
        }
    }

    // The oldest buffer that was sent, which is given to the pool.
    fn sent(&mut self) -> Option<Name> {
        parts_keep_the_whole();
        gifts_keep_the_relation();
        match self.mediator.tx_take(&mut self.mem) {
            Some(loan) => {
                let name = loan.name();
                self.pool.give(loan);
                Some(name)
            }
            None => None,
        }
    }

    // Ends the mediator: how many names are taken and places lent then.
    fn close(self) -> (Pool, Mem) {
        let Desk {
            mediator,
            mut pool,
            mut mem,
            nic: _nic,
        } = self;
        mediator.close(&mut pool, &mut mem);
        (pool, mem)
    }
}

const FRAME: &[u8; 57] =
    b"\x02\0\0\0\0\x01\x02\0\0\0\0\xfe\x08\0\x45\0\0\x2b\0\x01\x40\0\x40\x06\x4e\x8d\xc6\x33\x64\
      \x01\xc0\0\x02\x0a\0\x50\x80\0\0\0\0\x01\0\0\0\x01\x50\x18\x20\0\x5e\xd5\0\0abc";

#[test]
fn registers_are_judged_in_order(rt: HostRuntime) -> Result<(), Fail> {
    let mut desk = Desk::new(&rt, rt.alloc())?;
    for (offset, value, answer) in [
        (0x2800, 0x0010_1000, Err(Rule::M2)),
        (0x2800, 0x0010_0000, Ok(())),
        (0x0100, 0x0400_8002, Err(Rule::M8)),
        (0x2808, 0x400, Ok(())),
        (0x0100, 0, Ok(())),
        (0x0100, 0x0400_8002, Ok(())),
        (0x0100, 0x0400_8002, Ok(())),
        (0x2800, 0x0010_0000, Err(Rule::M3)),
        (0x2810, 0, Err(Rule::M3)),
        (0x0100, 0, Err(Rule::M3)),
        (0x0100, 1, Err(Rule::M2)),
        (0x0000, 0x0400_0000, Err(Rule::M1)),
        (0x0004, 0, Err(Rule::M1)),
        (0x2818, 64, Err(Rule::M2)),
        (0x2818, 1, Err(Rule::M4)),
        (0x3818, 1, Err(Rule::M8)),
        (0x0400, 0x0004_00fa, Err(Rule::M2)),
        (0x0400, 0x0004_00f2, Err(Rule::M8)),
        (0x00d0, 0x0002_0000, Err(Rule::M2)),
        (0x00d0, 0x0001_00c1, Ok(())),
        (0x00d8, 0x0001_0040, Ok(())),
    ] {
        assert!(rt; desk.write(offset, value) == answer, "{offset} {value}");
    }
    for (offset, answer) in [
        (0x0000, Ok(0)),
        (0x0008, Ok(3)),
        (0x00d0, Ok(0x81)),
        (0x00d8, Err(Rule::M9)),
        (0x0004, Err(Rule::M9)),
        (0x0100, Ok(0x0400_8002)),
        (0x5400, Ok(0x0000_0002)),
    ] {
        assert!(rt; desk.read(offset) == answer, "{offset}");
    }
    let (_pool, _mem) = desk.close();
    Ok(())
}

fn count_heard(rt: &impl Abort, alloc: Global, desk: &mut Desk, frames: u32) -> u32 {
    let mut heard = 0u32;
    for _ in 0..frames {
        if desk.arrive(rt, alloc, FRAME) == Verdict::Heard {
            heard = heard.wrapping_add(1);
        }
    }
    heard
}

#[test]
fn the_receive_ring_fills_drains_and_wraps(rt: HostRuntime) -> Result<(), Fail> {
    let mut desk = Desk::new(&rt, rt.alloc())?;
    assert!(rt; desk.post(&rt, 0, 5, 0) == Err(Rule::M8));
    assert!(rt; desk.write(0x2800, 0x0010_0000) == Ok(()));
    assert!(rt; desk.write(0x2808, 0x400) == Ok(()));
    for (slot, name, turn, rule) in [
        (1, 5, 0, Rule::M5),
        (0, 64, 0, Rule::M6),
        (0, 5, 1, Rule::M6),
    ] {
        assert!(rt; desk.post(&rt, slot, name, turn) == Err(rule));
    }
    assert!(rt; desk.take().is_none(), "no frame came");
    for index in 0..63 {
        assert!(rt; desk.post(&rt, index, index as u8, 0) == Ok(()));
    }
    assert!(rt; desk.write(0x2818, 0x3f) == Ok(()));
    assert_eq!(rt; count_heard(&rt, rt.alloc(), &mut desk, 1), 0);
    assert!(rt; desk.write(0x0100, 0x0400_8002) == Ok(()));
    assert!(rt; desk.post(&rt, 63, 63, 0) == Err(Rule::M7));
    assert_eq!(rt; count_heard(&rt, rt.alloc(), &mut desk, 64), 63);
    assert!(rt; desk.read(0x4010) == Ok(1));
    assert!(rt; desk.read(0x4010) == Ok(0));
    for index in 0..63 {
        let handle = Handle {
            name: index,
            turn: 1,
        };
        assert!(rt; desk.take() == Some((handle, 57)));
    }
    assert!(rt; desk.take().is_none());
    assert!(rt;
        desk.post(&rt, 63, 0, 0) == Err(Rule::M6),
        "the handle is stale"
    );
    assert!(rt; desk.post(&rt, 63, 0, 1) == Ok(()));
    assert!(rt; desk.write(0x2818, 0) == Ok(()));
    assert_eq!(rt; count_heard(&rt, rt.alloc(), &mut desk, 2), 1);
    assert_eq!(rt; desk.mediator.turn(0), 1);
    assert!(rt; desk.take() == Some((Handle { name: 0, turn: 2 }, 57)));
    let counts = Counts {
        posted: 64,
        rung: 64,
        taken: 64,
    };
    assert!(rt; desk.mediator.rx_counts() == counts);
    let (_pool, _mem) = desk.close();
    Ok(())
}

fn set_up(rt: &impl Abort, desk: &mut Desk) {
    for (offset, value) in [
        (0x2800, 0x0010_0000),
        (0x2808, 0x400),
        (0x0100, 0x0400_8002),
        (0x3800, 0x0010_1000),
        (0x3808, 0x400),
        (0x0400, 0x0004_00f2),
    ] {
        assert!(rt; desk.write(offset, value) == Ok(()), "{offset}");
    }
}

#[test]
fn both_rings_at_once_and_the_end(rt: HostRuntime) -> Result<(), Fail> {
    let mut desk = Desk::new(&rt, rt.alloc())?;
    assert!(rt; desk.send(&rt, 0, 57) == Err(Rule::M8));
    set_up(&rt, &mut desk);
    assert!(rt; desk.post(&rt, 0, 7, 0) == Ok(()));
    assert!(rt; desk.post(&rt, 1, 9, 0) == Ok(()));
    assert!(rt; desk.send(&rt, 0, 57) == Ok(()));
    assert!(rt; desk.send(&rt, 3, 60) == Ok(()));
    assert!(rt; desk.write(0x2818, 2) == Ok(()));
    assert!(rt; desk.write(0x3818, 1) == Ok(()));
    assert!(rt; desk.sent().is_none(), "nothing was sent");
    assert!(rt; desk.transmit(&rt, rt.alloc()));
    assert!(rt; !desk.transmit(&rt, rt.alloc()), "the second is not rung");
    assert!(rt; desk.sent() == Some(Name { area: 1, index: 0 }));
    assert_eq!(rt; count_heard(&rt, rt.alloc(), &mut desk, 1), 1);
    assert!(rt; desk.take() == Some((Handle { name: 7, turn: 1 }, 57)));

    // One buffer is left in each ring.
    let (mut pool, mem) = desk.close();
    assert!(rt; !mem.is_lent(0x0010_6800, 2048));
    assert!(rt; !mem.is_lent(0x0020_1800, 2048));
    for name in [Name { area: 0, index: 9 }, Name { area: 1, index: 3 }] {
        assert!(rt; name.area < pool.areas());
        assert!(rt; name.index < 20);
        let loan = pool.take(name).expect(&rt, "given back");
        pool.give(loan);
    }
    Ok(())
}
