//! The end of a mediator.
ghost use Rattle.std.specs.Prelude.{List, ◌++◌};
ghost use Rattle.ibos_pool.specs.declared.name.Ring.{Ring};
ghost use Rattle.ibos_pool.specs.Hands.{AreAtHand, AreAway, AreGiven};
ghost use Rattle.ibos_pool.specs.Names.{Held};
ghost use Rattle.ibos_mediate.specs.Mediated.{ring_of};
ghost use Rattle.ibos_mediate.specs.Relation.{AreOwned, IsInMemory};

use crate::mediator::Mediator;
use circular_buffer::HeapCircularBuffer;
use ibos_pool::{Away, Mem, Pool};

// Takes each buffer back from the device, and gives it to the pool.
fn give_all(held: HeapCircularBuffer<Away>, pool: &mut Pool, mem: &mut Mem)
    requires { AreAway pool.old mem.old held.items }
    ensures given { AreGiven held.items pool.old pool.new mem.old mem.new }
    ensures others { (others : List Held) → AreAway pool.old mem.old (held.items ++ others)
        → AreAway pool.new mem.new others }
{
    let mut held = held;
    while let Some(away) = held.pop_front() {
        pool.give(mem.regain(away));
    }
    held.destroy_empty();
}

impl Mediator {
    /// Takes each buffer that a ring holds back, and gives its name to the pool.
    ///
    /// The device may not be used afterwards, since its descriptors still name these buffers.
    pub fn close(self, pool: &mut Pool, mem: &mut Mem)
        requires memory { IsInMemory self mem.old }
        requires owned { (ring : Ring) → AreOwned ring (ring_of self ring) pool.old }
        ensures given { AreGiven (self.receive.held ++ self.transmit.held) pool.old pool.new mem.old
            mem.new }
        ensures hands { (held : List Held) → AreAtHand pool.old mem.old held
            → AreAtHand pool.new mem.new held }
    {
        let Mediator {
            receive,
            transmit,
            turns: _,
        } = self;
        give_all(receive.into_held(), pool, mem);
        give_all(transmit.into_held(), pool, mem);
    }
}
