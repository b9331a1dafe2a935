//! Laws about transmit buffers, for whoever adds an instance.
ghost use Rattle.std.specs.Prelude.{◌≡◌, ◌+◌, ◌<◌, ◌≤◌, false, length};
ghost use Rattle.ibos_pool.specs.declared.name.Name.{Name};
ghost use Rattle.ibos_pool.specs.declared.place.Place.{Place};
ghost use Rattle.ibos_pool.specs.Memory.{Memory, is_lent_at};
ghost use Rattle.ibos_pool.specs.Names.{IsNameIn, Names, home_of, is_taken, place_of};
ghost use Rattle.ibos_send.specs.Buffers.{AreFreshIn, IsFresh};

/// The area that [`Pool::grow_instance`](ibos_pool::Pool::grow_instance) and
/// [`Mem::grow_instance`](ibos_pool::Mem::grow_instance) add is one that an instance can begin to
/// send from, also once other names of the area are taken.
pub fn areas_are_fresh()
    ensures names { (old new : Names) → 0 < length old → length new ≡ length old + 1
        → ((name : Name) → length old ≤ name.area → name.index < 4 → is_taken new name ≡ false)
        → IsFresh new (length old) }
    ensures memory { (old new : Names) (mem mem' : Memory) → 0 < length mem
        → length mem ≡ length old → length new ≡ length old + 1 → length mem' ≡ length mem + 1
        → ((name : Name) → name.area ≡ length old → IsNameIn (length new) name
        → place_of new name ≡ home_of name)
        → ((p : Place) → is_lent_at mem' p ≡ is_lent_at mem p)
        → AreFreshIn mem' new (length old) }
{}
