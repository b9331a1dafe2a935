//! Laws about inboxes, for whoever speaks of what they hold.
ghost use Rattle.std.specs.Prelude.{◌≡◌, ◌+◌, ◌<◌, ◌≤◌, ℕ, List, ◌++◌, true, false, length, Option};
ghost use Rattle.ibos_kinds.specs.declared.names.Handle.{Handle};
ghost use Rattle.ibos_kinds.specs.declared.names.Instance.{Instance};
ghost use Rattle.ibos_kinds.specs.declared.names.Local.{Local};
ghost use Rattle.ibos_kinds.specs.Bells.{bell};
ghost use Rattle.ibos_kinds.specs.Flows.{Bound};
ghost use Rattle.ibos_pool.specs.declared.name.Name.{Name};
ghost use Rattle.ibos_pool.specs.declared.place.Place.{Place};
ghost use Rattle.ibos_pool.specs.Hands.{AreAtHand, has_place};
ghost use Rattle.ibos_pool.specs.Memory.{IsKept, Memory, buffer_at, is_lent_at};
ghost use Rattle.ibos_pool.specs.Names.{Held, IsNameIn, Names, home_of, is_taken, place_of};
ghost use Rattle.ibos_recv.specs.Inboxes.{AreFreshIn, Inboxes as Table, IsFresh, frames_of};
ghost use Rattle.ibos_recv.specs.Inboxes.{held_in, unread_of};

/// An instance has as many frames as are unread. They stay as they are where the buffers of the
/// inboxes do, so also where only other buffers are written.
pub fn inboxes_keep_their_frames()
    ensures count { (mem : Memory) (inboxes : Table) (who : Instance)
        → length (frames_of mem inboxes who) ≡ unread_of inboxes who }
    ensures same { (mem mem' : Memory) (inboxes : Table) → ((p : Place)
        → has_place (held_in inboxes) p ≡ true → buffer_at mem' p ≡ buffer_at mem p)
        → (who : Instance) → frames_of mem' inboxes who ≡ frames_of mem inboxes who }
    ensures hands { (names : Names) (mem mem' : Memory) (inboxes : Table) (more : List Held)
        → AreAtHand names mem (held_in inboxes ++ more) → ((p : Place) → IsKept mem p
        → has_place more p ≡ false → buffer_at mem' p ≡ buffer_at mem p)
        → (who : Instance) → frames_of mem' inboxes who ≡ frames_of mem inboxes who }
{}

/// Of buffers at hand each part is at hand, in any order of the parts, and no buffer is in two of
/// them.
pub fn hands_are_parted()
    ensures front { (names : Names) (mem : Memory) (held more : List Held)
        → AreAtHand names mem (held ++ more) → AreAtHand names mem held }
    ensures back { (names : Names) (mem : Memory) (held more : List Held)
        → AreAtHand names mem (held ++ more) → AreAtHand names mem more }
    ensures swapped { (names : Names) (mem : Memory) (held more : List Held)
        → AreAtHand names mem (held ++ more) → AreAtHand names mem (more ++ held) }
    ensures kept { (names : Names) (mem : Memory) (held : List Held) (p : Place)
        → AreAtHand names mem held → has_place held p ≡ true → IsKept mem p }
    ensures apart { (names : Names) (mem : Memory) (held more : List Held) (p : Place)
        → AreAtHand names mem (held ++ more) → has_place held p ≡ true
        → has_place more p ≡ false }
{}

/// The area that [`Pool::grow_instance`](ibos_pool::Pool::grow_instance) and
/// [`Mem::grow_instance`](ibos_pool::Mem::grow_instance) add is one that an inbox can begin with.
pub fn fresh_areas()
    ensures names { (old new : Names) → 0 < length old → length new ≡ length old + 1
        → ((name : Name) → length old ≤ name.area → is_taken new name ≡ false)
        → IsFresh new (length old) }
    ensures memory { (old new : Names) (mem mem' : Memory) → 0 < length mem
        → length mem ≡ length old → length new ≡ length old + 1 → length mem' ≡ length mem + 1
        → ((name : Name) → name.area ≡ length old → IsNameIn (length new) name
        → place_of new name ≡ home_of name)
        → ((p : Place) → is_lent_at mem' p ≡ is_lent_at mem p)
        → AreFreshIn mem' new (length old) }
{}

/// A bell's items are the same where the same is bound and as much is unread.
pub fn bells_agree()
    ensures { (local : Local) (ears ears' : Instance → Option Bound) (unread unread' : Instance → ℕ)
        → ((p : Instance) → ears' p ≡ ears p) → ((p : Instance) → unread' p ≡ unread p)
        → (handles : List Handle) (frames : List (List ℕ))
        → bell local ears' unread' handles frames ≡ bell local ears unread handles frames }
{}
