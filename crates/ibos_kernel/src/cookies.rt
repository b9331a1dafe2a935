// Acts on cookies.
ghost use Rattle.std.specs.Prelude.{◌≡◌, [], false, ◌&&◌, List, ℕ, OnOk, bytes_eq, if◌then◌else◌};
ghost use Rattle.ibos_kinds.specs.Cookies.{cookie_in, set_breaks, put};
ghost use Rattle.ibos_cookie.specs.Jars.{jar_of};
ghost use Rattle.ibos_model.specs.Journal.{is_ok};
ghost use Rattle.ibos_model.specs.Outcomes.{answer};
ghost use Rattle.ibos_kernel.specs.Tables.{get_at};

use ibos_cookie::{CookieFault, Jars};
use ibos_kinds::{Head, Instance, Item, Memory, Outcome};
use std::alloc::Global;

/// A process of an instance of an origin sets a cookie.
pub fn set(jars: &mut Jars, origin: &[u8], text: &[u8], out: &mut Outcome) -> Result<(), Memory>
    requires head { out.old.head ≡ Head.Ok }
    requires items { out.old.items ≡ [] }
    ensures outcome { OnOk result (out.new
        ≡ answer (set_breaks text.now (jar_of jars.old origin.now))) }
    ensures jars { OnOk result ((o : List ℕ) → jar_of jars.new o
        ≡ (if is_ok out.new.head && bytes_eq origin.now o
        then put (cookie_in text.now) (jar_of jars.old o) else jar_of jars.old o)) }
    ensures denied { OnOk result (is_ok out.new.head ≡ false → jars.new ≡ jars.old) }
{
    match jars.set(origin, text) {
        Ok(()) => Ok(()),
        Err(CookieFault::Denied(rule)) => {
            out.head = Head::Denied(rule);
            Ok(())
        }
        Err(CookieFault::Memory) => Err(Memory),
    }
}

/// A process of an instance of an origin reads its cookies.
pub fn get(
    jars: &Jars,
    alloc: Global,
    origin: &[u8],
    who: Instance,
    out: &mut Outcome,
) -> Result<(), Memory>
    requires head { out.old.head ≡ Head.Ok }
    requires items { out.old.items ≡ [] }
    ensures outcome { OnOk result (out.new ≡ get_at jars.now origin.now who) }
{
    let text = jars.text(alloc, origin)?;
    out.push(Item::Cookies { who, text })?;
    Ok(())
}
