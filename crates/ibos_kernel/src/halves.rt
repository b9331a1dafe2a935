// Both halves of the kernel, and the acts of each.
ghost use Rattle.std.specs.Prelude.{◌≡◌, ◌<◌, ◌≤◌, ◌+◌, ◌^◌, ℕ, [], ◌∷◌, List, None, Some, true};
ghost use Rattle.std.specs.Prelude.{false, IfSome, IsOk, OnErr, OnOk};
ghost use Rattle.ibos_kinds.specs.declared.names.Endpoint.{Endpoint};
ghost use Rattle.ibos_kinds.specs.declared.names.Instance.{Instance};
ghost use Rattle.ibos_kinds.specs.Limits.{Fits, IsNamed};
ghost use Rattle.ibos_nic.specs.declared.log.LogEntry.{LogEntry};
ghost use Rattle.ibos_page.specs.Tabs.{live_at};
ghost use Rattle.ibos_model.specs.Journal.{Journal, frame_of, is_ok};
ghost use Rattle.ibos_model.specs.Logs.{Loses, got_for, log_after};
ghost use Rattle.ibos_model.specs.Network.{Network, network, next_frame};
ghost use Rattle.ibos_model.specs.Outcomes.{out as outcome_of};
ghost use Rattle.ibos_model.specs.Tabs.{Life, Alive};
ghost use Rattle.ibos_net.specs.NetStanding as net_spec;
ghost use Rattle.ibos_net.specs.NetStanding.{NetStands, areas_of, posts_of};
ghost use Rattle.ibos_kernel.specs.Storage.{IsFew};
ghost use Rattle.ibos_kernel.specs.Tables.{Serves, takes_none};
ghost use Rattle.ibos_kernel.specs.Standing.{Agrees, IsCounted, NetStandsFor, entry};
ghost use Rattle.ibos_kernel.specs.Halves.{GoOn, HalvesStand, IsNew, begun, remotes_with};
ghost use Rattle.ibos_kernel.specs.Halves.{with_begun, with_ended};

use crate::instances::{ended_in, opened_in};
use crate::parts::Parts;
use ibos_kinds::{Act, Head, Instance, Memory, Outcome};
use ibos_model::{
    denials_change_nothing, frames_are_sent_in_turn, sets_are_put, unborn_have_nothing,
};
use ibos_net::{Net, lives_may_change};
use ibos_nic::Nic;
use ibos_origin::endpoints_follow_origins;
use ibos_page::Tabs;
use ibos_route::admit;
use std::alloc::Global;

/// Makes one act, in the half that it is of, and fills `out`, which is as new, with its outcome.
#[inline(always)]
pub fn serve<N: Nic>(
    pages: &mut Parts,
    net: &mut Net,
    alloc: Global,
    act: &Act,
    nic: &mut N,
    out: &mut Outcome,
) -> Result<(), Memory>
    requires fits { Fits act.now }
    requires counted { IsCounted pages.old.tabs net.old }
    requires few { IsFew pages.old.store }
    requires posts { posts_of net.old < 2 ^ 31 }
    requires together { (J : Journal) × HalvesStand J pages.old net.old
        × Agrees pages.old.hosts J (N.regs nic.old) (N.log nic.old) }
    requires head { out.old.head ≡ Head.Ok }
    requires items { out.old.items ≡ [] }
    ensures goes { OnOk result ((J : Journal) → HalvesStand J pages.old net.old
        → Agrees pages.old.hosts J (N.regs nic.old) (N.log nic.old)
        → GoOn J pages.old act.now out.new pages.new net.new (N.regs nic.new) (N.log nic.new)) }
    ensures denied_pages { OnOk result (is_ok out.new.head ≡ false → pages.new ≡ pages.old) }
    ensures denied_net { OnOk result (is_ok out.new.head ≡ false → net.new ≡ net.old) }
    ensures counted { OnOk result (IsCounted pages.new.tabs net.new) }
    ensures posts { OnOk result (posts_of net.new ≤ posts_of net.old + 1) }
    ensures log { OnOk result ((J : Journal) → HalvesStand J pages.old net.old
        → Agrees pages.old.hosts J (N.regs nic.old) (N.log nic.old)
        → N.log nic.new ≡ log_after out.new (frame_of act.now) (got_for out.new (N.log nic.new))
        (next_frame (network J)) (N.log nic.old)) }
    ensures loses { OnErr result ((J : Journal) → HalvesStand J pages.old net.old
        → Agrees pages.old.hosts J (N.regs nic.old) (N.log nic.old)
        → Loses (outcome_of pages.old.hosts J act.now) act.now (next_frame (network J))
        (N.log nic.old) (N.log nic.new)) }
    ensures free { takes_none act.now ≡ true → IsOk result }
    ensures hosts { pages.new.hosts ≡ pages.old.hosts }
{
    // Called for what their contracts say.
    sets_are_put();
    unborn_have_nothing();

    if is_net(act) {
        serve_net(pages, net, alloc, act, nic, out)?;
    } else {
        serve_pages(pages, net, alloc, act, out)?;
    }
    Ok(())
}

// Whether frames, rings or flows are concerned.
fn is_net(act: &Act) -> bool
    ensures { result ≡ net_spec.is_net act.now }
{
    match act {
        Act::Bind { .. } | Act::Unbind { .. } | Act::Done { .. } => true,
        Act::RegRead { .. } | Act::RegWrite { .. } => true,
        Act::RxPost { .. } | Act::RxBell | Act::WireIn { .. } => true,
        Act::Fill { .. } | Act::Submit { .. } => true,
        Act::TxPost { .. } | Act::TxBell | Act::WireOut => true,
        _ => false,
    }
}

// An act of the net half.
fn serve_net<N: Nic>(
    pages: &Parts,
    net: &mut Net,
    alloc: Global,
    act: &Act,
    nic: &mut N,
    out: &mut Outcome,
) -> Result<(), Memory>
    requires net { net_spec.is_net act.now ≡ true }
    requires fits { Fits act.now }
    requires posts { posts_of net.old < 2 ^ 31 }
    requires together { (J : Journal) × HalvesStand J pages.now net.old
        × Agrees pages.now.hosts J (N.regs nic.old) (N.log nic.old) }
    requires head { out.old.head ≡ Head.Ok }
    requires items { out.old.items ≡ [] }
    ensures goes { OnOk result ((J : Journal) → HalvesStand J pages.now net.old
        → Agrees pages.now.hosts J (N.regs nic.old) (N.log nic.old)
        → GoOn J pages.now act.now out.new pages.now net.new (N.regs nic.new) (N.log nic.new)) }
    ensures denied { OnOk result (is_ok out.new.head ≡ false → net.new ≡ net.old) }
    ensures areas { areas_of net.new ≡ areas_of net.old }
    ensures posts { OnOk result (posts_of net.new ≤ posts_of net.old + 1) }
    ensures log { OnOk result ((J : Journal) → HalvesStand J pages.now net.old
        → Agrees pages.now.hosts J (N.regs nic.old) (N.log nic.old)
        → N.log nic.new ≡ log_after out.new (frame_of act.now) (got_for out.new (N.log nic.new))
        (next_frame (network J)) (N.log nic.old)) }
    ensures loses { OnErr result ((J : Journal) → HalvesStand J pages.now net.old
        → Agrees pages.now.hosts J (N.regs nic.old) (N.log nic.old)
        → Loses (outcome_of pages.now.hosts J act.now) act.now (next_frame (network J))
        (N.log nic.old) (N.log nic.new)) }
    ensures free { net_spec.takes_none act.now ≡ true → IsOk result }
{
    // Called for what their contracts say.
    denials_change_nothing();
    frames_are_sent_in_turn();

    if let Err(rule) = admit(&pages.tabs, act) {
        out.head = Head::Denied(rule);
        return Ok(());
    }
    net.serve(alloc, &pages.hosts.local(), act, nic, out)?;
    Ok(())
}

// An act of the pages' half. An instance that ends gives its buffers back, and one that starts gets
// its own.
fn serve_pages(
    pages: &mut Parts,
    net: &mut Net,
    alloc: Global,
    act: &Act,
    out: &mut Outcome,
) -> Result<(), Memory>
    requires pages { net_spec.is_net act.now ≡ false }
    requires fits { Fits act.now }
    requires counted { IsCounted pages.old.tabs net.old }
    requires few { IsFew pages.old.store }
    requires together { (J : Journal) × HalvesStand J pages.old net.old }
    requires head { out.old.head ≡ Head.Ok }
    requires items { out.old.items ≡ [] }
    ensures serves { OnOk result (Serves pages.old act.now out.new pages.new) }
    ensures net { OnOk result ((J : Journal) (log : List LogEntry)
        → HalvesStand J pages.old net.old
        → NetStandsFor pages.old.hosts (entry act.now out.new log ∷ J) net.new) }
    ensures denied { OnOk result (is_ok out.new.head ≡ false → net.new ≡ net.old) }
    ensures counted { OnOk result (IsCounted pages.new.tabs net.new) }
    ensures posts { OnOk result (posts_of net.new ≡ posts_of net.old) }
    ensures free { takes_none act.now ≡ true → IsOk result }
    ensures hosts { pages.new.hosts ≡ pages.old.hosts }
{
    // Called for what their contracts say.
    denials_change_nothing();
    unborn_have_nothing();
    endpoints_follow_origins();
    lives_may_change();
    pages.hosts.sound();

    pages.serve(alloc, act, out)?;
    end(net, ended_in(out));
    begin(net, &pages.tabs, opened_in(out))?;
    Ok(())
}

fn end(net: &mut Net, ended: Option<Instance>)
    requires together { (life : Instance → Life) × (remotes : Instance → Endpoint)
        × (n : Network) × NetStands life remotes n net.old
        × IfSome ended (λ who. life who ≡ Alive) }
    ensures stands { (life : Instance → Life) (remotes : Instance → Endpoint) (n : Network)
        → NetStands life remotes n net.old → NetStands (with_ended ended life) remotes n net.new }
    ensures areas { areas_of net.new ≡ areas_of net.old }
    ensures posts { posts_of net.new ≡ posts_of net.old }
    ensures none { ended ≡ None → net.new ≡ net.old }
{
    if let Some(who) = ended {
        net.end(who);
    }
}

fn begin(net: &mut Net, tabs: &Tabs, opened: Option<Instance>) -> Result<(), Memory>
    requires named { IfSome opened IsNamed }
    requires lives { IfSome opened (λ who. live_at tabs.now who.tab ≡ Some who) }
    requires room { IfSome opened (λ who. areas_of net.old < 2049) }
    requires together { (life : Instance → Life) × (remotes : Instance → Endpoint)
        × (n : Network) × NetStands life remotes n net.old × IfSome opened (IsNew life n) }
    ensures stands { OnOk result ((life : Instance → Life) (remotes : Instance → Endpoint)
        (n : Network) → NetStands life remotes n net.old → IfSome opened (IsNew life n)
        → NetStands (with_begun opened life) (remotes_with tabs.now opened remotes) n net.new) }
    ensures areas { OnOk result (areas_of net.new ≡ areas_of net.old + begun opened) }
    ensures posts { OnOk result (posts_of net.new ≡ posts_of net.old) }
    ensures none { opened ≡ None → net.new ≡ net.old }
    ensures free { opened ≡ None → IsOk result }
{
    if let Some(who) = opened {
        net.begin(who, tabs.endpoint(who))?;
    }
    Ok(())
}
