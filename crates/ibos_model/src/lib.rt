//! Journals of acts and outcomes, what they mean, and the laws that every run keeps. There is
//! nothing to run here: each function is a law, which its contract states.
#![tactic(auto)]

ghost use Rattle.ibos_model.specs.Laws.{AreFrameFronts, AreFronts, AreOfTheirActs, AreOrdered};
ghost use Rattle.ibos_model.specs.Laws.{AreAtEndpoints, AreFirst, AreTheDevices, IsTheDevices};
ghost use Rattle.ibos_model.specs.Laws.{AreFixed, AreLentInOrder, AreLoggedAlone, ArePendingLast};
ghost use Rattle.ibos_model.specs.Laws.{ArePostedOnce, AreRight, AreSentFronts, AreSentInTurn};
ghost use Rattle.ibos_model.specs.Laws.{AreSentRightly, AreUnbornQuiet, IsSentByTheDevice};
ghost use Rattle.ibos_model.specs.Laws.{AreReadInOrder};
ghost use Rattle.ibos_model.specs.Laws.{AreRuns, AreSetsPut, AreUnbornBare, DoGoOn};
ghost use Rattle.ibos_model.specs.Laws.{IsIsolated, IsIsolatedOverTwo, IsCarriedAlways};
ghost use Rattle.ibos_model.specs.Laws.{IsChromeKept, IsOriginShown, IsUnchanged};

use ibos_nic::{rules_are_exact, slots_go_around};
use ibos_origin::{endpoints_follow_origins, origins_are_printable, urls_begin_with_their_origin};

/// In every run each instance is told what the facts that concern it give, whatever else happens.
pub fn isolation()
    ensures { IsIsolated }
{}

/// Two runs in which the same facts concern an instance deliver the same to it.
pub fn isolation_of_two_runs()
    ensures { IsIsolatedOverTwo }
{}

/// What one entry of a run tells an instance is what the facts that the entry adds give.
pub fn isolation_of_each_entry()
    ensures { IsCarriedAlways }
{}

/// The chrome's rows change only by an accepted act of the user and by an accepted `go` of the
/// active instance: no denied act, draw or act of a network process reaches them.
pub fn chrome_is_kept()
    ensures { IsChromeKept }
{}

/// One set more puts its cookie into the jar of its origin.
pub fn sets_are_put()
    ensures { AreSetsPut }
{}

/// The address bar begins with the active instance's origin, whole, whatever the length of its URL.
/// The host table has plain names, as each one has that was read
/// (`ibos_origin::hosts_have_plain_names`).
pub fn origins_show_whole()
    ensures { IsOriginShown }
{
    // Called for what their contracts say.
    urls_begin_with_their_origin();
    origins_are_printable();
}

/// A denied act changes nothing that a journal says: tabs, focus, jars, contents, the screen,
/// flows, frames, sends, rings, registers, stored objects and requests.
pub fn denials_change_nothing()
    ensures { IsUnchanged }
{}

/// What acts make of a host table is a run, whatever the device writes.
pub fn acts_make_runs()
    ensures { AreRuns }
{}

/// Each run is that of its acts, and of what the device wrote for the frames heard.
pub fn runs_are_of_their_acts()
    ensures { AreOfTheirActs }
{}

/// A journal from which a run goes on, whatever will be heard, still does after the entry of the
/// next act.
pub fn runs_go_on()
    ensures { DoGoOn }
{}

/// The text of a journal is a front of the text of each run from there.
pub fn texts_are_fronts()
    ensures { AreFronts }
{}

/// The frames heard in a journal are a front of those of each run from there.
pub fn frames_are_fronts()
    ensures { AreFrameFronts }
{}

/// An instance that never started has bound no flow, was given no frame, has asked for nothing, and
/// its buffers are zero and at home.
pub fn unborn_have_nothing()
    ensures bare { AreUnbornBare }
    ensures quiet { AreUnbornQuiet }
{}

/// In every run the counts of each ring are in order: no more descriptors are taken back than the
/// device is done with, no more of these than rung, no more rung than posted, and at most 63 are
/// posted and not taken back. So many buffers are in the ring, and so many frames are pending, as
/// the counts say.
pub fn rings_are_ordered()
    ensures { AreOrdered }
{
    // Called for what its contract says.
    rules_are_exact();
}

/// The registers of journals, which are counted from acts, are those that the device makes by its
/// own rules: at first, after each entry of a run, where it judges a frame that comes, and where it
/// may send one.
pub fn registers_are_the_devices()
    ensures first { AreFirst }
    ensures after { AreTheDevices }
    ensures verdict { IsTheDevices }
    ensures sent { IsSentByTheDevice }
{
    // Called for what their contracts say.
    rules_are_exact();
    slots_go_around();
    rings_are_ordered();
}

/// In every run receive buffers come back in the order of their posts, each with its turn one
/// higher; the frames that are pending are the last that were heard; and of the frames that bells
/// gave an instance those are unread that it is not done with.
pub fn frames_keep_their_order()
    ensures lent { AreLentInOrder }
    ensures pending { ArePendingLast }
    ensures read { AreReadInOrder }
{
    // Called for what their contracts say.
    rules_are_exact();
    rings_are_ordered();
}

/// No act but the wire's has to do with the device's log.
pub fn the_wire_alone_is_logged()
    ensures { AreLoggedAlone }
{}

/// Each accepted send is posted at most once, and breaks no rule of frames that go out: its source
/// is a port of its sender, and its destination the endpoint of its sender's origin. Each frame
/// that went out is that of such a send. What is away keeps its bytes.
pub fn sends_are_right()
    ensures posted { ArePostedOnce }
    ensures right { AreRight }
    ensures sent { AreSentRightly }
    ensures fixed { AreFixed }
{}

/// An entry of a run that sends a frame adds the one that is next to the frames that went out, and
/// no other entry adds one.
pub fn frames_are_sent_in_turn()
    ensures { AreSentInTurn }
{
    // Called for what its contract says.
    rings_are_ordered();
}

/// The frames that went out in a journal are a front of those of each run from there.
pub fn sent_frames_are_fronts()
    ensures { AreSentFronts }
{
    // Called for what its contract says.
    rings_are_ordered();
}

/// An instance's flows are bound to where its page is, for every host table with plain names.
pub fn instances_are_at_their_pages()
    ensures { AreAtEndpoints }
{
    // Called for what its contract says.
    endpoints_follow_origins();
}
