// Instances start and end.
ghost use Rattle.std.specs.Prelude.{◌≡◌, ◌≢◌, ◌+◌, ◌<◌, [], None, length, OnOk, slice_index_or};
ghost use Rattle.ibos_kinds.specs.declared.names.Endpoint.{Endpoint as Far};
ghost use Rattle.ibos_kinds.specs.declared.names.Instance.{Instance as Page};
ghost use Rattle.ibos_kinds.specs.Limits.{IsNamed};
ghost use Rattle.ibos_flow.specs.Flows.{bound_by};
ghost use Rattle.ibos_recv.specs.Inboxes.{frames_of, inbox_by};
ghost use Rattle.ibos_model.specs.Network.{Network};
ghost use Rattle.ibos_model.specs.Tabs.{Life, Unborn, Alive, Gone};
ghost use Rattle.ibos_send.specs.Sends.{homes_by};
ghost use Rattle.ibos_net.specs.NetStanding.{IsBare, IsSafe, NetStands, areas_of, posts_of};
ghost use Rattle.ibos_net.specs.NetStanding.{with_life, with_remote};

use crate::parts::Parts;
use ibos_kinds::{Endpoint, Instance, Memory};
use ibos_mediate::{
    frames_are_counted, other_changes_keep_the_frames, other_names_keep_the_relation,
};
use ibos_pool::hands_are_kept;
use ibos_recv::{fresh_areas, hands_are_parted, inboxes_keep_their_frames};

impl Parts {
    /// An instance starts, with an area of its own.
    pub(crate) fn begin(&mut self, who: Instance, remote: Endpoint) -> Result<(), Memory>
        requires named { IsNamed who }
        requires room { areas_of self.old < 2049 }
        requires safe { IsSafe self.old }
        requires names { length self.old.names ≡ length self.old.mem }
        requires flows { bound_by self.old.flows who ≡ None }
        requires inbox { inbox_by self.old.inboxes who ≡ None }
        requires sends { homes_by self.old.sends who ≡ None }
        ensures stands { OnOk result ((life : Page → Life) (remotes : Page → Far) (n : Network)
            → NetStands life remotes n self.old → life who ≡ Unborn → IsBare n who
            → NetStands (with_life who Alive life) (with_remote who remote remotes) n self.new) }
        ensures safe { IsSafe self.new }
        ensures areas { OnOk result (areas_of self.new ≡ areas_of self.old + 1) }
        ensures posts { posts_of self.new ≡ posts_of self.old }
    {
        // called for what their clauses say
        other_names_keep_the_relation();
        other_changes_keep_the_frames();
        frames_are_counted();
        hands_are_kept();
        fresh_areas();
        hands_are_parted();
        inboxes_keep_their_frames();
        let areas = self.pool.areas();
        self.mem.grow_instance()?;
        self.pool.grow_instance()?;
        self.inboxes.begin(who, areas, &mut self.pool)?;
        self.sends.begin(who, areas, &mut self.pool)?;
        self.flows.begin(who, remote)?;
        Ok(())
    }

    /// An instance ends.
    pub(crate) fn end(&mut self, who: Instance)
        requires safe { IsSafe self.old }
        requires flows { bound_by self.old.flows who ≢ None }
        ensures stands { (life : Page → Life) (remotes : Page → Far) (n : Network)
            → NetStands life remotes n self.old
            → NetStands (with_life who Gone life) remotes n self.new }
        ensures safe { IsSafe self.new }
        ensures areas { areas_of self.new ≡ areas_of self.old }
        ensures posts { posts_of self.new ≡ posts_of self.old }
    {
        // called for what its clauses say
        hands_are_parted();
        self.flows.end(who);
        self.inboxes.end(who, &mut self.pool);
        self.sends.end(who, &mut self.pool);
    }

    /// How many frames of an instance are unread.
    pub(crate) fn unread(&self, who: Instance) -> u8
        requires { inbox_by self.now.inboxes who ≢ None }
        ensures { result ≡ length (frames_of self.now.mem self.now.inboxes who) }
    {
        inboxes_keep_their_frames();
        self.inboxes.unread(who)
    }

    /// An unread frame of an instance, counted from 0 at the oldest.
    pub(crate) fn frame(&self, who: Instance, k: u8) -> &[u8]
        requires safe { IsSafe self.now }
        requires count { k < length (frames_of self.now.mem self.now.inboxes who) }
        ensures { result.now ≡ slice_index_or (frames_of self.now.mem self.now.inboxes who) k [] }
    {
        // called for what their clauses say
        hands_are_parted();
        inboxes_keep_their_frames();
        self.inboxes.frame(who, k, &self.mem)
    }

    /// Gives all buffers back.
    pub(crate) fn close(self)
        requires { IsSafe self }
    {
        // called for what its clauses say
        hands_are_parted();
        let Parts {
            med,
            mut mem,
            mut pool,
            flows: _flows,
            inboxes,
            sends,
        } = self;
        med.close(&mut pool, &mut mem);
        inboxes.close(&mut pool);
        sends.close(&mut pool);
    }
}
