//! From one view to the next.
ghost use Rattle.std.specs.Prelude.{◌≡◌, IfOk};
ghost use Rattle.eris_msg.specs.declared.message.Message.{Message};
ghost use Rattle.eris_rules.specs.Outer.{tell_each};
ghost use Rattle.eris_rules.specs.ReplicaStates.{others};
ghost use Rattle.eris_rules.specs.Views.{starts_view, tests_view, enters_view, suspect_row, notes_part, tells_view, view_change_same, view_change_shown, view_change_row, is_shown_to, takes_view, start_view_row, begins_here};
ghost use Rattle.eris_member.specs.MemberValues.{after, IsOfOwn};

use crate::member::EpochMember;
use eris_base::{Dup, NoMemory, Node, ReplicaId, Row, View};
use eris_log::Part;
use eris_msg::{Message, Outgoing};
use eris_rules::tell;

impl EpochMember {
    /// Goes on to the next view, unless the number of views ends.
    #[tactic(auto, unfolding(eris_rules::specs::Views::suspect_row))]
    pub(crate) fn suspect(&mut self) -> Result<Row<Outgoing>, NoMemory>
        ensures { IfOk result (λ sends. (self.new, sends) ≡ after self.old (suspect_row self.old.me self.old.state)) }
    {
        let view = self.view();
        if view.0 < u32::MAX {
            return self.enter_view(View(view.0 + 1));
        }
        Ok(Row::new(self.alloc))
    }

    /// Enters a view. Its learner begins it at once where it needs nobody else, and any other replica shows
    /// the learner what it knows.
    #[tactic(auto, unfolding(eris_rules::specs::Views::enters_view))]
    pub(crate) fn enter_view(&mut self, view: View) -> Result<Row<Outgoing>, NoMemory>
        ensures { IfOk result (λ sends. (self.new, sends) ≡ after self.old (enters_view self.old.me self.old.state view)) }
    {
        self.enter(view);
        if self.is_learner(view) {
            return self.test_view();
        }
        self.show_part()
    }

    /// Begins its view, if it and the replicas whose parts it noted are a quorum.
    #[tactic(auto, unfolding(eris_rules::specs::Views::tests_view))]
    fn test_view(&mut self) -> Result<Row<Outgoing>, NoMemory>
        ensures { IfOk result (λ sends. (self.new, sends) ≡ after self.old (tests_view self.old.me self.old.state)) }
    {
        if self.is_ready() {
            return self.begin_view();
        }
        Ok(Row::new(self.alloc))
    }

    /// Begins its view with all that it and the replicas whose parts it noted know.
    fn begin_view(&mut self) -> Result<Row<Outgoing>, NoMemory>
        ensures { IfOk result (λ sends. (self.new, sends) ≡ after self.old (starts_view self.old.me self.old.state)) }
    {
        self.join_noted()?;
        self.become_normal();
        let sends = self.tell_start()?;
        Ok(sends)
    }

    /// Tells the others that its view begins, with all that it knows.
    fn tell_start(&self) -> Result<Row<Outgoing>, NoMemory>
        ensures { IfOk result (λ sends. sends ≡ tell_each (others self.now.me) (Message.StartView self.now.state.view self.now.state.part)) }
    {
        let view = self.view();
        let part = self.part.copy(self.alloc)?;
        self.tell_others(&Message::StartView { view, part })
    }

    /// Another replica shows the learner of a view what it knows.
    #[tactic(auto, unfolding(eris_rules::specs::Views::view_change_row))]
    pub(crate) fn view_change(
        &mut self,
        replica: ReplicaId,
        view: View,
        part: Part,
    ) -> Result<Row<Outgoing>, NoMemory>
        requires { part.epoch ≡ self.old.epoch }
        ensures { IfOk result (λ sends. (self.new, sends) ≡ after self.old
            (view_change_row self.old.me self.old.state replica view part)) }
    {
        if self.is_shown_to(replica, view, &part) {
            return self.view_change_shown(replica, view, part);
        }
        Ok(Row::new(self.alloc))
    }

    /// Whether the part is of the own shard, and another replica shows it to the learner of the view.
    fn is_shown_to(&self, replica: ReplicaId, view: View, part: &Part) -> bool
        ensures { result ≡ is_shown_to self.now.me replica view part.now }
    {
        part.shard() == self.shard && self.is_learner(view) && replica != self.replica
    }

    #[tactic(auto, unfolding(eris_rules::specs::Views::view_change_shown))]
    fn view_change_shown(
        &mut self,
        replica: ReplicaId,
        view: View,
        part: Part,
    ) -> Result<Row<Outgoing>, NoMemory>
        requires { IsOfOwn self.old.epoch self.old.me.shard part }
        ensures { IfOk result (λ sends. (self.new, sends) ≡ after self.old
            (view_change_shown self.old.me self.old.state replica view part)) }
    {
        if self.view().0 < view.0 {
            self.enter(view);
            return self.note_shown(replica, part);
        }
        if view == self.view() {
            return self.view_change_same(replica, part);
        }
        Ok(Row::new(self.alloc))
    }

    /// In a view that hasn't begun the part is noted; one that has begun is told.
    #[tactic(auto, unfolding(eris_rules::specs::Views::view_change_same))]
    fn view_change_same(
        &mut self,
        replica: ReplicaId,
        part: Part,
    ) -> Result<Row<Outgoing>, NoMemory>
        requires { IsOfOwn self.old.epoch self.old.me.shard part }
        ensures { IfOk result (λ sends. (self.new, sends) ≡ after self.old
            (view_change_same self.old.me self.old.state replica part)) }
    {
        if self.is_normal() {
            return self.tell_view(replica);
        }
        self.note_shown(replica, part)
    }

    #[tactic(auto, unfolding(eris_rules::specs::Views::notes_part))]
    fn note_shown(&mut self, replica: ReplicaId, part: Part) -> Result<Row<Outgoing>, NoMemory>
        requires { IsOfOwn self.old.epoch self.old.me.shard part }
        ensures { IfOk result (λ sends. (self.new, sends) ≡ after self.old
            (notes_part self.old.me self.old.state replica part)) }
    {
        self.note_part(replica, part)?;
        self.test_view()
    }

    /// Tells a replica that comes late to the view what the view began with, and more.
    #[tactic(auto, unfolding(eris_rules::specs::Views::tells_view))]
    fn tell_view(&self, replica: ReplicaId) -> Result<Row<Outgoing>, NoMemory>
        ensures { IfOk result (λ sends. (self.now, sends) ≡ after self.now
            (tells_view self.now.me self.now.state replica)) }
    {
        let view = self.view();
        let part = self.part.copy(self.alloc)?;
        let message = Message::StartView { view, part };
        tell(self.alloc, Node::Replica(self.shard, replica), message)
    }

    /// The learner of a view begins it, with what it knows.
    #[tactic(auto, unfolding(eris_rules::specs::Views::start_view_row))]
    pub(crate) fn start_view(&mut self, view: View, part: &Part) -> Result<Row<Outgoing>, NoMemory>
        requires { part.now.epoch ≡ self.old.epoch }
        ensures { IfOk result (λ sends. (self.new, sends) ≡ after self.old
            (start_view_row self.old.me self.old.state view part.now)) }
    {
        if part.shard() == self.shard && !self.is_learner(view) && self.begins_here(view) {
            return self.take_view(view, part);
        }
        Ok(Row::new(self.alloc))
    }

    /// Whether the view is above its own, or is its own and hasn't begun here.
    fn begins_here(&self, view: View) -> bool
        ensures { result ≡ begins_here self.now.state view }
    {
        self.view().0 < view.0 || view == self.view() && !self.is_normal()
    }

    /// Takes part in the view from here on, with all that its learner knew.
    #[tactic(auto, unfolding(eris_rules::specs::Views::takes_view, eris_rules::specs::Views::entered, eris_rules::specs::Views::became_normal))]
    fn take_view(&mut self, view: View, part: &Part) -> Result<Row<Outgoing>, NoMemory>
        requires { IsOfOwn self.old.epoch self.old.me.shard part.now }
        ensures { IfOk result (λ sends. (self.new, sends) ≡ after self.old
            (takes_view self.old.state view part.now)) }
    {
        self.enter(view);
        self.merge_part(part)?;
        self.become_normal();
        Ok(Row::new(self.alloc))
    }
}
