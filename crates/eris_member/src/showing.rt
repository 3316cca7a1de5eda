//! What a replica shows another of its part.
ghost use Rattle.std.specs.Prelude.{◌≡◌, IfOk};
ghost use Rattle.eris_rules.specs.Views.{shows_part};
ghost use Rattle.eris_member.specs.MemberValues.{after};

use crate::member::EpochMember;
use eris_base::{Dup, NoMemory, Row};
use eris_msg::{Message, Outgoing};
use eris_rules::tell;

impl EpochMember {
    /// It gives the learner of its view what it knows.
    #[tactic(auto, unfolding(eris_rules::specs::Views::shows_part))]
    pub(crate) fn show_part(&self) -> Result<Row<Outgoing>, NoMemory>
        ensures { IfOk result (λ sends. (self.now, sends) ≡ after self.now (shows_part self.now.me self.now.state)) }
    {
        let view = self.tally.view();
        let part = self.part.copy(self.alloc)?;
        let message = Message::ViewChange {
            replica: self.replica,
            view,
            part,
        };
        tell(self.alloc, self.learner_node(view), message)
    }
}
