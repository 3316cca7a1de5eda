//! The timer for what a replica lacks.
ghost use Rattle.std.specs.Prelude.{◌≡◌, IfOk};
ghost use Rattle.eris_rules.specs.EpochReplicas.{probe_normal, probe_changing, probe_row};
ghost use Rattle.eris_member.specs.MemberValues.{after};

use crate::member::EpochMember;
use crate::speaking::gap_of;
use eris_base::{NoMemory, Row};
use eris_msg::Outgoing;

impl EpochMember {
    /// It asks again for the gap that it waits for, or shows its part again to the learner that it waits for.
    #[tactic(auto, unfolding(eris_rules::specs::EpochReplicas::probe_row))]
    pub(crate) fn probe(&self) -> Result<Row<Outgoing>, NoMemory>
        ensures { IfOk result (λ sends. (self.now, sends) ≡ after self.now (probe_row self.now.me self.now.state)) }
    {
        if self.is_normal() {
            self.probe_normal()
        } else {
            self.probe_changing()
        }
    }

    #[tactic(auto, unfolding(eris_rules::specs::EpochReplicas::probe_normal))]
    fn probe_normal(&self) -> Result<Row<Outgoing>, NoMemory>
        ensures { IfOk result (λ sends. (self.now, sends) ≡ after self.now (probe_normal self.now.me self.now.state)) }
    {
        let mut sends = Row::new(self.alloc);
        if let Some(number) = gap_of(&self.part) {
            sends.push(self.find(number))?;
        }
        Ok(sends)
    }

    #[tactic(auto, unfolding(eris_rules::specs::EpochReplicas::probe_changing))]
    fn probe_changing(&self) -> Result<Row<Outgoing>, NoMemory>
        ensures { IfOk result (λ sends. (self.now, sends) ≡ after self.now (probe_changing self.now.me self.now.state)) }
    {
        if self.is_learner(self.tally.view()) {
            return Ok(Row::new(self.alloc));
        }
        self.show_part()
    }
}
