//! A replica's step within its epoch: the input's row, then what follows each input.
ghost use Rattle.std.specs.Prelude.{◌≡◌, IfOk};
ghost use Rattle.eris_rules.specs.EpochReplicas.{epoch_step, row};
ghost use Rattle.eris_member.specs.MemberInputs.{input_of, IsFor};
ghost use Rattle.eris_member.specs.MemberValues.{after};

use crate::input::MemberInput;
use crate::member::EpochMember;
use eris_base::{NoMemory, Row};
use eris_msg::Outgoing;

impl EpochMember {
    /// Takes an input and answers what is sent, in order: the rules' step of a replica within its epoch. It
    /// needs a message of its own epoch, whose sender is below 2f+1.
    #[tactic(auto, using(crate::proofs::Following::following), unfolding(eris_rules::specs::EpochReplicas::epoch_step))]
    pub fn step(&mut self, input: MemberInput) -> Result<Row<Outgoing>, NoMemory>
        requires { IsFor self.old.epoch self.old.me.config input }
        ensures { IfOk result (λ sends. (self.new, sends) ≡ after self.old (epoch_step self.old.me self.old.state (input_of input))) }
    {
        let mut sends = self.take(input)?;
        self.follow(&mut sends)?;
        Ok(sends)
    }

    /// The input's row.
    fn take(&mut self, input: MemberInput) -> Result<Row<Outgoing>, NoMemory>
        requires { IsFor self.old.epoch self.old.me.config input }
        ensures { IfOk result (λ sends. (self.new, sends) ≡ after self.old (row self.old.me self.old.state (input_of input))) }
    {
        match input {
            MemberInput::Txn(packet) => self.txn(packet),
            MemberInput::Request(place) => self.request(place),
            MemberInput::Found(packet) => self.found(packet),
            MemberInput::Dropped(place) => self.dropped(place),
            MemberInput::ViewChange {
                replica,
                view,
                part,
            } => self.view_change(replica, view, part),
            MemberInput::StartView { view, part } => self.start_view(view, &part),
            MemberInput::SyncAsk(view) => self.sync_ask(view),
            MemberInput::Ack {
                replica,
                view,
                length,
            } => self.ack(replica, view, length),
            MemberInput::Settled {
                view,
                number,
                places,
            } => self.hear_settled(view, number, places.as_slice()),
            MemberInput::Probe => self.probe(),
            MemberInput::Suspect => self.suspect(),
            MemberInput::Sync => self.sync(),
        }
    }
}
