//! Which row of the client's table a message comes to.
ghost use Rattle.std.specs.Prelude.{◌≡◌, IfOk, IsTrue};
ghost use Rattle.eris_rules.specs.Clients.{client_step, client_takes};
ghost use Rattle.eris_rules.specs.InPlace.{is_for_client};
ghost use Rattle.eris_client.specs.ClientValues.{after};

use crate::asking::Step;
use crate::state::State;
use eris_base::NoMemory;
use eris_in_place::is_in_place_at_client;
use eris_msg::Message;
use eris_rules::Vote;

impl State {
    /// The client's step by a message. One that is out of place does nothing.
    #[tactic(auto, using(crate::proofs::ClientKinds::kind_in_place), unfolding(eris_rules::specs::Clients::client_step))]
    pub fn step(&mut self, message: Message) -> Result<Step, NoMemory>
        ensures { IfOk result (λ out. (self.new, out) ≡ after self.old (client_step self.old.me self.old.state message)) }
    {
        if is_in_place_at_client(&self.config, &message) {
            return self.take_message(message);
        }
        Ok(self.nothing())
    }

    fn take_message(&mut self, message: Message) -> Result<Step, NoMemory>
        requires { IsTrue (is_for_client message) }
        ensures { IfOk result (λ out. (self.new, out) ≡ after self.old (client_takes self.old.me self.old.state message)) }
    {
        match message {
            Message::Vouch {
                view,
                shard,
                replica,
                stamp,
                id,
                phase,
            } => self.vote(
                id,
                phase,
                Vote {
                    shard,
                    replica,
                    view,
                    stamp,
                    answer: None,
                },
            ),
            Message::Reply {
                view,
                shard,
                replica,
                stamp,
                id,
                phase,
                answer,
            } => self.vote(
                id,
                phase,
                Vote {
                    shard,
                    replica,
                    view,
                    stamp,
                    answer: Some(answer),
                },
            ),
            Message::Late {
                shard,
                id,
                phase,
                answer,
                ..
            } => self.late(id, phase, shard, answer),
            _ => Ok(self.nothing()),
        }
    }
}
