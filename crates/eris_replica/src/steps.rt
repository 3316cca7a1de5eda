//! A replica's step: which row of the rules an input comes to.
ghost use Rattle.std.specs.Prelude.{◌≡◌, IfOk, IsTrue};
ghost use Rattle.eris_member.specs.MemberInputs.{input_of, IsFor};
ghost use Rattle.eris_rules.specs.EpochMessages.{Stamped};
ghost use Rattle.eris_rules.specs.InPlace.{is_for_replica};
ghost use Rattle.eris_rules.specs.Replicas.{steps, takes_inner, takes, message_step, probe_step, timer_step, replica_step};
ghost use Rattle.eris_replica.specs.ReplicaValues.{after, steps_if, IsSenderKnown};

use crate::epochs::Epochs;
use eris_base::{Epoch, NoMemory, Row};
use eris_in_place::is_in_place_at_replica;
use eris_log::places::places_at;
use eris_member::MemberInput;
use eris_msg::{Message, Outgoing};
use eris_rules::ReplicaInput;
use eris_txn::Packet;

impl Epochs {
    /// The replica's step by an input.
    #[tactic(auto, unfolding(eris_rules::specs::Replicas::replica_step))]
    pub fn step(&mut self, input: ReplicaInput) -> Result<Row<Outgoing>, NoMemory>
        ensures { IfOk result (λ sends. (self.new, sends) ≡ after self.old (replica_step self.old.me self.old.state input)) }
    {
        match input {
            ReplicaInput::Message(message) => self.take_message(message),
            ReplicaInput::Probe => self.probe(),
            ReplicaInput::Suspect => self.timer(MemberInput::Suspect),
            ReplicaInput::Sync => self.timer(MemberInput::Sync),
        }
    }

    /// The timer for what it lacks: where it is stopped, that is the epoch that it waits for.
    #[tactic(auto, unfolding(eris_rules::specs::Replicas::probe_step))]
    fn probe(&mut self) -> Result<Row<Outgoing>, NoMemory>
        ensures { IfOk result (λ sends. (self.new, sends) ≡ after self.old (probe_step self.old.me self.old.state)) }
    {
        if self.is_stopped() {
            return self.ask_start(self.promised);
        }
        self.step_member(MemberInput::Probe)
    }

    /// Another timer, which a stopped replica doesn't have.
    #[tactic(auto, unfolding(eris_rules::specs::Replicas::timer_step))]
    fn timer(&mut self, input: MemberInput) -> Result<Row<Outgoing>, NoMemory>
        requires { IsFor self.old.state.epoch self.old.me.config input }
        ensures { IfOk result (λ sends. (self.new, sends) ≡ after self.old (timer_step self.old.me self.old.state (input_of input))) }
    {
        if self.is_stopped() {
            return Ok(Row::new(self.alloc));
        }
        self.step_member(input)
    }

    /// A step within the epoch.
    #[tactic(auto, unfolding(eris_rules::specs::Replicas::steps, eris_rules::specs::Replicas::steps_in))]
    fn step_member(&mut self, input: MemberInput) -> Result<Row<Outgoing>, NoMemory>
        requires { IsFor self.old.state.epoch self.old.me.config input }
        ensures { IfOk result (λ sends. (self.new, sends) ≡ after self.old (steps self.old.me self.old.state (input_of input))) }
    {
        self.member.step(input)
    }

    /// A step within the epoch, where this is its own and it takes part in it.
    #[tactic(auto, using(crate::proofs::Told::for_own))]
    fn take_inner(&mut self, epoch: Epoch, input: MemberInput) -> Result<Row<Outgoing>, NoMemory>
        requires { IsFor epoch self.old.me.config input }
        ensures { IfOk result (λ sends. (self.new, sends) ≡ after self.old (steps_if self.old.me self.old.state epoch (input_of input))) }
    {
        if self.takes_part_in(epoch) {
            return self.step_member(input);
        }
        Ok(Row::new(self.alloc))
    }

    /// A stamped packet, of its own epoch or another.
    #[tactic(auto, unfolding(eris_rules::specs::Replicas::takes_inner))]
    fn take_txn(&mut self, packet: Packet) -> Result<Row<Outgoing>, NoMemory>
        ensures { IfOk result (λ sends. (self.new, sends) ≡ after self.old
            (takes_inner self.old.me self.old.state (record { epoch = packet.stamp.epoch; message = Stamped packet }))) }
    {
        let epoch = packet.stamp.epoch;
        if self.takes_part_in(epoch) {
            return self.step_member(MemberInput::Txn(packet));
        }
        self.later_txn(epoch)
    }

    /// Takes a message, unless it is out of place.
    #[tactic(auto, using(crate::proofs::Told::in_place), unfolding(eris_rules::specs::Replicas::message_step))]
    fn take_message(&mut self, message: Message) -> Result<Row<Outgoing>, NoMemory>
        ensures { IfOk result (λ sends. (self.new, sends) ≡ after self.old (message_step self.old.me self.old.state message)) }
    {
        if is_in_place_at_replica(&self.member.config(), &message) {
            return self.take(message);
        }
        Ok(Row::new(self.alloc))
    }

    #[tactic(auto, using(crate::proofs::Told::of_epoch), unfolding(eris_rules::specs::Replicas::takes, eris_rules::specs::Replicas::takes_inner))]
    fn take(&mut self, message: Message) -> Result<Row<Outgoing>, NoMemory>
        requires kind { IsTrue (is_for_replica message) }
        requires sender { IsSenderKnown self.old.me.config message }
        ensures { IfOk result (λ sends. (self.new, sends) ≡ after self.old (takes self.old.me self.old.state message)) }
    {
        match message {
            Message::Txn { packet } => self.take_txn(packet),
            Message::Request { place } => {
                self.take_inner(place.epoch, MemberInput::Request(place))
            }
            Message::Found { packet } => {
                let epoch = packet.stamp.epoch;
                self.take_inner(epoch, MemberInput::Found(packet))
            }
            Message::Dropped { place } => {
                self.take_inner(place.epoch, MemberInput::Dropped(place))
            }
            Message::ViewChange {
                replica,
                view,
                part,
            } => {
                let epoch = part.epoch();
                let input = MemberInput::ViewChange {
                    replica,
                    view,
                    part,
                };
                self.take_inner(epoch, input)
            }
            Message::StartView { view, part } => {
                let epoch = part.epoch();
                self.take_inner(epoch, MemberInput::StartView { view, part })
            }
            Message::SyncAsk { epoch, view } => {
                self.take_inner(epoch, MemberInput::SyncAsk(view))
            }
            Message::Ack {
                replica,
                epoch,
                view,
                length,
            } => {
                let input = MemberInput::Ack {
                    replica,
                    view,
                    length,
                };
                self.take_inner(epoch, input)
            }
            Message::Settled {
                epoch,
                view,
                number,
                places,
            } => {
                let places = places_at(self.alloc, epoch, places.as_slice())?;
                let input = MemberInput::Settled {
                    view,
                    number,
                    places,
                };
                self.take_inner(epoch, input)
            }
            Message::EpochAsk { epoch } => self.epoch_ask(epoch),
            Message::StartEpoch {
                epoch,
                shard,
                packets,
            } => self.start_epoch(epoch, shard, packets),
            Message::Ask { .. }
            | Message::Vouch { .. }
            | Message::Reply { .. }
            | Message::Late { .. }
            | Message::Find { .. }
            | Message::Has { .. }
            | Message::TempDropped { .. }
            | Message::NewEpoch { .. }
            | Message::EpochState { .. } => Ok(Row::new(self.alloc)),
        }
    }
}
