//! Which kinds of message each kind of node takes.
ghost use Rattle.std.specs.Prelude.{◌≡◌};
ghost use Rattle.eris_rules.specs.InPlace.{is_for_replica, is_for_coordinator, is_for_client};

use eris_msg::Message;

pub fn is_for_replica(message: &Message) -> bool
    ensures { result ≡ is_for_replica message.now }
{
    matches!(
        message,
        Message::Txn { .. }
            | Message::Request { .. }
            | Message::Found { .. }
            | Message::Dropped { .. }
            | Message::ViewChange { .. }
            | Message::StartView { .. }
            | Message::SyncAsk { .. }
            | Message::Ack { .. }
            | Message::Settled { .. }
            | Message::EpochAsk { .. }
            | Message::StartEpoch { .. }
    )
}

pub fn is_for_coordinator(message: &Message) -> bool
    ensures { result ≡ is_for_coordinator message.now }
{
    matches!(
        message,
        Message::Find { .. }
            | Message::Has { .. }
            | Message::TempDropped { .. }
            | Message::NewEpoch { .. }
            | Message::EpochState { .. }
    )
}

pub fn is_for_client(message: &Message) -> bool
    ensures { result ≡ is_for_client message.now }
{
    matches!(
        message,
        Message::Vouch { .. } | Message::Reply { .. } | Message::Late { .. }
    )
}
