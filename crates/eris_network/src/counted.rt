ghost use Rattle.std.specs.Prelude.{◌≡◌, ℕ, nat_lt, ◌^◌};
ghost use Rattle.eris_network.specs.Counted.{is_counted, is_short, is_part_counted};

use eris_log::Part;
use eris_msg::Message;

/// Whether each list of packets and places in the message is short enough to be counted in four bytes. One
/// that isn't is longer than any message.
pub fn is_counted(message: &Message) -> bool
    ensures { result ≡ is_counted message.now }
{
    match message {
        Message::ViewChange { part, .. }
        | Message::StartView { part, .. }
        | Message::EpochState { part, .. } => is_part_counted(part),
        Message::Settled { places, .. } => is_short(places.len()),
        Message::StartEpoch { packets, .. } => is_short(packets.len()),
        _ => true,
    }
}

fn is_part_counted(part: &Part) -> bool
    ensures { result ≡ is_part_counted part.now }
{
    is_short(part.held_list().len())
        && is_short(part.temp().len())
        && is_short(part.fnd().len())
        && is_short(part.perm().len())
}

fn is_short(len: usize) -> bool
    ensures { result ≡ nat_lt len (2 ^ 32) }
{
    len <= u32::MAX as usize
}
