ghost use Rattle.std.specs.Prelude.{◌≡◌};
ghost use Rattle.eris_rules.specs.InPlace.{is_sound, is_in_place_at_replica, is_in_place_at_coordinator, is_in_place_at_client};

use crate::kinds::{is_for_client, is_for_coordinator, is_for_replica};
use crate::known::knows_all;
use crate::logs::has_right_log;
use crate::participants::name_participants;
use crate::parts::has_right_part;
use eris_base::Config;
use eris_msg::Message;

/// Whether the message is in place at a replica: it is of a kind that replicas take, and sound. It is sound
/// where each shard, replica and client that it names is of the config; the stamp of each packet in it names
/// exactly the participants of the packet's body; a part in it holds only packets of its epoch, each at the
/// number that its stamp gives the part's shard; and the log in it, if it starts an epoch, has packets that
/// name its shard, strictly ascend by epoch and number on it, and are of lower epochs. It takes no memory.
#[tactic(auto, unfolding(eris_rules::specs::InPlace::is_in_place_at_replica))]
pub fn is_in_place_at_replica(config: &Config, message: &Message) -> bool
    ensures { result ≡ is_in_place_at_replica config.now message.now }
{
    is_for_replica(message) && is_sound(config, message)
}

/// Whether the message is in place at the coordinator: it is of a kind that the coordinator takes, and sound
/// as at a replica. It takes no memory.
#[tactic(auto, unfolding(eris_rules::specs::InPlace::is_in_place_at_coordinator))]
pub fn is_in_place_at_coordinator(config: &Config, message: &Message) -> bool
    ensures { result ≡ is_in_place_at_coordinator config.now message.now }
{
    is_for_coordinator(message) && is_sound(config, message)
}

/// Whether the message is in place at a client, as far as that doesn't depend on what the client waits for:
/// it is of a kind that clients take, and sound as at a replica. It takes no memory.
#[tactic(auto, unfolding(eris_rules::specs::InPlace::is_in_place_at_client))]
pub fn is_in_place_at_client(config: &Config, message: &Message) -> bool
    ensures { result ≡ is_in_place_at_client config.now message.now }
{
    is_for_client(message) && is_sound(config, message)
}

#[tactic(auto, unfolding(eris_rules::specs::InPlace::is_sound))]
fn is_sound(config: &Config, message: &Message) -> bool
    ensures { result ≡ is_sound config.now message.now }
{
    knows_all(config, message)
        && name_participants(message)
        && has_right_part(message)
        && has_right_log(message)
}
