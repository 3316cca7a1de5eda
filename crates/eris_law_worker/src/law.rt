ghost use Rattle.std.specs.Prelude.{◌≡◌, ℕ, Option, Some, false, not, List, [], ◌∷◌, ◌++◌, slice_get, unwrap_or};
ghost use Rattle.std.specs.List.{filter};
ghost use Rattle.eris_base.specs.declared.ids.Epoch.{Epoch};
ghost use Rattle.eris_base.specs.declared.ids.Node.{Node};
ghost use Rattle.eris_codec.specs.Codecs.{whole};
ghost use Rattle.eris_event.specs.declared.event.Event.{Event};
ghost use Rattle.eris_journal.specs.Lists.{own};
ghost use Rattle.eris_journal.specs.Packets.{is_fetched};
ghost use Rattle.eris_journal.specs.Parts.{Refused};
ghost use Rattle.eris_journal.specs.declared.fetched.Fetched.{Fetched};
ghost use Rattle.eris_msg.specs.Messages.{message};
ghost use Rattle.eris_msg.specs.declared.outgoing.Outgoing.{Outgoing};
ghost use Rattle.eris_law_live.specs.FirstDeliveries.{delivers, is_delivered};
ghost use Rattle.eris_law_live.specs.LiveBooks.{IsLiveBook, LiveEntries, all_events, all_sent};
ghost use Rattle.eris_law_live.specs.LiveNodes.{number_of};
ghost use Rattle.eris_law_live.specs.LiveSteps.{events_of, hears, own_step, read_of, replay};
ghost use Rattle.eris_law_live.specs.OwnStates.{OwnState, own_after, own_newest};
ghost use Rattle.eris_law_live.specs.declared.entry.LiveEntry.{LiveEntry};
ghost use Rattle.eris_law_worker.specs.Undelivered.{AreFetched, undelivered_of};

/// A node goes on by its own step: after one more entry it is what that step leaves of it; and one
/// more fetched packet changes nothing of what it is. The call does nothing; its contract is the
/// law.
pub fn fetches_change_no_replay()
    ensures entry { (node : Node) (fetched : List Fetched) (entries : List LiveEntry) (entry : LiveEntry) → replay node fetched (entries ++ entry ∷ []) ≡ own_after (own_step node fetched (replay node fetched entries) entry.event) (replay node fetched entries) }
    ensures packet { (node : Node) (fetched : List Fetched) (entries : List LiveEntry) (packet : Fetched) → AreFetched fetched (events_of entries) → replay node (fetched ++ packet ∷ []) entries ≡ replay node fetched entries }
{}

/// The step that delivers a fetched packet hears what the packet's bytes are read as. The call does
/// nothing; its contract is the law.
pub fn fetched_bytes_are_heard()
    ensures { (node : Node) (some more : List Fetched) (packet : Fetched) (state : OwnState) (epoch : Option Epoch) → is_fetched packet.number some ≡ false → own_step node (some ++ packet ∷ more) state (Event.Deliver packet.number epoch) ≡ hears (unwrap_or epoch (own_newest state)) node (read_of (whole message packet.message)) }
{}

/// A fetched packet that no event delivered is one more undelivered packet, behind the others; and
/// an event takes away those that it delivers. The call does nothing; its contract is the law.
pub fn undelivered_packets_are_kept()
    ensures packet { (fetched : List Fetched) (events : List Event) (packet : Fetched) → is_delivered events packet.number ≡ false → undelivered_of (fetched ++ packet ∷ []) events ≡ undelivered_of fetched events ++ packet ∷ [] }
    ensures event { (fetched : List Fetched) (events : List Event) (event : Event) → undelivered_of fetched (events ++ event ∷ []) ≡ filter (λ packet. not (delivers packet.number event)) (undelivered_of fetched events) }
{}

/// In the book of a live run a packet was delivered exactly where an event of the node that it went
/// to delivered it; so the node itself knows whether a delivery is the first. The call does
/// nothing; its contract is the law.
pub fn own_deliveries_are_all()
    ensures { (entries : LiveEntries) (fetches : List (ℕ × Fetched)) (refused : Option (Refused LiveEntry)) (book : IsLiveBook entries fetches refused) (number : ℕ) (one : Outgoing) → slice_get (all_sent entries) number ≡ Some one → is_delivered (all_events entries) number ≡ is_delivered (events_of (own (number_of one.to) entries)) number }
{}
