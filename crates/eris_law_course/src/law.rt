ghost use Rattle.std.specs.Prelude.{◌≡◌, ◌≤◌, ℕ, suc, true, Some, None, List, slice_get, IsTrue};
ghost use Rattle.eris_base.specs.declared.ids.ClientId.{ClientId};
ghost use Rattle.eris_base.specs.declared.ids.Node.{Node};
ghost use Rattle.eris_base.specs.declared.ids.TxnId.{TxnId};
ghost use Rattle.eris_base.specs.ConfigLimits.{ConfigValue};
ghost use Rattle.eris_base.specs.Each.{Each};
ghost use Rattle.eris_txn.specs.declared.body.Body.{Body};
ghost use Rattle.eris_txn.specs.declared.history.HistoryEvent.{HistoryEvent};
ghost use Rattle.eris_txn.specs.declared.txn.Txn.{Txn};
ghost use Rattle.eris_audit.specs.Histories.{first_submit, is_submitted, txn_of};
ghost use Rattle.eris_msg.specs.declared.message.Message.{Message};
ghost use Rattle.eris_event.specs.declared.event.Event.{Event};
ghost use Rattle.eris_rules.specs.InPlace.{is_in_place_at_client};
ghost use Rattle.eris_rules.specs.Runs.{run};
ghost use Rattle.eris_rules.specs.Worlds.{WorldState, client_at};
ghost use Rattle.eris_serial.specs.Evidence.{IsIn, SubmitsWell, BodyOrigin, HasCommitOrigin};
ghost use Rattle.eris_law_epoch.specs.Members.{In};
ghost use Rattle.eris_law_agreement.specs.WorldMoments.{world_at};
ghost use Rattle.eris_law_client.specs.Bridges.{IsHistoryWith};
ghost use Rattle.eris_law_client.specs.ClientRuns.{AbortsOthers, Gets, history_to, moment, step_at};
ghost use Rattle.eris_law_course.specs.Accepted.{AreEventsFit, IsAccepted, IsThere};
ghost use Rattle.eris_law_course.specs.Inputs.{identity, inputs_of};
ghost use Rattle.eris_law_course.specs.Submitted.{HasAsked, IsAmongSent, IsOfClient};
ghost use Rattle.eris_base.specs.declared.ids.ShardId.{ShardId};
ghost use Rattle.eris_txn.specs.declared.packet.Packet.{Packet};
ghost use Rattle.eris_locks.specs.Shards.{names_shard};
ghost use Rattle.eris_rules.specs.WorldOrders.{stamping_list};
ghost use Rattle.eris_serial.specs.Transactions.{takes_part};
ghost use Rattle.eris_law_course.specs.Asked.{WasAsked};

/// A run of a whole world is, for each of its clients, a course of that client's own: it is given one input for each
/// event, and its state at each moment is that of its course. No event of a run is refused; so no client is called to
/// abort a transaction of its own. Each Ask that was sent is of a client, and its body rests on that client's course. A
/// message that came to a client in place was sent. The call does nothing; its
/// contract is the law.
pub fn runs_are_courses()
    ensures accepted { (config : ConfigValue) (events : List Event) (world : WorldState) → run config events ≡ Some world → IsAccepted config events }
    ensures course { (config : ConfigValue) (events : List Event) (client : ClientId) → IsThere config client → (k : ℕ) → client_at (world_at config events k).clients client ≡ Some (moment (identity config client) (inputs_of config events client) k) }
    ensures fair { (config : ConfigValue) (events : List Event) → IsAccepted config events → (client : ClientId) → AbortsOthers (identity config client) (inputs_of config events client) }
    ensures asked { (config : ConfigValue) (events : List Event) → IsAccepted config events → (k : ℕ) (node : Node) (asker : ClientId) (id : TxnId) (body : Body) → In (record { to = node; message = Message.Ask asker id body }) (world_at config events k).sent → HasAsked config events k asker id body }
    ensures came { (config : ConfigValue) (events : List Event) (client : ClientId) (k at : ℕ) (message : Message) → suc at ≤ k → slice_get (inputs_of config events client) at ≡ Some (Gets message) → is_in_place_at_client config message ≡ true → IsAmongSent (world_at config events k).sent message }
{}

/// The history of a world is the merge of its clients' own histories: each event of it is one of a client, and each of a
/// client's stands in it. The first submit of an id is that of its owner's history; a client submits only ids that
/// nobody submitted; and what was submitted can be run. So at every moment it is a history of all clients, as the laws of
/// one client ask. The call does nothing; its contract is the law.
pub fn histories_are_merged()
    ensures from { (config : ConfigValue) (events : List Event) (k : ℕ) (event : HistoryEvent) → IsIn event (world_at config events k).history → IsOfClient config events k event }
    ensures to { (config : ConfigValue) (events : List Event) (client : ClientId) → IsThere config client → (k : ℕ) (event : HistoryEvent) → IsIn event (history_to (identity config client) (inputs_of config events client) k) → IsIn event (world_at config events k).history }
    ensures agree { (config : ConfigValue) (events : List Event) → IsAccepted config events → (id : TxnId) → IsThere config id.client → (k : ℕ) → first_submit (world_at config events k).history id ≡ first_submit (history_to (identity config id.client) (inputs_of config events id.client) k) id }
    ensures new { (config : ConfigValue) (events : List Event) → IsAccepted config events → (client : ClientId) → IsThere config client → (k : ℕ) (id : TxnId) (txn : Txn) → (step_at (identity config client) (inputs_of config events client) k).event ≡ Some (HistoryEvent.Submit id txn) → first_submit (world_at config events k).history id ≡ None }
    ensures well { (config : ConfigValue) (events : List Event) → IsAccepted config events → AreEventsFit events → (k : ℕ) → Each SubmitsWell (world_at config events k).history }
    ensures with_each { (config : ConfigValue) (events : List Event) → IsAccepted config events → AreEventsFit events → (client : ClientId) → IsThere config client → (k : ℕ) → IsHistoryWith (identity config client) (inputs_of config events client) k (world_at config events k).history }
{}

/// Each packet that was stamped by a moment comes from an Ask of a client, and has its origin in the history: its id was
/// submitted, its stamp names exactly the shards that take part in its id's transaction, its body is that transaction's,
/// and a Commit's writes are made of values that a Read of the history has. The call does nothing; its contract is the
/// law.
pub fn packets_were_asked()
    ensures asked { (config : ConfigValue) (events : List Event) → IsAccepted config events → (k : ℕ) (packet : Packet) → In packet (stamping_list (world_at config events k).stampings) → WasAsked config events k packet }
    ensures submitted { (config : ConfigValue) (events : List Event) → IsAccepted config events → (k : ℕ) (packet : Packet) → WasAsked config events k packet → IsTrue (is_submitted (world_at config events k).history packet.id) }
    ensures shards { (config : ConfigValue) (events : List Event) → IsAccepted config events → (k : ℕ) (packet : Packet) → WasAsked config events k packet → (shard : ShardId) → names_shard shard packet ≡ takes_part shard (txn_of (world_at config events k).history packet.id) }
    ensures bodies { (config : ConfigValue) (events : List Event) → IsAccepted config events → (k : ℕ) (packet : Packet) → WasAsked config events k packet → BodyOrigin (txn_of (world_at config events k).history packet.id) packet.body }
    ensures commits { (config : ConfigValue) (events : List Event) → IsAccepted config events → (k : ℕ) (packet : Packet) → WasAsked config events k packet → HasCommitOrigin (world_at config events k).history packet.id packet.body }
{}
