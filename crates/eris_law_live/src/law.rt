ghost use Rattle.std.specs.Prelude.{◌≡◌, ◌<◌, ◌≤◌, ◌+◌, ℕ, Option, None, Some, true, List, [], ◌∷◌, ◌++◌, length, map, slice_get};
ghost use Rattle.eris_base.specs.Each.{Each};
ghost use Rattle.eris_base.specs.declared.ids.Node.{Node};
ghost use Rattle.eris_event.specs.declared.event.Event.{Event};
ghost use Rattle.eris_event.specs.EventRanges.{fits_event};
ghost use Rattle.eris_journal.specs.Lists.{own};
ghost use Rattle.eris_journal.specs.Packets.{sent};
ghost use Rattle.eris_journal.specs.Parts.{Refused};
ghost use Rattle.eris_journal.specs.declared.add_fault.AddFault.{AddFault};
ghost use Rattle.eris_journal.specs.declared.fetched.Fetched.{Fetched};
ghost use Rattle.eris_msg.specs.declared.outgoing.Outgoing.{Outgoing};
ghost use Rattle.eris_msg.specs.Spellings.{message_fits};
ghost use Rattle.eris_law_agreement.specs.NodeSteps.{sends_of_step, step_of};
ghost use Rattle.eris_rules.specs.Happenings.{happens};
ghost use Rattle.eris_rules.specs.Refusals.{cause, limit_met, refusal};
ghost use Rattle.eris_rules.specs.Runs.{run};
ghost use Rattle.eris_rules.specs.Worlds.{WorldState};
ghost use Rattle.eris_law_live.specs.declared.entry.LiveEntry.{LiveEntry};
ghost use Rattle.eris_law_live.specs.FirstDeliveries.{IsOwnDelivery, firsts, is_delivered, undelivered};
ghost use Rattle.eris_law_live.specs.LiveBooks.{IsLiveBook, LiveEntries, WasSent, all_events, all_sent, is_live, live_sends, node_of_event, packet_of, refusal_of};
ghost use Rattle.eris_law_live.specs.LiveNodes.{live_config, node_of, number_of};
ghost use Rattle.eris_law_live.specs.LiveSteps.{IsLiveStep, own_step, replay};
ghost use Rattle.eris_law_live.specs.OwnStates.{OwnState, own_after, own_sends, own_state};

/// Ten nodes have the numbers from 0 to 9, and each of these numbers is one node's. The call does nothing; its
/// contract is the law.
pub fn nodes_have_numbers()
    ensures numbers { (number : ℕ) (node : Node) → node_of number ≡ Some node → (number_of node ≡ number) × (number < 10) }
    ensures nodes { (node : Node) → number_of node < 10 → node_of (number_of node) ≡ Some node }
{}

/// Where nobody has crashed, an event of a live run changes only the node whose step it is: that one is as its step
/// leaves it, and what is sent is what the step sends. The call does nothing; its contract is the law.
pub fn events_are_steps()
    ensures left { (world : WorldState) (event : Event) (node : Node) (state : OwnState) → world.crashed ≡ [] → is_live event ≡ true → node_of_event world.sent event ≡ Some node → own_state world node ≡ Some state → own_state (happens live_config world event) node ≡ Some (own_after (step_of world event) state) }
    ensures sends { (world : WorldState) (event : Event) (node : Node) (state : OwnState) → world.crashed ≡ [] → is_live event ≡ true → node_of_event world.sent event ≡ Some node → own_state world node ≡ Some state → sends_of_step live_config world (step_of world event) ≡ own_sends (step_of world event) state }
    ensures others { (world : WorldState) (event : Event) (node other : Node) → world.crashed ≡ [] → is_live event ≡ true → node_of_event world.sent event ≡ Some node → (other ≡ node → ⊥) → own_state (happens live_config world event) other ≡ own_state world other }
{}

/// In the book of a live run each node is the replay of its own entries over its own fetched packets; and a step that
/// it makes next is the one that it knows itself. The call does nothing; its contract is the law.
pub fn nodes_are_replays()
    ensures replayed { (entries : LiveEntries) (fetches : List (ℕ × Fetched)) (refused : Option (Refused LiveEntry)) (book : IsLiveBook entries fetches refused) (number : ℕ) (node : Node) → node_of number ≡ Some node → own_state book.world node ≡ Some (replay node (own number fetches) (own number entries)) }
    ensures told { (entries : LiveEntries) (fetches : List (ℕ × Fetched)) (refused : Option (Refused LiveEntry)) (book : IsLiveBook entries fetches refused) (number : ℕ) (entry : LiveEntry) (step : IsLiveStep number (own number entries) (own number fetches) entry) → step_of book.world entry.event ≡ own_step step.node (own number fetches) (replay step.node (own number fetches) (own number entries)) entry.event }
{}

/// A node's step after the book of a live run has no cause to be refused, so it is refused exactly for a limit that
/// what was sent and what it sends would pass. The call does nothing; its contract is the law.
pub fn steps_are_taken()
    ensures cause { (entries : LiveEntries) (fetches : List (ℕ × Fetched)) (refused : Option (Refused LiveEntry)) (book : IsLiveBook entries fetches refused) (number : ℕ) (entry : LiveEntry) → IsLiveStep number (own number entries) (own number fetches) entry → cause live_config book.world entry.event ≡ None }
    ensures refusal { (entries : LiveEntries) (fetches : List (ℕ × Fetched)) (refused : Option (Refused LiveEntry)) (book : IsLiveBook entries fetches refused) (number : ℕ) (entry : LiveEntry) → IsLiveStep number (own number entries) (own number fetches) entry → refusal live_config book.world entry.event ≡ limit_met (all_sent entries ++ entry.sent) }
{}

/// The empty book is that of a live run, and it stays one: with a step of a node that no limit refuses, with one that
/// a limit refuses and that is kept with its cause, and with a packet that a node fetches. The call does nothing; its
/// contract is the law.
pub fn books_grow()
    ensures empty { IsLiveBook [] [] None }
    ensures added { (entries : LiveEntries) (fetches : List (ℕ × Fetched)) (number : ℕ) (entry : LiveEntry) → IsLiveBook entries fetches None → IsLiveStep number (own number entries) (own number fetches) entry → limit_met (all_sent entries ++ entry.sent) ≡ None → IsLiveBook (entries ++ (number, entry) ∷ []) fetches None }
    ensures refused { (entries : LiveEntries) (fetches : List (ℕ × Fetched)) (number : ℕ) (entry : LiveEntry) (fault : AddFault) → IsLiveBook entries fetches None → IsLiveStep number (own number entries) (own number fetches) entry → limit_met (all_sent entries ++ entry.sent) ≡ Some (refusal_of fault) → IsLiveBook entries fetches (Some (number, (entry, fault))) }
    ensures fetched { (entries : LiveEntries) (fetches : List (ℕ × Fetched)) (refused : Option (Refused LiveEntry)) (x : ℕ × Fetched) → IsLiveBook entries fetches refused → WasSent (all_sent entries) x → IsLiveBook entries (fetches ++ x ∷ []) refused }
{}

/// What a journal sees as sent is what the world of the book has sent, each message with its node's number and its
/// spelling; and a packet that is seen there was sent. The call does nothing; its contract is the law.
pub fn books_have_what_was_sent()
    ensures world { (entries : LiveEntries) (fetches : List (ℕ × Fetched)) (refused : Option (Refused LiveEntry)) (book : IsLiveBook entries fetches refused) → book.world.sent ≡ all_sent entries }
    ensures packets { (entries : LiveEntries) → sent live_sends entries ≡ map packet_of (all_sent entries) }
    ensures one { (entries : LiveEntries) (x : ℕ × Fetched) (one : Outgoing) → slice_get (all_sent entries) x.1.number ≡ Some one → message_fits one.message ≡ true → slice_get (sent live_sends entries) x.1.number ≡ Some (x.0, x.1.message) → WasSent (all_sent entries) x }
{}

/// After a run of events of the live kinds nobody has crashed, and the numbers that wait are those of the sent packets
/// that no event delivered, ascending. The call does nothing; its contract is the law.
pub fn undelivered_packets_wait()
    ensures crashed { (events : List Event) (world : WorldState) → Each (λ event. is_live event ≡ true) events → run live_config events ≡ Some world → world.crashed ≡ [] }
    ensures waiting { (events : List Event) (world : WorldState) → Each (λ event. is_live event ≡ true) events → run live_config events ≡ Some world → world.waiting ≡ undelivered events (length world.sent) }
    ensures sent { (events : List Event) (world : WorldState) (number : ℕ) → Each (λ event. is_live event ≡ true) events → run live_config events ≡ Some world → is_delivered events number ≡ true → number < length world.sent }
{}

/// In a run of events of the live kinds the first deliveries are at most as many as the sent packets; and those of a
/// list are those of its first part and of what comes behind it. The call does nothing; its contract is the law.
pub fn first_deliveries_are_few()
    ensures few { (events : List Event) (world : WorldState) → Each (λ event. is_live event ≡ true) events → run live_config events ≡ Some world → firsts [] events ≤ length world.sent }
    ensures parts { (before some more : List Event) → firsts before (some ++ more) ≡ firsts before some + firsts (before ++ some) more }
{}

/// In the book of a live run a packet is delivered by the node that it went to, and by no other. The call does nothing;
/// its contract is the law.
pub fn packets_are_delivered_by_their_nodes()
    ensures own { (entries : LiveEntries) (fetches : List (ℕ × Fetched)) (refused : Option (Refused LiveEntry)) (book : IsLiveBook entries fetches refused) → Each (λ x. IsOwnDelivery book.world.sent x.0 x.1.event) entries }
{}

/// The events of the book of a live run are of its kinds, and each has a line in a script of version 1. The call does
/// nothing; its contract is the law.
pub fn books_have_live_events()
    ensures kinds { (entries : LiveEntries) (fetches : List (ℕ × Fetched)) (refused : Option (Refused LiveEntry)) (book : IsLiveBook entries fetches refused) → Each (λ event. is_live event ≡ true) (all_events entries) }
    ensures ranges { (entries : LiveEntries) (fetches : List (ℕ × Fetched)) (refused : Option (Refused LiveEntry)) (book : IsLiveBook entries fetches refused) → Each (λ event. fits_event 1 event ≡ true) (all_events entries) }
{}
