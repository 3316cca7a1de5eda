ghost use Rattle.std.specs.Prelude.{◌≡◌, ◌≤◌, ◌&&◌, ℕ, suc, true, Option, Some, List, ◌∷◌, map, IsTrue};
ghost use Rattle.std.specs.List.{range_with_len};
ghost use Rattle.eris_base.specs.declared.ids.ShardId.{ShardId};
ghost use Rattle.eris_base.specs.declared.ids.TxnId.{TxnId};
ghost use Rattle.eris_base.specs.Each.{Each};
ghost use Rattle.eris_base.specs.Quorums.{learner_of};
ghost use Rattle.eris_txn.specs.declared.answer.Answer.{Answer};
ghost use Rattle.eris_txn.specs.declared.body.Body.{Body};
ghost use Rattle.eris_txn.specs.declared.history.HistoryEvent.{HistoryEvent};
ghost use Rattle.eris_txn.specs.declared.op.OpAnswer.{OpAnswer};
ghost use Rattle.eris_txn.specs.declared.packet.Packet.{Packet};
ghost use Rattle.eris_txn.specs.declared.txn.Txn.{Txn};
ghost use Rattle.eris_txn.specs.Bodies.{any_on, has_shard, keys_of, participants_of};
ghost use Rattle.eris_audit.specs.Histories.{first_submit, is_submitted, txn_of};
ghost use Rattle.eris_locks.specs.States.{phase_of};
ghost use Rattle.eris_msg.specs.declared.message.Message.{Message};
ghost use Rattle.eris_msg.specs.declared.outgoing.Outgoing.{Outgoing};
ghost use Rattle.eris_rules.specs.declared.transaction.Transaction.{Transaction};
ghost use Rattle.eris_rules.specs.declared.transaction.Vote.{Vote};
ghost use Rattle.eris_rules.specs.Assembling.{assemble};
ghost use Rattle.eris_rules.specs.Clients.{own_id};
ghost use Rattle.eris_rules.specs.ClientStates.{ClientIdentity, body_of, transaction_at};
ghost use Rattle.eris_rules.specs.InPlace.{names_exactly};
ghost use Rattle.eris_rules.specs.Known.{knows_replica};
ghost use Rattle.eris_rules.specs.Votes.{is_complete, role_fits};
ghost use Rattle.eris_serial.specs.Evidence.{BodyOrigin, Counted, HasCommitOrigin, IsIn};
ghost use Rattle.eris_serial.specs.Joining.{TakesInTurn};
ghost use Rattle.eris_serial.specs.Transactions.{takes_part};
ghost use Rattle.eris_law_client.specs.Bridges.{CountedIsSaid, IsHistoryWith};
ghost use Rattle.eris_law_client.specs.ClientRuns.{AbortsOthers, ClientInput, history_to, moment, sent_to, step_at};
ghost use Rattle.eris_law_client.specs.Counts.{CameFor, CountedByVotes, CountedOn, IsVoteFor};
ghost use Rattle.eris_law_client.specs.Courses.{IsOwn, StandsAt, events_of, submitted_ids};
ghost use Rattle.eris_law_client.specs.Rests.{AskRests, EventRests, HappenedSo, IsAsk, SentSo};

/// How far each transaction is, at every moment of a client that is never called to abort one of its own: of
/// its own id the events are exactly those of its course, in their order; of another's, which it was called to
/// abort, at most one, which tells what became of it. Its own ids are submitted in order, numbered from 1. An
/// id's transaction is that of its first event, and what stands in the history stays. The call does nothing;
/// its contract is the law.
pub fn courses_stand()
    ensures stands { (me : ClientIdentity) (inputs : List ClientInput) → AbortsOthers me inputs → (number : ℕ) (id : TxnId) → StandsAt me inputs number id (events_of id (history_to me inputs number)) (transaction_at (moment me inputs number) id) }
    ensures numbered { (me : ClientIdentity) (inputs : List ClientInput) (number : ℕ) → submitted_ids (history_to me inputs number) ≡ map (own_id me) (range_with_len 1 (moment me inputs number).submitted) }
    ensures submitted { (me : ClientIdentity) (inputs : List ClientInput) (number : ℕ) (id : TxnId) (txn : Txn) (rest : List HistoryEvent) → events_of id (history_to me inputs number) ≡ HistoryEvent.Submit id txn ∷ rest → first_submit (history_to me inputs number) id ≡ Some txn }
    ensures there { (id : TxnId) (history : List HistoryEvent) (event : HistoryEvent) → IsIn event (events_of id history) → IsIn event history }
    ensures event_stays { (me : ClientIdentity) (inputs : List ClientInput) (early late : ℕ) → early ≤ late → (event : HistoryEvent) → IsIn event (history_to me inputs early) → IsIn event (history_to me inputs late) }
    ensures submit_stays { (me : ClientIdentity) (inputs : List ClientInput) (early late : ℕ) → early ≤ late → (id : TxnId) (txn : Txn) → first_submit (history_to me inputs early) id ≡ Some txn → first_submit (history_to me inputs late) id ≡ Some txn }
{}

/// What a client counts came to it. Each vote of a transaction is of a message that it was given, in place, while
/// that transaction was open in that half; its shard takes part, its stamp names exactly the shards that do, and
/// its voter is a replica of the config. A shard is counted by one Late, or by one Reply of the learner of a view
/// with the votes of at least f+1 different replicas of the same view and stamp, that Reply's among them. Where a
/// half is complete, every shard of its keys is counted. The call does nothing; its contract is the law.
pub fn counts_what_came()
    ensures votes { (me : ClientIdentity) (inputs : List ClientInput) → AbortsOthers me inputs → (number : ℕ) (id : TxnId) (transaction : Transaction) → transaction_at (moment me inputs number) id ≡ Some transaction → Each (IsVoteFor me inputs number id (body_of transaction.course)) transaction.votes }
    ensures counted { (me : ClientIdentity) (inputs : List ClientInput) → AbortsOthers me inputs → (number : ℕ) (id : TxnId) (transaction : Transaction) → transaction_at (moment me inputs number) id ≡ Some transaction → Each (λ pair. CountedOn me inputs number id (body_of transaction.course) pair.0 pair.1) transaction.counted }
    ensures whole { (me : ClientIdentity) (inputs : List ClientInput) → AbortsOthers me inputs → (number : ℕ) (id : TxnId) (transaction : Transaction) → transaction_at (moment me inputs number) id ≡ Some transaction → is_complete transaction ≡ true → (shard : ShardId) → IsTrue (any_on (keys_of (body_of transaction.course)) shard) → (answer : Answer) × CountedOn me inputs number id (body_of transaction.course) shard answer }
    ensures fitting { (me : ClientIdentity) (inputs : List ClientInput) (number : ℕ) (id : TxnId) (body : Body) (vote : Vote) → IsVoteFor me inputs number id body vote → IsTrue (has_shard (participants_of body) vote.shard && (names_exactly vote.stamp (participants_of body) && role_fits me.config.f body vote vote.answer)) }
    ensures voter { (me : ClientIdentity) (inputs : List ClientInput) (number : ℕ) (id : TxnId) (body : Body) (vote : Vote) → IsVoteFor me inputs number id body vote → IsTrue (knows_replica me.config vote.replica) }
    ensures reply { (me : ClientIdentity) (inputs : List ClientInput) (number : ℕ) (id : TxnId) (body : Body) (shard : ShardId) (answer : Answer) → (by : CountedByVotes me inputs number id body shard answer) → CameFor me inputs number id body (Message.Reply by.view shard (learner_of by.view me.config.f) by.stamp id (phase_of body) answer) }
{}

/// What each event of a client's history rests on: the step in which it came, and there the events of its id
/// before, the counted shards, and an answer that is joined of what they gave. The call does nothing; its
/// contract is the law.
pub fn events_rest()
    ensures happened { (me : ClientIdentity) (inputs : List ClientInput) → AbortsOthers me inputs → (number : ℕ) (event : HistoryEvent) → IsIn event (history_to me inputs number) → HappenedSo me inputs number event }
    ensures rests { (me : ClientIdentity) (inputs : List ClientInput) → AbortsOthers me inputs → (number : ℕ) (event : HistoryEvent) → (step_at me inputs number).event ≡ Some event → EventRests me inputs number event }
    ensures joins_answers { TakesInTurn {A = OpAnswer} assemble }
    ensures joins_values { TakesInTurn {A = Option ℕ} assemble }
{}

/// What each message that a client sends rests on: it is an Ask of its own, whose body is the present half of one
/// of its transactions, or the Abort of another's that it was called for. All bodies of an own id name the shards
/// that take part in its transaction; each is what evidence asks of it. The call does nothing; its contract is
/// the law.
pub fn asks_rest()
    ensures sent { (me : ClientIdentity) (inputs : List ClientInput) → AbortsOthers me inputs → (number : ℕ) (send : Outgoing) → IsIn send (sent_to me inputs number) → SentSo me inputs number send }
    ensures asks { (me : ClientIdentity) (inputs : List ClientInput) → AbortsOthers me inputs → (number : ℕ) (send : Outgoing) → IsIn send (step_at me inputs number).sends → IsAsk me inputs (suc number) send }
    ensures shards { (me : ClientIdentity) (inputs : List ClientInput) (number : ℕ) (id : TxnId) (body : Body) → AskRests me inputs number id body → IsOwn me id → (shard : ShardId) → has_shard (participants_of body) shard ≡ takes_part shard (txn_of (history_to me inputs number) id) }
    ensures submitted { (me : ClientIdentity) (inputs : List ClientInput) (number : ℕ) (id : TxnId) (body : Body) → AskRests me inputs number id body → IsOwn me id → IsTrue (is_submitted (history_to me inputs number) id) }
    ensures bodies { (me : ClientIdentity) (inputs : List ClientInput) (number : ℕ) (id : TxnId) (body : Body) → AskRests me inputs number id body → BodyOrigin (txn_of (history_to me inputs number) id) body }
    ensures commits { (me : ClientIdentity) (inputs : List ClientInput) (number : ℕ) (id : TxnId) (body : Body) → AskRests me inputs number id body → HasCommitOrigin (history_to me inputs number) id body }
{}

/// From what a client counted to evidence. Take a history of all clients that has what this one's has by a
/// moment, and an order of packets over which every answer that it counted by then was said. Then each of its
/// events is counted as evidence asks, one by one and all of its history. The call does nothing; its contract is
/// the law.
pub fn counted_is_evidence()
    ensures all { (me : ClientIdentity) (inputs : List ClientInput) → AbortsOthers me inputs → (number : ℕ) (history : List HistoryEvent) (packets : List Packet) → IsHistoryWith me inputs number history → CountedIsSaid me inputs number packets → Each (Counted history packets) (history_to me inputs number) }
    ensures counted { (me : ClientIdentity) (inputs : List ClientInput) (number : ℕ) (history : List HistoryEvent) (packets : List Packet) → IsHistoryWith me inputs (suc number) history → CountedIsSaid me inputs (suc number) packets → (event : HistoryEvent) → EventRests me inputs number event → Counted history packets event }
{}
