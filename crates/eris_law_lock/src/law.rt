ghost use Rattle.std.specs.Prelude.{◌≡◌, ℕ, Option, None, List, [], ◌∷◌, ◌++◌};
ghost use Rattle.eris_base.specs.declared.ids.Phase.{Phase};
ghost use Rattle.eris_base.specs.declared.ids.TxnId.{TxnId};
ghost use Rattle.eris_txn.specs.declared.answer.Answer.{Answer};
ghost use Rattle.eris_locks.specs.declared.shard_packet.ShardPacket.{ShardPacket};
ghost use Rattle.eris_base.specs.Each.{Each};
ghost use Rattle.eris_locks.specs.Law.{plain_answers, plain_end, IsPlain, IsRightDone, EachIdOnce, Said, HasPacket, HoldsOrDecided};
ghost use Rattle.eris_locks.specs.Locks.{IsConflict, conflict};
ghost use Rattle.eris_locks.specs.LockTable.{run_dones, run_state};
ghost use Rattle.eris_locks.specs.States.{phase_of, empty};
ghost use Rattle.eris_locks.specs.WellFormed.{WellFormed};

/// Over every well-formed list of packets a shard's store answers as the plain run does, in which there
/// is no lock and no waiting, and so does a store that ran only a beginning of the list. Values
/// that are said over the whole list are said over a beginning that has a conclusory packet of the id. Where
/// no preliminary holds, nothing waits, and the values are those of the plain run. The call does nothing;
/// its contract is the law.
pub fn answers_as_if_alone()
    ensures answers { (packets : List ShardPacket) → WellFormed packets → Each (IsRightDone packets) (run_dones empty packets) }
    ensures beginning { (packets rest : List ShardPacket) → WellFormed (packets ++ rest) → Each (IsRightDone (packets ++ rest)) (run_dones empty packets) }
    ensures said_in_time { (packets rest : List ShardPacket) (id : TxnId) (values : List (Option ℕ)) → WellFormed (packets ++ rest) → HasPacket id Phase.Conclude packets → Said id Phase.Prelim (Answer.Values values) (run_dones empty (packets ++ rest)) → Said id Phase.Prelim (Answer.Values values) (run_dones empty packets) }
    ensures nothing_waits { (packets : List ShardPacket) → (run_state empty packets).holding ≡ [] → (run_state empty packets).waiting ≡ [] }
    ensures values { (packets : List ShardPacket) → WellFormed packets → (run_state empty packets).holding ≡ [] → (run_state empty packets).values ≡ plain_end packets }
    ensures modes { IsConflict conflict }
{}

/// Over every list of packets: what a store says of a whole or a preliminary transaction, or of an
/// outcome, is of a packet of that phase that came; where it said values for an id anywhere in the list, the
/// id's first conclusory packet finds the preliminary holding; no conclusion is recorded, since an outcome is
/// decided; and the plain run answers no id twice, and none by `Aborted`. The call does nothing; its contract is the law.
pub fn says_what_came()
    ensures came { (packets : List ShardPacket) (id : TxnId) (phase : Phase) (answer : Answer) → Said id phase answer (run_dones empty packets) → HasPacket id phase packets }
    ensures finds { (before rest : List ShardPacket) (conclusory : ShardPacket) (values : List (Option ℕ)) → phase_of conclusory.body ≡ Phase.Conclude → Said conclusory.id Phase.Prelim (Answer.Values values) (run_dones empty (before ++ conclusory ∷ rest)) → HoldsOrDecided (run_state empty before) conclusory.id }
    ensures unrecorded { (packets : List ShardPacket) (id : TxnId) → (run_state empty packets).recorded id Phase.Conclude ≡ None }
    ensures once { (packets : List ShardPacket) → EachIdOnce (plain_answers packets) }
    ensures one_answer { (packets : List ShardPacket) (id : TxnId) (some other : Answer) → IsPlain packets id some → IsPlain packets id other → some ≡ other }
    ensures never_aborted { (packets : List ShardPacket) (id : TxnId) → IsPlain packets id Answer.Aborted → ⊥ }
{}
