ghost use Rattle.std.specs.Prelude.{◌≡◌, ◌≤◌, ◌^◌, ◌%◌, ℕ, Ok, List, codes, ◌∷◌, length, map};
ghost use Rattle.eris_base.specs.declared.ids.TxnId.{TxnId};
ghost use Rattle.eris_base.specs.Each.{Each};
ghost use Rattle.eris_txn.specs.Keys.{no_values};
ghost use Rattle.eris_txn.specs.declared.history.HistoryEvent.{HistoryEvent};
ghost use Rattle.eris_txn.specs.declared.txn.Txn.{Txn};
ghost use Rattle.eris_audit.specs.declared.order_line.OrderLine.{OrderLine};
ghost use Rattle.eris_audit.specs.Histories.{txn_of};
ghost use Rattle.eris_audit.specs.IsSerial.{IsSerial};
ghost use Rattle.eris_audit.specs.Lines.{lines_of};
ghost use Rattle.eris_grammar.specs.Headers.{header_of};
ghost use Rattle.eris_drill.specs.DrillLines.{bank, drill_lines};
ghost use Rattle.eris_drill.specs.Summaries.{IsTotal, after_steps};
ghost use Rattle.eris_law_drill.specs.BankHistories.{IsBankHistory};
ghost use Rattle.eris_law_drill.specs.Banks.{IsDay, OnlyAccounts, worth};
ghost use Rattle.eris_law_drill.specs.Reading.{IsRead, drill_events};
ghost use Rattle.eris_words.specs.Cuts.{lines};
ghost use Rattle.eris_grammar.specs.Scripts.{script};
ghost use Rattle.eris_drill.specs.DrillText.{drill_text, line_text};

/// The bank keeps its money. Where the lines of an order are a day, the first puts of all accounts and then turns, the
/// accounts have 16000 together at its end, modulo 2^64, and no other key has a value; so the total is 16000. The call
/// does nothing; its contract is the law.
pub fn days_keep_the_sum()
    ensures worth { (txn : TxnId → Txn) (lines : List OrderLine) → IsDay txn lines → worth (after_steps txn lines no_values) 16 % 2 ^ 64 ≡ 16000 }
    ensures only { (txn : TxnId → Txn) (lines : List OrderLine) → IsDay txn lines → OnlyAccounts (after_steps txn lines no_values) }
    ensures total { (txn : TxnId → Txn) (lines : List OrderLine) (total : ℕ) → IsDay txn lines → IsTotal (after_steps txn lines no_values) total → total ≡ 16000 }
{}

/// Take a bank's history, in which the puts are submitted and answered before any turn is submitted. Where it is serial in
/// an order, that order is a day: what was answered stands before what was submitted later. So the total is 16000. The
/// call does nothing; its contract is the law.
pub fn serial_orders_are_days()
    ensures day { (history : List HistoryEvent) (order : List OrderLine) → IsBankHistory history → IsSerial history (lines_of order) → IsDay (txn_of history) order }
    ensures total { (history : List HistoryEvent) (order : List OrderLine) (total : ℕ) → IsBankHistory history → IsSerial history (lines_of order) → IsTotal (after_steps (txn_of history) order no_values) total → total ≡ 16000 }
{}

/// Every line of a drill of at most 500 turns is in the grammar of version 1: its text says the very line that it was made
/// from, and the header says the bank. The call does nothing; its contract is the law.
pub fn drills_are_read()
    ensures header { header_of (codes "eris 1 4 1 8") ≡ Ok (record { version = 1; config = bank }) }
    ensures lines { (number : ℕ) → number ≤ 500 → Each IsRead (drill_lines number) }
{}

/// The bytes of a drill of at most 500 turns are a script. No byte of a line ends it, so its lines are the header and the
/// texts of the drill's lines; and it says the bank, and the drill's events. It is no longer than a script may be. The
/// call does nothing; its contract is the law.
pub fn drills_are_scripts()
    ensures lines { (number : ℕ) → number ≤ 500 → lines (drill_text number) ≡ codes "eris 1 4 1 8" ∷ map line_text (drill_lines number) }
    ensures script { (number : ℕ) → number ≤ 500 → script (drill_text number) ≡ Ok (record { config = bank; events = drill_events number }) }
    ensures short { (number : ℕ) → number ≤ 500 → length (drill_text number) ≤ 4194304 }
{}
