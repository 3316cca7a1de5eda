ghost use Rattle.std.specs.Prelude.{◌≡◌, ◌∷◌, ◌++◌, map, OnOk};
ghost use Rattle.std.specs.List.{flat_map, join_with_byte};
ghost use Rattle.eris_report.specs.HistoryText.{answer_words, event_words, op_answer_word, value_word};
ghost use Rattle.eris_trace.specs.ItemText.{happened_text};
ghost use Rattle.eris_words.specs.Words.{line, spaced};

use eris_base::{NoMemory, Row};
use eris_txn::{Answer, HistoryEvent, OpAnswer, Txn};
use eris_words::{put_id, put_number, put_ops, put_plan, put_word};

/// Adds what happened at the clients in a step, in the words of a report.
pub fn put_happened(out: &mut Row<u8>, events: &[HistoryEvent]) -> Result<(), NoMemory>
    ensures { OnOk result (out.new ≡ out.old ++ flat_map happened_text events.now) }
{
    for event in events {
        out.append(b"    ")?;
        put_event(out, event)?;
        out.push(b'\n')?;
    }
    Ok(())
}

#[tactic(auto, using(eris_words::proofs::LineLemmas::joining))]
fn put_event(out: &mut Row<u8>, event: &HistoryEvent) -> Result<(), NoMemory>
    ensures { OnOk result (out.new ≡ out.old ++ join_with_byte 32 (event_words event.now)) }
{
    match event {
        HistoryEvent::Submit(id, Txn::Whole(ops)) => {
            out.append(b"submit")?;
            put_id(out, *id)?;
            put_ops(out, ops.as_slice())
        }
        HistoryEvent::Submit(id, Txn::General(plan)) => {
            out.append(b"general")?;
            put_id(out, *id)?;
            put_plan(out, plan)
        }
        HistoryEvent::Read(id, values) => {
            out.append(b"read")?;
            put_id(out, *id)?;
            put_values(out, values.as_slice())
        }
        HistoryEvent::Answer(id, answer) => {
            out.append(b"answer")?;
            put_id(out, *id)?;
            put_answer(out, answer)
        }
        HistoryEvent::Told(asker, id, outcome) => {
            out.append(b"told")?;
            put_number(out, u64::from(asker.0))?;
            put_id(out, *id)?;
            put_answer(out, outcome)
        }
    }
}

/// Adds what a transaction, or a shard for its part of one, was answered.
pub(crate) fn put_answer(out: &mut Row<u8>, answer: &Answer) -> Result<(), NoMemory>
    ensures { OnOk result (out.new ≡ out.old ++ spaced (answer_words answer.now)) }
{
    match answer {
        Answer::Ops(answers) => put_op_answers(out, answers.as_slice()),
        Answer::Values(values) => put_values(out, values.as_slice()),
        Answer::Committed => put_word(out, b"committed"),
        Answer::Aborted => put_word(out, b"aborted"),
    }
}

fn put_op_answers(out: &mut Row<u8>, answers: &[OpAnswer]) -> Result<(), NoMemory>
    ensures { OnOk result (out.new ≡ out.old ++ spaced (map op_answer_word answers.now)) }
{
    for answer in answers {
        put_op_answer(out, *answer)?;
    }
    Ok(())
}

fn put_op_answer(out: &mut Row<u8>, answer: OpAnswer) -> Result<(), NoMemory>
    ensures { OnOk result (out.new ≡ out.old ++ 32 ∷ op_answer_word answer) }
{
    match answer {
        OpAnswer::Value(value) => put_number(out, value),
        OpAnswer::Absent => put_word(out, b"-"),
        OpAnswer::Done => put_word(out, b"ok"),
        OpAnswer::Yes => put_word(out, b"yes"),
        OpAnswer::No => put_word(out, b"no"),
    }
}

fn put_values(out: &mut Row<u8>, values: &[Option<u64>]) -> Result<(), NoMemory>
    ensures { OnOk result (out.new ≡ out.old ++ spaced (map value_word values.now)) }
{
    for value in values {
        put_value(out, *value)?;
    }
    Ok(())
}

fn put_value(out: &mut Row<u8>, value: Option<u64>) -> Result<(), NoMemory>
    ensures { OnOk result (out.new ≡ out.old ++ 32 ∷ value_word value) }
{
    match value {
        Some(value) => put_number(out, value),
        None => put_word(out, b"-"),
    }
}
