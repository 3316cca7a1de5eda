use eris_store::Done;
use eris_txn::Answer;
use std::alloc::Global;
use std::fmt::Debug;

/// All the answers, or `no answer`.
pub(crate) fn answers(alloc: Global, dones: &[Done]) -> anyhow::Result<String> {
    let mut told = String::new(alloc);
    for done in dones {
        if !told.is_empty() {
            told.push_str("; ")?;
        }
        let one = done_of(alloc, done)?;
        told.push_str(one.as_str())?;
    }
    if told.is_empty() {
        told.push_str("no answer")?;
    }
    Ok(told)
}

fn done_of(alloc: Global, done: &Done) -> anyhow::Result<String> {
    let (number, place, phase, asker) = (done.id.number, done.at.number, done.phase, done.asker.0);
    let late = if done.late { " late" } else { "" };
    let said = answer(alloc, &done.answer)?;
    Ok(format!(in alloc; "{number}@{place} {phase:?}{late} to {asker}:{said}")?)
}

/// What the answer says, behind a blank.
pub(crate) fn answer(alloc: Global, answer: &Answer) -> anyhow::Result<String> {
    match answer {
        Answer::Ops(answers) => words(alloc, answers.as_slice()),
        Answer::Values(values) => words(alloc, values.as_slice()),
        Answer::Committed => Ok(format!(in alloc; " Committed")?),
        Answer::Aborted => Ok(format!(in alloc; " Aborted")?),
    }
}

fn words<T: Debug>(alloc: Global, items: &[T]) -> anyhow::Result<String> {
    let mut told = String::new(alloc);
    for item in items {
        let word = format!(in alloc; " {item:?}")?;
        told.push_str(word.as_str())?;
    }
    Ok(told)
}
