use std::alloc::Global;

/// What takes the steps of a line.
pub(crate) trait Stepping: Drop {
    /// Takes the step of this name and adds what it tells, if it tells something.
    fn take(
        &mut self,
        alloc: Global,
        told: &mut String,
        name: &str,
        words: &mut Words<'_>,
    ) -> anyhow::Result<()>;
}

/// What the steps tell, each taken after the one before it.
pub(crate) fn take_all<S: Stepping>(
    alloc: Global,
    taker: S,
    steps: &str,
) -> anyhow::Result<String> {
    let mut taker = taker;
    let mut told = String::new(alloc);
    for step in steps.split(", ") {
        let (name, rest) = step.split_once(' ').unwrap_or((step, ""));
        taker.take(alloc, &mut told, name, &mut Words { rest })?;
    }
    Ok(told)
}

/// Adds to what is told.
pub(crate) fn say(told: &mut String, one: &str) -> anyhow::Result<()> {
    if !told.is_empty() {
        told.push_str(", ")?;
    }
    told.push_str(one)?;
    Ok(())
}

pub(crate) fn yes_or_no(answer: bool) -> &'static str {
    if answer { "yes" } else { "no" }
}

/// The numbers that are still to be read, with a blank or a dot between each two.
#[derive(Clone, Copy)]
pub(crate) struct Words<'a> {
    pub(crate) rest: &'a str,
}

impl Words<'_> {
    /// The next number.
    pub(crate) fn next(&mut self) -> anyhow::Result<u8> {
        let (word, rest) = self.rest.split_once([' ', '.']).unwrap_or((self.rest, ""));
        self.rest = rest;
        Ok(word.parse::<u8>()?)
    }

    /// The next number, as a wider one.
    pub(crate) fn number(&mut self) -> anyhow::Result<u32> {
        Ok(u32::from(self.next()?))
    }
}
