use crate::book::SmallBook;
use eris_base::NoMemory;
use eris_journal::{AddFault, Fetched};
use std::alloc::{AllocError, Global};

/// What was told, line by line.
#[derive(Drop)]
pub(crate) struct Told {
    pub(crate) text: String,
}

impl Told {
    pub(crate) fn line(&mut self, words: &str) -> Result<(), AllocError> {
        self.text.push_str(words)?;
        self.text.push_str("\n")
    }

    /// What came of an entry.
    pub(crate) fn added(&mut self, answer: &Result<(), AddFault>) -> Result<(), AllocError> {
        match answer {
            Ok(()) => self.line("added"),
            Err(fault) => self.line(word_of(*fault)),
        }
    }

    /// What was fetched.
    pub(crate) fn fetched(
        &mut self,
        alloc: Global,
        answer: &Result<Option<Fetched>, NoMemory>,
    ) -> Result<(), AllocError> {
        match answer {
            Ok(Some(packet)) => {
                let words = format!(in alloc; "fetched packet {}", packet.number)?;
                self.text.push_str(words.as_str())?;
                self.bytes(alloc, packet.message.as_slice())?;
                self.line("")
            }
            Ok(None) => self.line("nothing to fetch"),
            Err(_) => self.line("no memory"),
        }
    }

    /// What is pending for the node.
    pub(crate) fn pending(
        &mut self,
        alloc: Global,
        node: u32,
        number: Option<u32>,
    ) -> Result<(), AllocError> {
        let words = match number {
            Some(number) => format!(in alloc; "packet {number} is pending for {node}")?,
            None => format!(in alloc; "nothing is pending for {node}")?,
        };
        self.line(words.as_str())
    }

    fn bytes(&mut self, alloc: Global, bytes: &[u8]) -> Result<(), AllocError> {
        for byte in bytes {
            let word = format!(in alloc; " {byte}")?;
            self.text.push_str(word.as_str())?;
        }
        Ok(())
    }

    // An entry with its node, in one line.
    fn entry(
        &mut self,
        alloc: Global,
        head: &str,
        node: u32,
        pairs: &[(u32, u8)],
    ) -> Result<(), AllocError> {
        let words = format!(in alloc; "{head} of {node}:")?;
        self.text.push_str(words.as_str())?;
        for (to, byte) in pairs {
            let word = format!(in alloc; " {to}.{byte}")?;
            self.text.push_str(word.as_str())?;
        }
        self.line("")
    }

    /// The book's entries, its fetched packets, and its refused entry.
    pub(crate) fn book(&mut self, alloc: Global, book: &SmallBook) -> Result<(), AllocError> {
        for (node, entry) in book.entries() {
            self.entry(alloc, "entry", *node, entry.as_slice())?;
        }
        self.fetches(alloc, book)?;
        if let Some((node, (entry, fault))) = book.refused() {
            self.entry(alloc, "refused entry", *node, entry.as_slice())?;
            self.line(word_of(*fault))?;
        }
        Ok(())
    }

    fn fetches(&mut self, alloc: Global, book: &SmallBook) -> Result<(), AllocError> {
        for (node, packet) in book.fetches() {
            let words = format!(in alloc; "packet {} of {node}:", packet.number)?;
            self.text.push_str(words.as_str())?;
            self.bytes(alloc, packet.message.as_slice())?;
            self.line("")?;
        }
        Ok(())
    }
}

fn word_of(fault: AddFault) -> &'static str {
    match fault {
        AddFault::Packets => "too many packets",
        AddFault::Bytes => "too many bytes",
        AddFault::NoMemory => "no memory",
    }
}
