ghost use Rattle.std.specs.Prelude.{◌≡◌, ◌≤◌, length, None, IfOk, OnOk};
ghost use Rattle.eris_journal.specs.Packets.{sent};
ghost use Rattle.eris_journal.specs.Parts.{NamesNodes};
ghost use Rattle.eris_try_journal.specs.Bytes.{sends};

use crate::book::SmallBook;
use crate::entries::entry_of;
use crate::pair::Pair;
use crate::tells::Told;
use anyhow::bail;
use eris_journal::Legal;
use std::alloc::Global;
use std::sync::Wait;

/// Node 0 sends a byte to node 1, which fetches it. Then the closed book is started again.
pub(crate) fn deliver<R: Wait>(rt: &R, alloc: Global, told: &mut Told) -> anyhow::Result<()> {
    let book = delivered(rt, alloc, told)?;
    told_free(alloc, told, &book)?;
    let book = delivered_again(rt, alloc, told, book)?;
    told_at_end(alloc, told, &book)
}

/// A book that takes one packet refuses the second, and keeps it.
pub(crate) fn refuse<R: Wait>(rt: &R, alloc: Global, told: &mut Told) -> anyhow::Result<()> {
    let book = refused(rt, alloc, told)?;
    told_whole(alloc, told, &book)
}

// The book in which node 0 sent a byte to node 1, which looked for it twice.
fn delivered<R: Wait>(rt: &R, alloc: Global, told: &mut Told) -> anyhow::Result<SmallBook>
    ensures legal { IfOk result (λ book. length (sent sends book.entries) ≤ book.most) }
    ensures names { IfOk result (λ book. NamesNodes (λ b. b.entries) (λ b. b.fetches) (λ b. b.refused) 2 book) }
{
    told.pending(alloc, 1, SmallBook::new(alloc, 100).pending(1))?;
    let mut pair = Pair::of(alloc, SmallBook::new(alloc, 100))?;
    let done = pair.send_and_look_twice(rt, alloc, told);
    let book = pair.close();
    done?;
    Ok(book)
}

// What the book has, in which no entry was refused.
fn told_free(alloc: Global, told: &mut Told, book: &SmallBook) -> anyhow::Result<()>
    ensures { OnOk result (book.now.refused ≡ None) }
{
    told.book(alloc, book)?;
    if book.refused().is_some() {
        bail!("an entry was refused");
    }
    Ok(told.line("again")?)
}

// The book, started again, in which node 1 looked again and node 0 sent another byte.
fn delivered_again<R: Wait>(
    rt: &R,
    alloc: Global,
    told: &mut Told,
    book: SmallBook,
) -> anyhow::Result<SmallBook>
    requires legal { length (sent sends book.entries) ≤ book.most }
    requires refused { book.refused ≡ None }
    requires names { NamesNodes (λ b. b.entries) (λ b. b.fetches) (λ b. b.refused) 2 book }
{
    let mut pair = Pair::of(alloc, book)?;
    let done = pair.look_and_send(rt, alloc, told);
    let book = pair.close();
    done?;
    Ok(book)
}

fn told_at_end(alloc: Global, told: &mut Told, book: &SmallBook) -> anyhow::Result<()> {
    told.book(alloc, book)?;
    Ok(told.pending(alloc, 1, book.pending(1))?)
}

// The book that takes one packet and was given three.
fn refused<R: Wait>(rt: &R, alloc: Global, told: &mut Told) -> anyhow::Result<SmallBook> {
    let mut pair = Pair::of(alloc, SmallBook::new(alloc, 1))?;
    let done = pair.send_three_and_look(rt, alloc, told);
    let book = pair.close();
    done?;
    Ok(book)
}

fn told_whole(alloc: Global, told: &mut Told, book: &SmallBook) -> anyhow::Result<()> {
    Ok(told.book(alloc, book)?)
}

impl Pair {
    fn send_and_look_twice<R: Wait>(
        &mut self,
        rt: &R,
        alloc: Global,
        told: &mut Told,
    ) -> anyhow::Result<()> {
        self.append(rt, alloc, told, 7)?;
        self.fetch(rt, alloc, told)?;
        self.fetch(rt, alloc, told)
    }

    fn look_and_send<R: Wait>(
        &mut self,
        rt: &R,
        alloc: Global,
        told: &mut Told,
    ) -> anyhow::Result<()> {
        self.fetch(rt, alloc, told)?;
        self.append(rt, alloc, told, 8)
    }

    fn send_three_and_look<R: Wait>(
        &mut self,
        rt: &R,
        alloc: Global,
        told: &mut Told,
    ) -> anyhow::Result<()> {
        self.append(rt, alloc, told, 1)?;
        self.append(rt, alloc, told, 2)?;
        self.append(rt, alloc, told, 3)?;
        self.fetch(rt, alloc, told)
    }

    // Node 0 adds an entry that sends this byte to node 1.
    fn append<R: Wait>(
        &mut self,
        rt: &R,
        alloc: Global,
        told: &mut Told,
        byte: u8,
    ) -> anyhow::Result<()> {
        let entry = entry_of(alloc, &[(1, byte)])?;
        let answer = self.journal.append(rt, &mut self.first, entry);
        Ok(told.added(&answer)?)
    }

    // Node 1 fetches.
    fn fetch<R: Wait>(&mut self, rt: &R, alloc: Global, told: &mut Told) -> anyhow::Result<()> {
        let answer = self.journal.fetch(rt, &mut self.second);
        Ok(told.fetched(alloc, &answer)?)
    }
}
