//! Rows whose items stand in the order of their keys, each key once. They are searched by halves and
//! merged in one pass.
ghost use Rattle.std.specs.Prelude.{◌≡◌, [], IsTrue, IfOk, IfErr, OnOk, OnErr, IfSome, IfNone, is_some, ◌+◌, ◌<◌, ◌≤◌, length, vec_len, vec_capacity};
ghost use Rattle.std.specs.Option.{option_copied};
ghost use Rattle.eris_log.specs.Sorted.{ascends, item_at, items_from, with_item, union, IsFoundAt, IsFreeAt, StartsUnion};

use eris_base::{Dup, NoMemory, Row};
use std::alloc::Global;
use std::cmp::Ordering;
use std::mem;

/// What has a key by which it is told from others and ordered among them.
pub trait Keyed: Drop {
    type Key: Ord + Drop;

    ghost key_of: { Self → Self.Key };

    /// The key.
    fn key(&self) -> Self::Key
        ensures { result ≡ key_of self.now };
}

/// The index of the item with this key, or the index at which one would stand. It searches by halves.
fn place_of<T: Keyed>(items: &[T], key: &T::Key) -> Result<usize, usize>
    requires { IsTrue (ascends T.key_of T.Key.cmp items.now) }
    ensures found { IfOk result (IsFoundAt T.key_of T.Key.cmp items.now key.now) }
    ensures free { IfErr result (IsFreeAt T.key_of T.Key.cmp items.now key.now) }
{
    items.binary_search_by_key(key, |item| item.key())
}

/// The item with this key, if there is one. It takes no memory.
pub fn get<'a, T: Keyed>(items: &'a [T], key: &T::Key) -> Option<&'a T>
    requires { IsTrue (ascends T.key_of T.Key.cmp items.now) }
    ensures { option_copied result ≡ item_at T.key_of T.Key.cmp items.now key.now }
{
    match place_of(items, key) {
        Ok(at) => Some(&items[at]),
        Err(_) => None,
    }
}

/// Whether an item has this key. It takes no memory.
pub fn contains<T: Keyed>(items: &[T], key: &T::Key) -> bool
    requires { IsTrue (ascends T.key_of T.Key.cmp items.now) }
    ensures { result ≡ is_some (item_at T.key_of T.Key.cmp items.now key.now) }
{
    place_of(items, key).is_ok()
}

/// The items from the first on whose key isn't below this one. It takes no memory.
pub fn from_key<'a, T: Keyed>(items: &'a [T], key: &T::Key) -> &'a [T]
    requires { IsTrue (ascends T.key_of T.Key.cmp items.now) }
    ensures { result.now ≡ items_from T.key_of T.Key.cmp items.now key.now }
{
    match place_of(items, key) {
        Ok(at) => &items[at..],
        Err(at) => &items[at..],
    }
}

/// Puts the item into its place, where none with its key is there yet. After [`NoMemory`] the row is as
/// before.
pub fn include<T: Keyed>(row: &mut Row<T>, item: T) -> Result<(), NoMemory>
    requires { IsTrue (ascends T.key_of T.Key.cmp row.old) }
    ensures ok { OnOk result (row.new ≡ with_item T.key_of T.Key.cmp row.old item) }
    ensures err { OnErr result (row.new ≡ row.old) }
    ensures ascends { IsTrue (ascends T.key_of T.Key.cmp row.new) }
{
    match place_of(row.as_slice(), &item.key()) {
        Ok(_) => Ok(()),
        Err(at) => row.insert(at, item),
    }
}

/// Puts each of the items into its place, where none with its key is there yet. After [`NoMemory`] the
/// row is as before.
pub fn include_all<T: Keyed + Copy>(
    alloc: Global,
    row: &mut Row<T>,
    items: &[T],
) -> Result<(), NoMemory>
    requires { IsTrue (ascends T.key_of T.Key.cmp row.old) }
    ensures ok { OnOk result (row.new ≡ union T.key_of T.Key.cmp row.old items.now) }
    ensures err { OnErr result (row.new ≡ row.old) }
    ensures ascends { IsTrue (ascends T.key_of T.Key.cmp row.new) }
{
    let mut all = mem::replace(row, Row::new(alloc)).into_vec();
    let room = all.reserve(items.len());
    if room.is_ok() {
        put_all(&mut all, items);
    }
    *row = Row::from_vec(all);
    room?;
    Ok(())
}

/// Puts each of the items into its place, where there is room for all of them.
#[tactic(auto, unfolding(crate::specs::Sorted::union))]
fn put_all<T: Keyed + Copy>(all: &mut Vec<T>, items: &[T])
    requires ascends { IsTrue (ascends T.key_of T.Key.cmp all.old.items) }
    requires room { vec_len all.old + length items.now ≤ vec_capacity all.old }
    ensures union { all.new.items ≡ union T.key_of T.Key.cmp all.old.items items.now }
    ensures ascends { IsTrue (ascends T.key_of T.Key.cmp all.new.items) }
{
    for item in items {
        put(all, *item);
    }
}

/// Puts the item into its place, where there is room for it.
fn put<T: Keyed>(all: &mut Vec<T>, item: T)
    requires ascends { IsTrue (ascends T.key_of T.Key.cmp all.old.items) }
    requires room { vec_len all.old < vec_capacity all.old }
    ensures item { all.new.items ≡ with_item T.key_of T.Key.cmp all.old.items item }
    ensures ascends { IsTrue (ascends T.key_of T.Key.cmp all.new.items) }
    ensures len { vec_len all.new ≤ vec_len all.old + 1 }
    ensures capacity { vec_capacity all.old ≤ vec_capacity all.new }
{
    match place_of(all.as_slice(), &item.key()) {
        Ok(_) => {}
        Err(at) => all.insert(at, item).unwrap(),
    }
}

/// Copies of the items of both, in order; of two with one key that of the first.
pub fn merged<T: Keyed + Dup>(alloc: Global, some: &[T], others: &[T]) -> Result<Row<T>, NoMemory>
    requires first { IsTrue (ascends T.key_of T.Key.cmp some.now) }
    requires second { IsTrue (ascends T.key_of T.Key.cmp others.now) }
    ensures items { IfOk result (λ made. made ≡ union T.key_of T.Key.cmp some.now others.now) }
    ensures ascends { IfOk result (λ made. IsTrue (ascends T.key_of T.Key.cmp made)) }
{
    let mut made = Row::new(alloc);
    let mut left = some;
    let mut right = others;
    while let Some((item, more, rest)) = first_of(left, right) {
        made.push(item.copy(alloc)?)?;
        left = more;
        right = rest;
    }
    Ok(made)
}

/// The first item of two lists merged, and what is left of each; None where both are empty.
fn first_of<'a, T: Keyed>(left: &'a [T], right: &'a [T]) -> Option<(&'a T, &'a [T], &'a [T])>
    requires first { IsTrue (ascends T.key_of T.Key.cmp left.now) }
    requires second { IsTrue (ascends T.key_of T.Key.cmp right.now) }
    ensures next { IfSome result (λ next. StartsUnion T.key_of T.Key.cmp left.now right.now next.0.now next.1.now next.2.now) }
    ensures none { IfNone result ((left.now ≡ []) × (right.now ≡ [])) }
{
    match left {
        [] => match right {
            [] => None,
            [other, rest @ ..] => Some((other, left, rest)),
        },
        [one, more @ ..] => match right {
            [] => Some((one, more, right)),
            [other, rest @ ..] => match one.key().cmp(&other.key()) {
                Ordering::Less => Some((one, more, right)),
                Ordering::Equal => Some((one, more, rest)),
                Ordering::Greater => Some((other, left, rest)),
            },
        },
    }
}
