//! Entries in no order, of which the first one can be taken.
ghost use Rattle.std.specs.Prelude.{◌≡◌, ◌<◌, ◌≤◌, ◌+◌, ◌-◌, [], ◌∷◌, length, true, false, IsOk, OnOk, OnErr, IfNone, IfSome};
ghost use Rattle.std.specs.List.Sorted.{IsPermutation};
ghost use Rattle.std.specs.BinaryHeap.{KeepsHeap, heap_items, heap_len, heap_capacity, IsHeap, IsUpperBound};
ghost use Rattle.command_queue.specs.Queue.{comes_before};
ghost use Rattle.command_queue.specs.Internal.Inside.{heap_order, in_front, LeavesFirst, LeavesLater};

use crate::entry::Entry;
use std::alloc::{AllocError, Global};
use std::collections::BinaryHeap;
use std::marker::Model;

/// Entries. One may wait in front of the heap, where there is room for it: an entry that takes the place of the one that was just taken
/// is mostly the next one, and so no other one moves.
#[derive(Drop)]
pub(crate) struct Bag<C> {
    front: Option<Entry<C>>,
    heap: BinaryHeap<Entry<C>>,
}

impl<C> Model for Bag<C> {
    ghost use Rattle.std.specs.Prelude.{◌++◌, ◌+◌, ◌-◌, ◌≤◌, length};
    ghost use Rattle.std.specs.BinaryHeap.{heap_items, heap_len, heap_capacity, IsHeap};
    ghost use Rattle.command_queue.specs.Internal.Inside.{Held, heap_order, in_front};

    ghost Value = { Held C };

    ghost view = { λ b. record {
      items = in_front b.front ++ heap_items b.heap;
      spare = heap_capacity b.heap - (heap_len b.heap + length (in_front b.front));
    } };

    ghost invariant = { λ b. IsHeap heap_order (heap_items b.heap)
        × (heap_len b.heap + length (in_front b.front) ≤ heap_capacity b.heap) };
}

impl<C: Drop> Bag<C> {
    pub(crate) fn new(alloc: Global) -> Bag<C>
        ensures { result.items ≡ [] }
    {
        Bag {
            front: None,
            heap: BinaryHeap::new(alloc),
        }
    }

    /// How many entries there are.
    pub(crate) fn len(&self) -> usize
        ensures { result ≡ length self.now.items }
    {
        let front = count(&self.front);
        self.heap.as_slice().len() + front
    }

    /// For how many entries there is room.
    pub(crate) fn spare(&self) -> usize
        ensures { result ≡ self.now.spare }
    {
        spare_of(&self.heap) - count(&self.front)
    }

    /// Makes room for so many entries.
    pub(crate) fn make_room(&mut self, n: usize) -> Result<(), AllocError>
        ensures items { self.new.items ≡ self.old.items }
        ensures spare { self.old.spare ≤ self.new.spare }
        ensures ok { OnOk result (n ≤ self.new.spare) }
        ensures err { OnErr result (self.new ≡ self.old) }
        ensures succeeds { n ≤ self.old.spare → IsOk result }
    {
        let front = count(&self.front);
        if n > usize::MAX - front {
            return Err(AllocError);
        }
        make_room(&mut self.heap, n + front)
    }

    /// Adds an entry.
    pub(crate) fn add(&mut self, entry: Entry<C>) -> Result<(), AllocError>
        ensures permutation { OnOk result (IsPermutation (entry ∷ self.old.items) self.new.items) }
        ensures spare { OnOk result (self.old.spare ≤ self.new.spare + 1) }
        ensures err { OnErr result (self.new ≡ self.old) }
        ensures succeeds { 0 < self.old.spare → IsOk result }
    {
        make_room(&mut self.heap, 1 + count(&self.front))?;
        self.heap.push(entry).unwrap();
        Ok(())
    }

    /// Adds an entry that is likely to leave first.
    pub(crate) fn add_likely(&mut self, entry: Entry<C>) -> Result<(), AllocError>
        ensures permutation { OnOk result (IsPermutation (entry ∷ self.old.items) self.new.items) }
        ensures spare { OnOk result (self.old.spare ≤ self.new.spare + 1) }
        ensures err { OnErr result (self.new ≡ self.old) }
        ensures succeeds { 0 < self.old.spare → IsOk result }
    {
        make_room(&mut self.heap, 1 + count(&self.front))?;
        if self.front.is_some() {
            self.heap.push(entry).unwrap();
        } else {
            self.front = Some(entry);
        }
        Ok(())
    }

    /// Takes the entry that leaves first.
    pub(crate) fn take_first(&mut self) -> Option<Entry<C>>
        ensures none { IfNone result (self.old.items ≡ []) }
        ensures unchanged { IfNone result (self.new ≡ self.old) }
        ensures permutation { IfSome result (λ e. IsPermutation self.old.items (e ∷ self.new.items)) }
        ensures first { IfSome result (λ e. IsUpperBound heap_order e self.new.items) }
        ensures spare { IfSome result (λ e. self.new.spare ≡ self.old.spare + 1) }
    {
        if front_is_first(&self.front, &self.heap) {
            return self.front.take();
        }
        let entry = self.heap.pop()?;
        Some(entry)
    }
}

fn count<C>(front: &Option<Entry<C>>) -> usize
    ensures count { result ≡ length (in_front front.now) }
    ensures few { result ≤ 1 }
{
    match front {
        Some(_) => 1,
        None => 0,
    }
}

fn spare_of<C>(heap: &BinaryHeap<Entry<C>>) -> usize
    ensures { result ≡ heap_capacity heap.now - heap_len heap.now }
{
    heap.capacity().saturating_sub(heap.len())
}

// The room grows by a half at least, so that many entries take few steps each.
fn make_room<C>(heap: &mut BinaryHeap<Entry<C>>, n: usize) -> Result<(), AllocError>
    ensures items { heap_items heap.new ≡ heap_items heap.old }
    ensures len { heap_len heap.new ≡ heap_len heap.old }
    ensures capacity { heap_capacity heap.old ≤ heap_capacity heap.new }
    ensures ok { OnOk result (n ≤ heap_capacity heap.new - heap_len heap.new) }
    ensures err { OnErr result (heap_capacity heap.new ≡ heap_capacity heap.old) }
    ensures succeeds { n ≤ heap_capacity heap.old - heap_len heap.old → IsOk result }
{
    if n <= spare_of(heap) {
        return Ok(());
    }
    heap.reserve_exact(n.max(heap.len() / 2))
}

fn leaves_before<C>(a: &Entry<C>, b: &Entry<C>) -> bool
    ensures { result ≡ comes_before a.now b.now }
{
    a.due < b.due || (a.due == b.due && a.number < b.number)
}

/// Whether there is an entry in front that leaves before those of the heap.
fn front_is_first<C>(front: &Option<Entry<C>>, heap: &BinaryHeap<Entry<C>>) -> bool
    requires heap_order { IsHeap heap_order (heap_items heap.now) }
    ensures first { result ≡ true → LeavesFirst front.now (heap_items heap.now) }
    ensures later { result ≡ false → LeavesLater front.now (heap_items heap.now) }
{
    match front {
        Some(front) => match heap.peek() {
            Some(top) => leaves_before(front, top),
            None => true,
        },
        None => false,
    }
}
