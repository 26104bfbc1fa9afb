// A table of a text's names, chained by a hash.
ghost use Rattle.std.specs.Prelude.{◌≡◌, ◌+◌, ◌≤◌, ◌<◌, [], IfSome, length, set};
ghost use Rattle.text.specs.Hash.{hash_of, last_with, found_at, is_name};
ghost use Rattle.text.specs.Names.{IsSlot};

use std::marker::Model;

pub const ROOM: usize = 4096;

const BUCKETS: usize = 1021;

// A name is the bytes of the text from `from` up to `to`; a value was entered with it. No ghost fact: `to` is bounded by a text that an entry does not have.
#[derive(Clone, Copy, Debug, PartialEq, Eq)]
pub struct Entry<V> {
    pub from: usize,
    pub to: usize,
    pub value: V,
}

// An entry, and the number of the name before it in its bucket.
#[derive(Clone, Copy, Debug, PartialEq, Eq)]
pub struct Slot<V> {
    entry: Entry<V>,
    before: Option<u16>,
}

// Apart from the reference: in one struct with it, an array of `N` values of a type parameter is not covered.
#[derive(Drop)]
struct Slots<V, const N: usize> {
    row: [Slot<V>; N],
}

// The first `count` slots are taken; `heads` has the last name of each bucket. As an `ArrayVec` of slots the two would be one field: `enter` would spare one line, and `Chained` say as much.
#[derive(Drop)]
pub struct Names<'a, V, const N: usize> {
    text: &'a [u8],
    slots: Slots<V, N>,
    heads: [Option<u16>; BUCKETS],
    count: usize,
}

impl<'a, V, const N: usize> Model for Names<'a, V, N> {
    ghost use Rattle.text.specs.Names.{Table, the_table, Chained};

    ghost Value = { Table V };

    ghost view = { λ n. the_table n.text.now n.slots.row n.count };

    ghost invariant = { λ n. Chained N n.text.now n.slots.row n.heads n.count };
}

fn hash(bytes: &[u8]) -> usize
    ensures equal { result ≡ hash_of 0 bytes.now }
    ensures small { result < 1021 }
{
    let mut h = 0;
    for b in bytes {
        h = (31 * h + usize::from(*b)) % BUCKETS;
    }
    h
}

// By reference: with a copy of each slot `find` took 883 us of the largest text, and 683 so.
fn slot_at<V, const N: usize>(slots: &[Slot<V>; N], j: usize) -> &Slot<V>
    requires { j < N }
    ensures { IsSlot slots.now j result.now }
{
    &slots[j]
}

fn put_slot<V: Copy + Drop, const N: usize>(slots: &mut [Slot<V>; N], j: usize, slot: Slot<V>)
    requires { j < N }
    ensures { slots.new ≡ set slots.old j slot }
{
    slots[j] = slot;
}

impl<'a, V: Copy + Default + Drop, const N: usize> Names<'a, V, N> {
    ghost use Rattle.text.specs.Names.{empty_table, IsEntry, name_at, entered};

    // No names yet, with room for `N`, whose numbers are each a `u16`.
    pub fn new(text: &'a [u8]) -> Names<'a, V, N>
        requires { N ≤ 65535 }
        ensures { result ≡ empty_table text.now }
    {
        let entry = Entry {
            from: 0,
            to: 0,
            value: V::default(),
        };
        let slot = Slot {
            entry,
            before: None,
        };
        let slots = Slots { row: [slot; N] };
        Names {
            text,
            slots,
            heads: [None; BUCKETS],
            count: 0,
        }
    }

    pub fn text(&self) -> &'a [u8]
        ensures { result.now ≡ self.now.text }
    {
        self.text
    }

    pub fn len(&self) -> usize
        ensures equal { result ≡ length self.now.entries }
        ensures few { result ≤ N }
    {
        self.count
    }

    pub fn get(&self, j: usize) -> Entry<V>
        requires { j < length self.now.entries }
        ensures equal { IsEntry self.now j result }
        ensures forward { result.from ≤ result.to }
        ensures inside { result.to ≤ length self.now.text }
    {
        let slots = &self.slots.row[..];
        slots[j].entry
    }

    // The number of the last name of those bytes.
    pub fn find(&self, bytes: &[u8]) -> Option<usize>
        ensures last { result ≡ found_at (last_with (is_name bytes.now) (name_at self.now) (length self.now.entries)) }
        ensures inside { IfSome result (λ j. (j < length self.now.entries) × (j < N)) }
    {
        let mut next = self.heads[hash(bytes)];
        // No `for`: an iterator over these links would be a struct with a ghost fact, for one loop of nine lines.
        while let Some(k) = next {
            let j = usize::from(k);
            let slot = slot_at(&self.slots.row, j);
            if &self.text[slot.entry.from..slot.entry.to] == bytes {
                return Some(j);
            }
            next = slot.before;
        }
        None
    }

    // Enters a name after the others.
    pub fn enter(&mut self, entry: Entry<V>)
        requires room { length self.old.entries < N }
        requires forward { entry.from ≤ entry.to }
        requires inside { entry.to ≤ length self.old.text }
        ensures { self.new ≡ entered self.old entry }
    {
        let h = hash(&self.text[entry.from..entry.to]);
        let before = self.heads[h];
        let i = self.count;
        put_slot(&mut self.slots.row, i, Slot { entry, before });
        let heads = &mut self.heads;
        // It is below 65,535: a `try_from` would want an answer for what cannot be.
        heads[h] = Some(i as u16);
        self.count = i + 1;
    }
}
