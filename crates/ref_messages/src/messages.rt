//! Messages in the order of their keys.

ghost use Rattle.std.specs.Prelude.{◌≡◌, ◌<◌, ◌==◌, ◌++◌, [], length, is_some, MatchOption, None, OnOk, OnErr, IfSome};
ghost use Rattle.std.specs.BTreeMap.{insert_entry};
ghost use Rattle.std.specs.Cmp.{IsTotalOrder};
ghost use Rattle.std.specs.List.Sorted.{IsStrictlySortedBy};
ghost use Rattle.std.specs.Map.{keys_of, lookup, remove_entry};
ghost use Rattle.ref_messages.specs.Queue.{begins_before, key_order, not_before, same_key};
ghost use Rattle.ref_messages.specs.Places.{above, place_of, precedes};

use crate::key::RefKey;
use chare_base::memory::Memory;
use chare_base::message::Payload;
use std::alloc::Global;
use std::cmp::Ordering;
use std::collections::BTreeMap;
use std::marker::Model;

// From this many messages on that lie side by side, one whose key is above theirs goes to the map; any other is still
// put among them.
const MOST_FIRST: usize = 16;

/// Messages with their keys, in the order of keys, which contracts see as a list.
///
/// An element mostly holds a few messages, which lie side by side and are looked through one by one. Where it holds
/// many, as those of a sender that is far ahead, each that is behind these is put, found and taken in logarithmic time.
#[derive(Drop)]
pub(crate) struct Messages {
    first: Vec<(RefKey, Payload)>,
    // Those behind the first ones.
    rest: BTreeMap<RefKey, Payload>,
}

impl Model for Messages {
    ghost use Rattle.std.specs.Prelude.{◌++◌, List};
    ghost use Rattle.std.specs.List.Sorted.{IsStrictlySortedBy};
    ghost use Rattle.std.specs.Map.{keys_of};
    ghost use Rattle.chare_base.specs.declared.message.Payload.{Payload};
    ghost use Rattle.ref_messages.specs.declared.key.RefKey.{RefKey};
    ghost use Rattle.ref_messages.specs.Queue.{key_order};

    ghost Value = { List (RefKey × Payload) };

    ghost view = { λ m. m.first.items ++ m.rest.entries };

    ghost invariant = { λ m. IsStrictlySortedBy key_order (keys_of (m.first.items ++ m.rest.entries)) };
}

impl Messages {
    // None, which takes no memory.
    pub(crate) fn new(alloc: Global) -> Messages
        ensures { result ≡ [] }
    {
        Messages {
            first: Vec::new(alloc),
            rest: BTreeMap::new(alloc),
        }
    }

    // Whether there is none. The clause `ordered` tells callers that the keys ascend.
    pub(crate) fn is_empty(&self) -> bool
        ensures exact { result ≡ (length self.now == 0) }
        ensures ordered { IsStrictlySortedBy key_order (keys_of self.now) }
    {
        self.first.is_empty() && self.rest.is_empty()
    }

    // Whether there is a message under a key. No payload is looked at.
    #[tactic(auto, using(crate::proofs::Beside::has_first, crate::proofs::Beside::has_rest))]
    pub(crate) fn has(&self, key: RefKey) -> bool
        ensures { result ≡ is_some (lookup (same_key key) self.now) }
    {
        place_of(self.first.as_slice(), key).is_some() || self.rest.contains_key(&key)
    }

    // The message under a key, where it lies.
    #[tactic(auto, using(crate::proofs::Beside::held_first, crate::proofs::Beside::held_rest))]
    pub(crate) fn get(&self, key: RefKey) -> Option<&Payload>
        ensures { MatchOption result (lookup (same_key key) self.now ≡ None)
            (λ payload. lookup (same_key key) self.now ≡ Some payload.now) }
    {
        match place_of(self.first.as_slice(), key) {
            Some(i) => Some(&self.first[i].1),
            None => self.rest.get(&key),
        }
    }

    // A message more, under a key that has none.
    //
    // `Memory`: an allocation was refused, and all is as before.
    pub(crate) fn insert(&mut self, key: RefKey, payload: Payload) -> Result<(), Memory>
        requires absent { lookup (same_key key) self.old ≡ None }
        ensures ok { OnOk result (self.new ≡ insert_entry key_order self.old key payload) }
        ensures err { OnErr result (self.new ≡ self.old) }
        ensures ordered { IsStrictlySortedBy key_order (keys_of self.new) }
    {
        is_ordered::<RefKey>();
        match above(self.first.as_slice(), key) {
            Some(i) => self.first.insert(i, (key, payload))?,
            None => {
                if self.rest.is_empty() && self.first.len() < MOST_FIRST {
                    self.first.push((key, payload))?;
                } else {
                    self.rest.insert(key, payload)?;
                }
            }
        }
        Ok(())
    }

    // Takes the message under a key out.
    pub(crate) fn remove(&mut self, key: RefKey) -> Option<Payload>
        ensures value { result ≡ lookup (same_key key) self.old }
        ensures left { self.new ≡ remove_entry (same_key key) self.old }
        ensures ordered { IsStrictlySortedBy key_order (keys_of self.new) }
    {
        match place_of(self.first.as_slice(), key) {
            Some(i) => Some(self.first.remove(i).1),
            None => self.rest.remove(&key),
        }
    }

    // Takes the messages of iterations before one out.
    pub(crate) fn drop_before(&mut self, k: u64)
        ensures left { self.new ≡ not_before k self.old }
        ensures ordered { IsStrictlySortedBy key_order (keys_of self.new) }
    {
        drop_first(&mut self.first, k);
        drop_before(&mut self.rest, k);
    }
}

// The order of keys is total: a fact from where this is called.
fn is_ordered<K: Ord>()
    ensures { IsTotalOrder K.cmp }
{}

// The place of the message under a key.
fn place_of(messages: &[(RefKey, Payload)], key: RefKey) -> Option<usize>
    ensures exact { result ≡ place_of key messages.now }
    ensures within { IfSome result (λ i. i < length messages.now) }
{
    for (i, entry) in messages.iter().enumerate() {
        if is_same(key, entry.0) {
            return Some(i);
        }
    }
    None
}

// The place of the first message whose key is above one.
fn above(messages: &[(RefKey, Payload)], key: RefKey) -> Option<usize>
    ensures exact { result ≡ above key messages.now }
    ensures within { IfSome result (λ i. i < length messages.now) }
{
    for (i, entry) in messages.iter().enumerate() {
        if precedes(key, entry.0) {
            return Some(i);
        }
    }
    None
}

fn is_same(a: RefKey, b: RefKey) -> bool
    ensures { result ≡ same_key a b }
{
    a.iteration == b.iteration && a.port == b.port
}

fn precedes(a: RefKey, b: RefKey) -> bool
    ensures { result ≡ precedes a b }
{
    if a.iteration != b.iteration {
        return a.iteration < b.iteration;
    }
    matches!(a.port.cmp(&b.port), Ordering::Less)
}

// Takes the messages of iterations before `k` out. Keys ascend, so where the first message stays, all do, and none is moved.
fn drop_first(held: &mut Vec<(RefKey, Payload)>, k: u64)
    requires { IsStrictlySortedBy key_order (keys_of held.old.items) }
    ensures { held.new.items ≡ not_before k held.old.items }
{
    if !begins_early(held.as_slice(), k) {
        return;
    }
    held.retain(|entry| entry.0.iteration >= k);
}

// Whether the first message is of an iteration before `k`.
fn begins_early(messages: &[(RefKey, Payload)], k: u64) -> bool
    ensures { result ≡ begins_before k messages.now }
{
    match messages.first() {
        Some(entry) => entry.0.iteration < k,
        None => false,
    }
}

// Takes the messages of iterations before `k` out. They come first, so the others aren't looked at.
fn drop_before(held: &mut BTreeMap<RefKey, Payload>, k: u64)
    requires { IsStrictlySortedBy key_order (keys_of held.old.entries) }
    ensures entries { held.new.entries ≡ not_before k held.old.entries }
    ensures ordered { IsStrictlySortedBy key_order (keys_of held.new.entries) }
{
    if held.is_empty() {
        return;
    }
    'entries: while begins_before(held, k) {
        held.pop_first();
    }
}

// Whether the first message is of an iteration before `k`.
fn begins_before(held: &BTreeMap<RefKey, Payload>, k: u64) -> bool
    ensures { result ≡ begins_before k held.now.entries }
{
    match held.first_key_value() {
        Some((key, _)) => key.iteration < k,
        None => false,
    }
}
