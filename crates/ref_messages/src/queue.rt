//! The messages held, as a finite map from keys to payloads.

ghost use Rattle.std.specs.Prelude.{◌≡◌, ◌==◌, ◌≤◌, if◌then◌else◌, nat_le, [], length, is_some, MatchOption, OnOk, OnErr, IfErr};
ghost use Rattle.std.specs.List.Sorted.{IsStrictlySortedBy};
ghost use Rattle.std.specs.Map.{keys_of};
ghost use Rattle.ref_messages.specs.declared.key.RefKey.{RefKey};
ghost use Rattle.ref_messages.specs.Queue.{IsLawful, key_order, same_key, message, put, without, from, not_before, begins_before};
ghost use Rattle.ref_messages.specs.Refusal.{Takes, Refuses};

use crate::fault::PutFault;
use crate::key::RefKey;
use crate::messages::Messages;
use chare_base::message::Payload;
use std::alloc::Global;
use std::marker::Model;

/// The messages that an element holds, each under its key, all of iterations from a number `now` on.
///
/// Contracts see a `Queue` of `specs/Queue`: `since`, which is that number, and `held`, the keys in order with
/// their payloads. So two queues that hold the same messages are equal there, whatever came first.
#[derive(Drop)]
pub struct RefQueue {
    since: u64,
    held: Messages,
}

impl Model for RefQueue {
    ghost use Rattle.ref_messages.specs.Queue.{Queue, IsLawful};

    ghost Value = { Queue };

    ghost view = { λ q. record { since = q.since; held = q.held } };

    ghost invariant = { λ q. IsLawful (record { since = q.since; held = q.held }) };
}

impl RefQueue {
    /// A queue that holds no message and takes those of iterations from `now` on. It takes no memory.
    pub fn start(alloc: Global, now: u64) -> RefQueue
        ensures { result ≡ record { since = now; held = [] } }
    {
        RefQueue {
            since: now,
            held: Messages::new(alloc),
        }
    }

    /// The first iteration whose messages are still taken. No message held is of an earlier one, nor are two held
    /// under one key: the clause `lawful` tells callers so.
    pub fn now(&self) -> u64
        ensures now { result ≡ self.now.since }
        ensures lawful { IsLawful self.now }
    {
        self.since
    }

    /// Whether no message is held.
    pub fn is_empty(&self) -> bool
        ensures { result ≡ (length self.now.held == 0) }
    {
        self.held.is_empty()
    }

    /// Whether a message is held under a key.
    pub fn has(&self, key: RefKey) -> bool
        ensures { result ≡ is_some (message self.now key) }
    {
        self.held.has(key)
    }

    /// The message under a key, if one is held. It stays.
    pub fn get(&self, key: RefKey) -> Option<&Payload>
        ensures { MatchOption result (message self.now key ≡ None)
            (λ payload. message self.now key ≡ Some payload.now) }
    {
        self.held.get(key)
    }

    /// Holds a message under its key.
    ///
    /// `Old`: its iteration is before `now`. `Held`: its iteration isn't, and a message is held under its key.
    /// `Memory`: neither, and an allocation was refused. After each, all is as before.
    pub fn put(&mut self, key: RefKey, payload: Payload) -> Result<(), PutFault>
        ensures taken { OnOk result (Takes self.old key) }
        ensures refused { IfErr result (Refuses self.old key) }
        ensures ok { OnOk result (self.new ≡ put self.old key payload) }
        ensures found { OnOk result
            ((k : RefKey) → message self.new k
            ≡ (if same_key key k then Some payload else message self.old k)) }
        ensures err { OnErr result (self.new ≡ self.old) }
    {
        if key.iteration < self.since {
            return Err(PutFault::Old { now: self.since });
        }
        if self.has(key) {
            return Err(PutFault::Held);
        }
        self.held.insert(key, payload)?;
        Ok(())
    }

    /// Takes the message under a key out, if one is held; the others stay.
    pub fn take(&mut self, key: RefKey) -> Option<Payload>
        ensures value { result ≡ message self.old key }
        ensures left { self.new ≡ without self.old key }
        ensures found { (k : RefKey) → message self.new k
            ≡ (if same_key key k then None else message self.old k) }
    {
        self.held.remove(key)
    }

    /// Iterations before `k` are over: their messages go, and no more of them are taken. All else stays. It looks
    /// at the messages that go and at a few more.
    pub fn drop_below(&mut self, k: u64)
        requires { self.old.since ≤ k }
        ensures left { self.new ≡ from self.old k }
        ensures found { (key : RefKey) → message self.new key
            ≡ (if nat_le k key.iteration then message self.old key else None) }
    {
        self.held.drop_before(k);
        self.since = k;
    }
}

#[cfg(test)]
mod tests {
    use super::*;
    use chare_base::message::{EntryId, Port};
    use std::test::Fail;

    fn key(iteration: u64, entry: u16) -> RefKey {
        RefKey {
            iteration,
            port: Port::Entry(EntryId(entry)),
        }
    }

    fn one(value: i64) -> Payload {
        Payload {
            count: 1,
            values: [value, 0, 0, 0, 0, 0, 0, 0],
        }
    }

    #[test]
    fn taken_by_key_whatever_came_first(rt: HostRuntime) -> Result<(), Fail> {
        let mut queue = RefQueue::start(rt.alloc(), 5);
        queue.put(key(7, 1), one(71))?;
        queue.put(key(5, 2), one(52))?;
        queue.put(key(5, 1), one(51))?;
        assert_eq!(rt; queue.get(key(5, 1)).copied(), Some(one(51)));
        assert_eq!(rt; queue.take(key(5, 1)), Some(one(51)));
        assert_eq!(rt; queue.get(key(5, 1)).copied(), None);
        assert_eq!(rt; queue.take(key(7, 1)), Some(one(71)));
        assert_eq!(rt; queue.take(key(7, 2)), None);
        assert_eq!(rt; queue.take(key(5, 2)), Some(one(52)));
        assert!(rt; queue.is_empty());
        Ok(())
    }

    #[test]
    fn old_and_second_messages_are_refused(rt: HostRuntime) -> Result<(), Fail> {
        let mut queue = RefQueue::start(rt.alloc(), 0);
        for iteration in 0..40 {
            queue.put(key(iteration, 3), one(0))?;
        }
        assert_eq!(rt; queue.put(key(30, 3), one(1)), Err(PutFault::Held));
        assert_eq!(rt; queue.now(), 0);
        queue.drop_below(30);
        assert_eq!(rt; queue.now(), 30);
        assert!(rt; !queue.has(key(29, 3)));
        assert!(rt; queue.has(key(30, 3)));
        assert!(rt; queue.has(key(39, 3)));
        assert_eq!(rt;
            queue.put(key(29, 3), one(0)),
            Err(PutFault::Old { now: 30 })
        );
        Ok(())
    }
}
