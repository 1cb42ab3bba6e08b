ghost use Rattle.std.specs.Prelude.{◌≡◌, [], length, not, IsTrue, OnOk, OnErr, OnSome, IsSome, IsNone, IsOk, IfOk, IfErr};
ghost use Rattle.std.specs.Option.{option_copied};
ghost use Rattle.std.specs.List.{filter};
ghost use Rattle.std.specs.Ordering.{is_eq};
ghost use Rattle.std.specs.FinMap.Entries.{find, put, is_sorted};
ghost use Rattle.ordered_entries.specs.Place.{IsAt, IsGap};

use crate::Key;
use rdb_types::{Copied, NoMemory};
use std::alloc::Global;
use std::marker::Model;
use std::mem;

/// A map kept as a sorted list of entries: a look-up takes time in the logarithm of its length.
#[derive(Debug, Drop)]
pub struct Entries<K: Key, V> {
    held: Vec<(K, V)>,
}

impl<K: Key, V> Model for Entries<K, V> {
    ghost use Rattle.std.specs.Prelude.{List, IsTrue};
    ghost use Rattle.std.specs.Coded.{coded_list, coded×};
    ghost use Rattle.std.specs.FinMap.Entries.{is_sorted};

    ghost Value = { List (K × V) };

    ghost coded = { coded_list (coded× K.code V.code) };

    ghost view = { λ e. e.held.items };

    ghost invariant = { λ e. IsTrue (is_sorted K.order e.held.items) };
}

impl<K: Key, V> Entries<K, V> {
    /// A map with no entry, which takes no memory.
    pub fn new(alloc: Global) -> Entries<K, V>
        ensures { result ≡ [] }
    {
        Entries {
            held: Vec::new(alloc),
        }
    }

    /// How many entries there are.
    pub fn len(&self) -> usize
        ensures { result ≡ length self.now }
    {
        self.held.len()
    }

    /// The entries, in the order of their keys.
    pub fn as_slice(&self) -> &[(K, V)]
        ensures value { result.now ≡ self.now }
        ensures ordered { IsTrue (is_sorted K.order self.now) }
    {
        self.held.as_slice()
    }

    /// The value at a key.
    pub fn find(&self, key: &K) -> Option<&V>
        ensures { option_copied result ≡ find K.order key.now self.now }
    {
        match self.place(key) {
            Ok(at) => Some(&self.held[at].1),
            Err(_) => None,
        }
    }

    // Where the key's entry stands, or where it would go.
    fn place(&self, key: &K) -> Result<usize, usize>
        ensures found { IfOk result (IsAt K.order key.now self.now) }
        ensures absent { IfErr result (IsGap K.order key.now self.now) }
        ensures ordered { IsTrue (is_sorted K.order self.now) }
    {
        self.held.binary_search_by(|entry| entry.0.order(key))
    }
}

impl<K: Key, V: Drop> Entries<K, V> {
    /// Puts the value at the key: a new entry in its place, or a new value in the entry that is there. Only a new entry wants memory.
    pub fn put(&mut self, key: K, value: V) -> Result<(), NoMemory>
        ensures ok { OnOk result (self.new ≡ put K.order key value self.old) }
        ensures err { OnErr result (self.new ≡ self.old) }
        ensures present { IsSome (find K.order key self.old) → IsOk result }
    {
        match self.place(&key) {
            Ok(at) => {
                self.held[at].1 = value;
                Ok(())
            }
            Err(at) => Ok(self.held.insert(at, (key, value))?),
        }
    }

    /// Puts the value in the entry of this key and gives what was there; with no such entry the value is dropped. It takes no memory.
    pub fn exchange(&mut self, key: &K, value: V) -> Option<V>
        ensures found { result ≡ find K.order key.now self.old }
        ensures some { OnSome result (self.new ≡ put K.order key.now value self.old) }
        ensures none { IsNone result → self.new ≡ self.old }
    {
        match self.place(key) {
            Ok(at) => Some(mem::replace(&mut self.held[at].1, value)),
            Err(_) => None,
        }
    }

    /// Takes the entry of this key away and gives its value, which takes no memory.
    pub fn remove(&mut self, key: &K) -> Option<V>
        ensures removed { self.new ≡ filter (λ e. not (is_eq (K.order key.now e.0))) self.old }
        ensures value { result ≡ find K.order key.now self.old }
    {
        match self.place(key) {
            Ok(at) => {
                let (_, value) = self.held.remove(at);
                Some(value)
            }
            Err(_) => None,
        }
    }
}

impl<K: Key + Copied, V: Copied> Copied for Entries<K, V> {
    fn copied(&self, alloc: Global) -> Result<Entries<K, V>, NoMemory> {
        let mut held = Vec::new(alloc);
        for entry in &self.held {
            held.push(entry.copied(alloc)?)?;
        }
        Ok(Entries { held })
    }
}
