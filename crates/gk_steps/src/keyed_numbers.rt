//! Numbers under keys, in buckets.
ghost use Rattle.std.specs.Prelude.{◌≡◌, ◌≤◌, ◌<◌, ℕ, length, IsTrue, IfOk, OnOk};
ghost use Rattle.gk_steps.specs.KeyedNumbers.{bucket_of, IsUnder, IsLeastUnder, PushesUnder};

use std::alloc::{AllocError, Global};

/// A number and its key.
#[derive(Clone, Copy, Debug)]
pub(crate) struct Keyed {
    pub key: u64,
    pub number: usize,
}

/// Numbers with their keys. Those whose keys have the same remainder by the number of buckets are in one bucket, in the
/// order in which they were added.
#[derive(Debug, Drop)]
pub(crate) struct KeyedNumbers {
    pub buckets: Vec<Vec<Keyed>>,
}

impl KeyedNumbers {
    /// Returns no numbers, without buckets. Doesn't allocate.
    pub(crate) fn new(alloc: Global) -> KeyedNumbers {
        KeyedNumbers {
            buckets: Vec::new(alloc),
        }
    }

    /// Returns no numbers, with so many buckets.
    pub(crate) fn with_buckets(alloc: Global, count: usize) -> Result<KeyedNumbers, AllocError>
        ensures { IfOk result (λ numbers. length numbers.buckets.items ≡ count) }
    {
        let mut buckets = Vec::with_capacity(alloc, count)?;
        while buckets.len() < count {
            buckets.push(Vec::new(alloc))?;
        }
        Ok(KeyedNumbers { buckets })
    }

    /// Returns the bucket of a key; empty if there are no buckets. Other keys may be in it, too.
    #[inline(always)]
    pub(crate) fn bucket_of(&self, key: u64) -> &[Keyed]
        ensures { result.now ≡ bucket_of self.now.buckets.items key }
    {
        let count = self.buckets.len();
        if count == 0 {
            return &[];
        }
        self.buckets[(key % count as u64) as usize].as_slice()
    }

    /// Returns how many numbers are under a key.
    pub(crate) fn count_under(&self, key: u64) -> usize {
        self.bucket_of(key)
            .iter()
            .filter(|item| item.key == key)
            .count()
    }

    /// Returns whether a number is under a key.
    fn has(&self, key: u64, number: usize) -> bool
        ensures { IsTrue result → IsUnder self.now.buckets.items key number }
    {
        let bucket = self.bucket_of(key);
        for k in 0..bucket.len() {
            if bucket[k].key == key && bucket[k].number == number {
                return true;
            }
        }
        false
    }

    /// Returns the least number from `from` on under a key, or `most` if none is less.
    #[inline(always)]
    pub(crate) fn least_under(&self, key: u64, from: usize, most: usize) -> usize
        ensures { IsLeastUnder self.now.buckets.items key from most result }
    {
        let bucket = self.bucket_of(key);
        let mut least = most;
        for k in 0..bucket.len() {
            let item = bucket[k];
            if item.key == key && from <= item.number && item.number < least {
                least = item.number;
            }
        }
        least
    }

    /// Adds a number under a key.
    pub(crate) fn push(&mut self, key: u64, number: usize) -> Result<(), AllocError>
        requires { 0 < length self.old.buckets.items }
        ensures { OnOk result
            (PushesUnder key number self.old.buckets.items self.new.buckets.items) }
    {
        let count = self.buckets.len();
        self.buckets[(key % count as u64) as usize].push(Keyed { key, number })?;
        Ok(())
    }

    /// Adds a number under a key, unless it is there.
    pub(crate) fn push_once(&mut self, key: u64, number: usize) -> Result<(), AllocError>
        requires { 0 < length self.old.buckets.items }
        ensures { OnOk result
            (PushesUnder key number self.old.buckets.items self.new.buckets.items) }
    {
        if self.has(key, number) {
            return Ok(());
        }
        self.push(key, number)
    }
}
