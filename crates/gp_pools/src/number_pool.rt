//! Which numbers of a range are out, leased or settled, as two sets of bits, and the least that is free. The pools of
//! ONU-IDs and of Alloc-IDs stand on it.
ghost use Rattle.std.specs.Prelude.{◌≡◌, ℕ, ◌+◌, ◌-◌, ◌*◌, ◌^◌, ◌<◌, ◌≤◌, ◌↔◌, IsTrue, IsNone, IfNone, IfSome, EachIndex, false};
ghost use Rattle.std.specs.FinSet as set;
ghost use Rattle.gp_pools.specs.Pool.{IsFree, IsLeased, IsSettled, IsSound, HasRoom, count_out, fresh_pool, pool_with_all_leased_again, pool_with_all_settled, pool_with_lease, pool_with_lease_again, pool_with_settled, pool_without_all, pool_without_lease};
ghost use Rattle.gp_pools.specs.Allocs.{IsRising, number_at};
ghost use Rattle.gp_pools.specs.Slots.{filled, numbers_in};

use gp_numbers::NumberSet;
use std::marker::Model;

/// The numbers from `FIRST` to `last`, of which at most `limit` are out: leased, or settled. It knows
/// the numbers alone; the leases are those of the pools above it.
#[derive(Drop)]
pub struct NumberPool<const FIRST: u16, const WORDS: usize> {
    leased: NumberSet<FIRST, WORDS>,
    settled: NumberSet<FIRST, WORDS>,
    out: u16,
    last: u16,
    limit: u16,
}

impl<const FIRST: u16, const WORDS: usize> Model for NumberPool<FIRST, WORDS> {
    ghost use Rattle.std.specs.Prelude.{◌+◌, ◌*◌};
    ghost use Rattle.gp_pools.specs.Pool.{Pool, pool_code, pool_of, IsKeptPool};

    ghost Value = { Pool };

    ghost coded = { pool_code };

    ghost view = { λ p. pool_of FIRST p.last p.limit p.leased p.settled };

    ghost invariant = { λ p. IsKeptPool (pool_of FIRST p.last p.limit p.leased p.settled) p.out (FIRST + 64 * WORDS) };
}

impl<const FIRST: u16, const WORDS: usize> NumberPool<FIRST, WORDS> {
    /// Makes a pool with nothing out.
    pub fn new(last: u16, limit: u16) -> Self
        requires fits { FIRST + 64 * WORDS ≤ 2 ^ 16 }
        requires last { last < FIRST + 64 * WORDS }
        requires limit { limit ≤ last + 1 - FIRST }
        ensures { result ≡ fresh_pool FIRST last limit }
    {
        NumberPool {
            leased: NumberSet::new(),
            settled: NumberSet::new(),
            out: 0,
            last,
            limit,
        }
    }

    /// Makes a second pool with the same numbers out.
    pub fn copy(&self) -> Self
        ensures { result ≡ self.now }
    {
        NumberPool {
            leased: self.leased.union(&self.leased),
            settled: self.settled.union(&self.settled),
            out: self.out,
            last: self.last,
            limit: self.limit,
        }
    }

    /// Leases a number that is not out, the least.
    pub fn take(&mut self) -> Option<u16>
        ensures none { IsNone result ↔ (count_out self.old ≡ self.old.limit) }
        ensures unchanged { IfNone result (self.new ≡ self.old) }
        ensures free { IfSome result (IsFree self.old) }
        ensures lease { IfSome result (λ number. self.new ≡ pool_with_lease self.old number) }
        ensures leased { IfSome result (IsLeased self.new) }
        ensures sound { IsSound self.old }
    {
        if self.out == self.limit {
            return None;
        }
        let Some(number) = self.leased.least_outside(&self.settled) else {
            unreachable!();
        };
        self.leased.insert(number);
        self.out += 1;
        Some(number)
    }

    /// Tells whether fewer numbers are out than may be.
    pub fn has_room(&self) -> bool
        ensures room { IsTrue result ↔ HasRoom self.now }
        ensures sound { IsSound self.now }
    {
        self.out < self.limit
    }

    /// Finds the least number that is not out and not barred, where one more may be out.
    pub fn least_free(&self, barred: &NumberSet<FIRST, WORDS>) -> Option<u16>
        ensures none { IfNone result
            ((number : ℕ) → IsFree self.now number → set.contains barred.now number ≡ false → HasRoom self.now → ⊥) }
        ensures free { IfSome result (IsFree self.now) }
        ensures unbarred { IfSome result (λ number. set.contains barred.now number ≡ false) }
        ensures room { IfSome result (λ _. HasRoom self.now) }
        ensures sound { IsSound self.now }
    {
        if self.out == self.limit {
            return None;
        }
        let taken = self.settled.union(barred);
        let number = self.leased.least_outside(&taken)?;
        if number > self.last {
            return None;
        }
        Some(number)
    }

    /// Leases a number that is free, where one more may be out.
    pub fn lease(&mut self, number: u16)
        requires free { IsFree self.old number }
        requires room { HasRoom self.old }
        ensures pool { self.new ≡ pool_with_lease self.old number }
        ensures leased { IsLeased self.new number }
    {
        self.leased.insert(number);
        self.out += 1;
    }

    /// Takes back a leased number.
    pub fn give_back(&mut self, number: u16)
        requires { IsLeased self.old number }
        ensures pool { self.new ≡ pool_without_lease self.old number }
        ensures sound { IsSound self.old }
    {
        self.leased.remove(number);
        self.out -= 1;
    }

    /// Tells whether the number is one of the pool's, and not out.
    pub fn is_free(&self, number: u16) -> bool
        ensures free { IsTrue result ↔ IsFree self.now number }
        ensures sound { IsSound self.now }
    {
        FIRST <= number
            && number <= self.last
            && !self.leased.contains(number)
            && !self.settled.contains(number)
    }

    /// Settles a leased number.
    pub fn settle(&mut self, number: u16)
        requires { IsLeased self.old number }
        ensures pool { self.new ≡ pool_with_settled self.old number }
        ensures settled { IsSettled self.new number }
    {
        self.leased.remove(number);
        self.settled.insert(number);
    }

    /// Leases a settled number again.
    pub fn lease_again(&mut self, number: u16)
        requires { IsSettled self.old number }
        ensures pool { self.new ≡ pool_with_lease_again self.old number }
        ensures leased { IsLeased self.new number }
        ensures own { (self.old.first ≤ number) × (number ≤ self.old.last) }
    {
        self.settled.remove(number);
        self.leased.insert(number);
    }

    /// Settles each of these leased numbers.
    pub fn settle_each(&mut self, slots: &[Option<(u16, bool)>])
        requires rising { IsRising (filled slots.now) }
        requires leased { EachIndex (filled slots.now) (λ k. IsLeased self.old (number_at (filled slots.now) k)) }
        ensures pool { self.new ≡ pool_with_all_settled self.old (numbers_in slots.now) }
        ensures settled { EachIndex (filled slots.now) (λ k. IsSettled self.new (number_at (filled slots.now) k)) }
    {
        for slot in slots {
            let Some((number, _)) = slot else {
                continue;
            };
            self.settle(*number);
        }
    }

    /// Leases each of these settled numbers again.
    pub fn lease_each(&mut self, slots: &[Option<(u16, bool)>])
        requires rising { IsRising (filled slots.now) }
        requires settled { EachIndex (filled slots.now) (λ k. IsSettled self.old (number_at (filled slots.now) k)) }
        ensures pool { self.new ≡ pool_with_all_leased_again self.old (numbers_in slots.now) }
        ensures leased { EachIndex (filled slots.now) (λ k. IsLeased self.new (number_at (filled slots.now) k)) }
        ensures own { EachIndex (filled slots.now) (λ k.
            (self.old.first ≤ number_at (filled slots.now) k) × (number_at (filled slots.now) k ≤ self.old.last)) }
    {
        for slot in slots {
            let Some((number, _)) = slot else {
                continue;
            };
            self.lease_again(*number);
        }
    }

    /// Takes back each of these leased numbers.
    pub fn give_back_each(&mut self, slots: &[Option<(u16, bool)>])
        requires rising { IsRising (filled slots.now) }
        requires leased { EachIndex (filled slots.now) (λ k. IsLeased self.old (number_at (filled slots.now) k)) }
        ensures { self.new ≡ pool_without_all self.old (numbers_in slots.now) }
    {
        for slot in slots {
            let Some((number, _)) = slot else {
                continue;
            };
            self.give_back(*number);
        }
    }
}
