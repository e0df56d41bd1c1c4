//! Sets of names that tell their least name at once: a bit for each name in words of 64, and the span of the words that
//! may have a 1.
ghost use Rattle.std.specs.Prelude.{◌≡◌, ◌<◌, ◌≤◌, ◌^◌, IfOk};
ghost use Rattle.std.specs.FinSet as set;
ghost use Rattle.gp_numbers.specs.Least.{IsLeastFrom};
ghost use Rattle.gp_timers.specs.Names.{IsOutsideZero, IsSpan, IsWithWord};

use std::alloc::{AllocError, Global};
use std::marker::Model;

/// Which words may have a 1: those from `first` on and before `end`.
#[derive(Clone, Copy, Drop)]
struct Span {
    first: usize,
    end: usize,
}

impl Span {
    /// Makes the span that has a word too.
    fn with(self, index: usize) -> Span
        requires { index < 2 ^ 16 }
        ensures { IsWithWord self index result }
    {
        if self.first >= self.end {
            return Span {
                first: index,
                end: index + 1,
            };
        }
        Span {
            first: self.first.min(index),
            end: self.end.max(index + 1),
        }
    }
}

/// Leaves out the words of 0 at the front of a span.
fn trimmed(words: &[u64], span: Span) -> Span
    requires { IsOutsideZero words.now span }
    ensures { IsSpan words.now result }
{
    let mut first = span.first;
    while first < span.end && words[first] == 0 {
        first += 1;
    }
    Span {
        first,
        end: span.end,
    }
}

/// A set of names. The least is in the first word of the span, unless the span is empty.
#[derive(Drop)]
pub struct NameSet {
    words: Vec<u64>,
    span: Span,
}

impl Model for NameSet {
    ghost use Rattle.std.specs.Prelude.{◌*◌, length};
    ghost use Rattle.std.specs.Ordering.{nat_cmp};
    ghost use Rattle.std.specs.FinSet as set;
    ghost use Rattle.std.specs.Coded.{codes, coded_ℕ};
    ghost use Rattle.gp_numbers.specs.Numbers.{numbers_in};
    ghost use Rattle.gp_timers.specs.Names.{NamesIn, IsSpan};

    ghost Value = { NamesIn };

    ghost coded = { Prim.hlevel (codes, set.code {R = nat_cmp} coded_ℕ) };

    ghost view = { λ s. record {
      room = 64 * length s.words.items;
      members = numbers_in 0 (64 * length s.words.items) s.words.items;
    } };

    ghost invariant = { λ s. IsSpan s.words.items s.span };
}

impl NameSet {
    /// Makes an empty set, with room for the names from 0 to `names - 1`.
    pub fn begin(alloc: Global, names: u16) -> Result<NameSet, AllocError>
        ensures room { IfOk result (λ s. names ≤ s.room) }
        ensures empty { IfOk result (λ s. s.members ≡ set.empty) }
    {
        let words = vec![in alloc; 0; usize::from(names) / 64 + 1]?;
        Ok(NameSet {
            words,
            span: Span { first: 0, end: 0 },
        })
    }

    /// Finds the least name.
    pub fn least(&self) -> Option<u16>
        ensures { IsLeastFrom self.now.members 0 result }
    {
        let span = self.span;
        if span.first >= span.end {
            return None;
        }
        let place = 64 * span.first + self.words[span.first].trailing_zeros() as usize;
        Some(place as u16)
    }

    /// Puts a name in.
    pub fn insert(&mut self, name: u16)
        requires { name < self.old.room }
        ensures { self.new ≡ record self.old { members = set.insert self.old.members name } }
    {
        let place = usize::from(name);
        self.words[place / 64] |= 1 << (place % 64);
        self.span = self.span.with(place / 64);
    }

    /// Takes a name out, where it is in.
    pub fn remove(&mut self, name: u16)
        requires { name < self.old.room }
        ensures { self.new ≡ record self.old { members = set.remove self.old.members name } }
    {
        let place = usize::from(name);
        self.words[place / 64] &= !(1 << (place % 64));
        self.span = trimmed(&self.words, self.span);
    }
}
