//! The writer that compares.
ghost use Rattle.std.specs.Prelude.{◌≡◌, ◌≢◌, ◌<◌, [], IfErr, IfOk, IfSome, OnOk, None, Some, length};
ghost use Rattle.gp_compare.specs.Comparer.{ComparesAs, DiffersWithin, TakesBehind, TakesCount};
ghost use Rattle.gp_compare.specs.Fault.{HasFailed, fault_of};
ghost use Rattle.gp_compare.specs.Place.{behind, front};

use crate::ahead::Ahead;
use crate::difference::Difference;
use crate::expects::Expects;
use crate::fault::{CompareError, CompareFault};
use crate::place::Place;
use crate::step::{Step, make_end, make_step};
use gp_stream::{Source, Taken};
use std::alloc::{AllocError, Global};
use std::io;
use std::io::{ErrorKind, Read, Write};
use std::marker::{Model, PhantomData};

/// A writer that reads what is expected beside what it takes. Behind the first octet that differs it takes no more than
/// the rest of that line, as far as it is shown, and then every write fails. Once a read fails or memory is refused,
/// every write fails too. Contracts see what it took, and where that differs; what is expected is `E`'s.
#[derive(Drop)]
pub struct Comparer<E: Expects, R: Read> {
    alloc: Global,
    ahead: Ahead<R>,
    place: Place,
    difference: Option<Difference>,
    fault: Option<CompareFault>,
    taken: Taken,
    of: PhantomData<E>,
}

impl<E: Expects, R: Read> Model for Comparer<E, R> {
    ghost use Rattle.gp_compare.specs.Comparer.{ComparerState, Knows};

    ghost Value = { ComparerState };

    ghost view = { λ s. record { taken = s.taken.octets; difference = s.difference; fault = s.fault } };

    ghost invariant = { λ s. Knows s.fault s.difference E.expected s.taken.octets s.ahead s.place };
}

/// Takes in what comes behind a difference, and tells whether it does: not where no more of the line is shown.
fn take_behind(difference: &mut Difference, octets: &[u8]) -> Result<bool, AllocError>
    ensures { IfOk result (TakesBehind difference.old difference.new octets.now) }
{
    if difference.got.is_whole() {
        return Ok(false);
    }
    difference.got.take(octets)?;
    Ok(true)
}

impl<E: Expects, R: Read> Comparer<E, R> {
    /// Makes a comparer that took nothing. Takes memory for a block of what is expected.
    pub fn new(alloc: Global, expected: Source<R>) -> Result<Self, AllocError>
    where
        R: Drop,
        requires { expected.remaining ≡ E.expected }
        ensures { IfOk result (λ comparer. comparer ≡ record { taken = []; difference = None; fault = None }) }
    {
        let ahead = Ahead::new(alloc, expected)?;
        Ok(Comparer {
            alloc,
            ahead,
            place: Place::new(alloc),
            difference: None,
            fault: None,
            taken: Taken::new(),
            of: PhantomData,
        })
    }

    /// How many lines were taken that are as expected, with their line feeds; of use only where all is.
    pub fn lines(&self) -> u64
        ensures { self.now.difference ≡ None → self.now.fault ≡ None → result ≡ (behind front self.now.taken).feeds }
    {
        self.place.lines()
    }

    /// Takes octets where all are as expected so far, and gives how many; None where that is not known any more.
    fn take_more(&mut self, octets: &[u8]) -> Option<usize>
        requires running { (self.old.fault ≡ None) × (self.old.difference ≡ None) }
        requires some { 0 < length octets.now }
        ensures { TakesCount self.old self.new octets.now result }
    {
        match make_step(self.alloc, &mut self.ahead, &mut self.place, octets) {
            Ok(Step::Same(count)) => {
                self.taken.note(&octets[..count]);
                Some(count)
            }
            Ok(Step::Other(difference)) => {
                self.difference = Some(difference);
                self.taken.note(octets);
                Some(octets.len())
            }
            Err(fault) => {
                self.fault = Some(fault);
                None
            }
        }
    }

    /// Takes octets that come behind a difference, and gives how many; None where it takes no more.
    fn take_rest(&mut self, octets: &[u8]) -> Option<usize>
        requires differs { self.old.difference ≢ None }
        requires running { self.old.fault ≡ None }
        requires some { 0 < length octets.now }
        ensures { TakesCount self.old self.new octets.now result }
    {
        let Some(difference) = &mut self.difference else {
            return None;
        };
        match take_behind(difference, octets) {
            Ok(true) => {
                self.taken.note(octets);
                Some(octets.len())
            }
            Ok(false) => None,
            Err(AllocError) => {
                self.fault = Some(CompareFault::OutOfMemory);
                None
            }
        }
    }

    /// Takes octets, and gives how many; None where it takes no more.
    pub(crate) fn accept(&mut self, octets: &[u8]) -> Option<usize>
        requires { 0 < length octets.now }
        ensures { TakesCount self.old self.new octets.now result }
    {
        if self.fault.is_some() {
            return None;
        }
        if self.difference.is_some() {
            return self.take_rest(octets);
        }
        self.take_more(octets)
    }

    /// Ends the text, and tells where it is the first time not as expected, if it isn't: if it is, all that is expected
    /// was read. Fails where it was not compared to its end.
    pub fn end(self) -> Result<Option<Difference>, CompareError<R>>
    where
        R: Drop,
        ensures compares { IfOk result (ComparesAs E.expected self.taken) }
        ensures same { IfOk result (λ end. end ≡ None → (self.difference ≡ None) × (self.fault ≡ None)) }
        ensures err { IfErr result HasFailed }
    {
        let Comparer {
            alloc,
            mut ahead,
            place,
            difference,
            fault,
            ..
        } = self;
        if let Some(fault) = fault {
            return Err(CompareError::of(fault, ahead));
        }
        if difference.is_some() {
            return Ok(difference);
        }
        match make_end(alloc, &mut ahead, &place) {
            Ok(end) => Ok(end),
            Err(fault) => Err(CompareError::of(fault, ahead)),
        }
    }

    /// Tells of a text that was not handed in to its end where it is not as expected; None where all of it that was
    /// taken is. Fails where that is not known.
    pub fn stop(self) -> Result<Option<Difference>, CompareError<R>>
    where
        R: Drop,
        ensures found { IfOk result (λ end. end ≡ self.difference) }
        ensures differs { IfOk result (λ end. IfSome end (DiffersWithin E.expected self.taken)) }
        ensures fault { OnOk result (self.fault ≡ None) }
        ensures err { IfErr result (λ error. HasFailed error × (self.fault ≡ Some (fault_of error))) }
    {
        let Comparer {
            ahead,
            difference,
            fault,
            ..
        } = self;
        match fault {
            Some(fault) => Err(CompareError::of(fault, ahead)),
            None => Ok(difference),
        }
    }
}

impl<E: Expects, R: Read> Write for Comparer<E, R> {
    ghost use Rattle.std.specs.Prelude.{Some};

    ghost contents = { λ s. Some s.taken };

    fn write(&mut self, octets: &[u8]) -> io::Result<usize> {
        if octets.is_empty() {
            return Ok(0);
        }
        match self.accept(octets) {
            Some(count) => Ok(count),
            None => Err(io::Error::from(ErrorKind::Other)),
        }
    }

    fn flush(&mut self) -> io::Result<()> {
        Ok(())
    }
}
