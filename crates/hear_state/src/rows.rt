//! What is known of each ONU-ID: who holds it, the equalization delay that it was told, and what its unit said.
ghost use Rattle.std.specs.Prelude.{◌≡◌, List, map as list_map, slice_index_or, replicate, set, IfOk};
ghost use Rattle.hear_rules.specs.Known as spec;
ghost use Rattle.hear_state.specs.Changes.{is_held_by};
ghost use Rattle.hear_state.specs.Facts.{sure_of};
ghost use Rattle.hear_state.specs.Rows.{answers_of, dropped_row, number_of, popped_up_row, span_of, unheard_row};

use crate::facts::{Fact, Sure};
use gp_ploam::{Serial, Up};
use std::alloc::{AllocError, Global};
use std::marker::Model;

/// A row for each number that an octet can be.
const ONU_ROWS: usize = 256;

/// The delays of all that a unit said, in bit times: one of them had none, or they are between these two.
#[derive(Clone, Copy, Debug, PartialEq, Eq)]
pub(crate) enum Span {
    Bare,
    Between { least: u32, greatest: u32 },
}

/// What is known of an ONU-ID.
#[derive(Clone, Copy, Debug, PartialEq, Eq)]
pub(crate) enum Row {
    /// It isn't known who holds it.
    Unheard,
    /// Nobody holds it.
    Nobodys,
    /// This unit holds it.
    Of {
        serial: Serial,
        /// The equalization delay that it was told, in bit times.
        delay: Fact<u32>,
        /// What it said since it was assigned.
        answers: Fact<Span>,
    },
}

/// The rows of all ONU-IDs. After `begin` they take no memory.
#[derive(Drop)]
pub(crate) struct Rows {
    rows: Vec<Row>,
}

impl Model for Rows {
    ghost use Rattle.std.specs.Prelude.{◌≡◌, List, length};
    ghost use Rattle.std.specs.Coded.{coded_list};
    ghost use Rattle.hear_state.specs.declared.rows.Row.{Row};
    ghost use Rattle.hear_state.specs.contracts.rows.Row as row;

    ghost Value = { List Row };

    ghost coded = { coded_list row.the_row.coded };

    ghost view = { λ r. r.rows.items };

    ghost invariant = { λ r. length r.rows.items ≡ 256 };
}

impl Span {
    /// The delays of one thing that a unit said.
    fn of(delay: Option<u32>) -> Span
        ensures { span_of result ≡ spec.span_of delay }
    {
        match delay {
            None => Span::Bare,
            Some(delay) => Span::Between {
                least: delay,
                greatest: delay,
            },
        }
    }

    /// The delays, and one more.
    fn with(self, delay: Option<u32>) -> Span
        ensures { span_of result ≡ spec.span_with (span_of self) delay }
    {
        match (self, delay) {
            (Span::Between { least, greatest }, Some(delay)) => Span::Between {
                least: if least <= delay { least } else { delay },
                greatest: if delay <= greatest { greatest } else { delay },
            },
            _ => Span::Bare,
        }
    }
}

/// What a unit said, and once more.
fn answers_with(answers: Fact<Span>, delay: Option<u32>) -> Fact<Span>
    ensures { answers_of result ≡ spec.answers_with (answers_of answers) delay }
{
    match answers {
        Fact::Unknown => Fact::Unknown,
        Fact::Nothing => Fact::Is(Span::of(delay)),
        Fact::Is(span) => Fact::Is(span.with(delay)),
    }
}

/// Tells whether the holder of an ONU-ID says this, and not another unit that gives its own serial number.
fn is_by(holder: &Serial, message: &Up) -> bool
    ensures { result ≡ spec.is_by holder.now message.now }
{
    match message {
        Up::SerialNumber { serial, .. } => serial == holder,
        _ => true,
    }
}

impl Row {
    /// Tells whether this unit holds the ONU-ID.
    pub(crate) fn is_held_by(&self, serial: &Serial) -> bool
        ensures { result ≡ is_held_by self.now serial.now }
    {
        match self {
            Row::Of { serial: holder, .. } => serial == holder,
            Row::Unheard | Row::Nobodys => false,
        }
    }

    /// Whether the Alloc-IDs of the ONU-ID are lost, where this unit gets it.
    pub(crate) fn lost_to(&self, serial: &Serial) -> Sure
        ensures { sure_of result ≡ spec.lost_of (number_of self.now) serial.now }
    {
        match self {
            Row::Unheard => Sure::Unsure,
            Row::Of {
                serial: holder,
                delay: Fact::Nothing,
                ..
            } if serial == holder => Sure::No,
            Row::Of { serial: holder, .. } if serial == holder => Sure::Unsure,
            Row::Nobodys | Row::Of { .. } => Sure::Yes,
        }
    }

    /// A unit that was assigned just now has no delay, and said nothing.
    fn fresh(serial: &Serial) -> Row
        ensures { number_of result ≡ spec.fresh serial.now }
    {
        Row::Of {
            serial: *serial,
            delay: Fact::Nothing,
            answers: Fact::Nothing,
        }
    }

    /// Where it isn't known who held it: of a unit that was heard asking this is the beginning.
    fn begun(asked: Sure, serial: &Serial) -> Row
        ensures { number_of result ≡ spec.begun (sure_of asked) serial.now }
    {
        match asked {
            Sure::Yes => Row::fresh(serial),
            Sure::No | Sure::Unsure => Row::Of {
                serial: *serial,
                delay: Fact::Unknown,
                answers: Fact::Unknown,
            },
        }
    }

    /// The ONU-ID once it is assigned to a unit, which was heard asking or not.
    pub(crate) fn assigned(self, asked: Sure, serial: &Serial) -> Row
        ensures { number_of result ≡ spec.assigned (sure_of asked) (number_of self) serial.now }
    {
        match self {
            Row::Unheard => Row::begun(asked, serial),
            Row::Of { serial: holder, .. } if *serial == holder => self,
            Row::Nobodys | Row::Of { .. } => Row::fresh(serial),
        }
    }

    /// The ONU-ID once its unit is told an equalization delay.
    pub(crate) fn ranged(self, eqd: u32) -> Row
        ensures { number_of result ≡ spec.ranged (number_of self) eqd }
    {
        match self {
            Row::Of {
                serial,
                answers,
                ..
            } => Row::Of {
                serial,
                delay: Fact::Is(eqd),
                answers,
            },
            Row::Unheard | Row::Nobodys => self,
        }
    }

    /// The ONU-ID once it isn't known whether its unit has its delay still.
    pub(crate) fn popped_up(self) -> Row
        ensures { result ≡ popped_up_row self }
    {
        match self {
            Row::Of {
                serial,
                delay: Fact::Unknown | Fact::Is(_),
                answers,
            } => Row::Of {
                serial,
                delay: Fact::Unknown,
                answers,
            },
            Row::Unheard | Row::Nobodys | Row::Of { .. } => self,
        }
    }

    /// The ONU-ID once a unit says something with it, with its delay where it was measured.
    pub(crate) fn spoken(self, message: &Up, delay: Option<u32>) -> Row
        ensures { number_of result ≡ spec.spoken (number_of self) message.now delay }
    {
        match self {
            Row::Of {
                serial,
                delay: eqd,
                answers,
            } if is_by(&serial, message) => Row::Of {
                serial,
                delay: eqd,
                answers: answers_with(answers, delay),
            },
            Row::Unheard | Row::Nobodys | Row::Of { .. } => self,
        }
    }
}

/// Makes every row one that nobody holds.
fn drop_each(rows: &mut [Row])
    ensures { rows.new ≡ list_map dropped_row rows.old }
{
    for row in rows.iter_mut() {
        *row = Row::Nobodys;
    }
}

/// Makes every row one whose delay is unsure.
fn pop_up_each(rows: &mut [Row])
    ensures { rows.new ≡ list_map popped_up_row rows.old }
{
    for row in rows.iter_mut() {
        *row = row.popped_up();
    }
}

impl Rows {
    /// Nothing was said of any. Fails only where there is no memory.
    pub(crate) fn begin(alloc: Global, row: Row) -> Result<Rows, AllocError>
        ensures { IfOk result (λ rows. rows ≡ replicate 256 row) }
    {
        Ok(Rows {
            rows: vec![in alloc; row; ONU_ROWS]?,
        })
    }

    /// Gives a row.
    pub(crate) fn get(&self, onu: u8) -> Row
        ensures { result ≡ slice_index_or self.now onu unheard_row }
    {
        self.rows.as_slice()[usize::from(onu)]
    }

    /// Writes a row.
    pub(crate) fn set(&mut self, onu: u8, row: Row)
        ensures { self.new ≡ set self.old onu row }
    {
        self.rows[usize::from(onu)] = row;
    }

    /// Notes that nobody holds any.
    pub(crate) fn drop_all(&mut self)
        ensures { self.new ≡ list_map dropped_row self.old }
    {
        drop_each(&mut self.rows);
    }

    /// Notes that it isn't known which units have their delay still.
    pub(crate) fn pop_up_all(&mut self)
        ensures { self.new ≡ list_map popped_up_row self.old }
    {
        pop_up_each(&mut self.rows);
    }
}
