//! What is known of one port's units: `Knowledge`, and what is asked of it.
ghost use Rattle.std.specs.Prelude.{◌≡◌, IfOk, replicate};
ghost use Rattle.std.specs.FinMap as map;
ghost use Rattle.hear_rules.specs.Known.{known_midway, known_whole};
ghost use Rattle.hear_state.specs.Kept.{Kept, SameKnown, followed_at, known_of, row_at};

use crate::facts::{Fact, Sure};
use crate::index::{Followed, Index};
use crate::owners::Owners;
use crate::rows::{Row, Rows};
use gp_ploam::Serial;
use std::alloc::{AllocError, Global};
use std::marker::Model;

/// What is known of one port's units by what was said on its fibre. Contracts see what is kept, which `known_of` reads.
/// Memory is taken where it is begun, and where a serial number is new.
#[derive(Drop)]
pub struct Knowledge {
    pub(crate) rows: Rows,
    pub(crate) index: Index,
    /// What is known of each serial number that isn't followed.
    pub(crate) others: Followed,
    /// Whose each Alloc-ID is.
    pub(crate) owners: Owners,
    /// Whether Upstream_Overhead was sent.
    pub(crate) overhead: Sure,
    /// Whether the port has had a code up.
    pub(crate) up: bool,
}

impl Model for Knowledge {
    ghost use Rattle.hear_state.specs.Kept.{IsKept, Kept, kept_code};

    ghost Value = { Kept };

    ghost coded = { kept_code };

    ghost view = { λ k. record {
      rows = k.rows;
      followed = k.index;
      others = k.others;
      owners = k.owners;
      overhead = k.overhead;
      up = k.up;
    } };

    ghost invariant = { λ k. IsKept (record {
      rows = k.rows;
      followed = k.index;
      others = k.others;
      owners = k.owners;
      overhead = k.overhead;
      up = k.up;
    }) };
}

impl Knowledge {
    /// From the first message on: nobody holds anything, nobody asked, nobody is disabled. Fails only where there is no
    /// memory.
    pub fn begin_whole(alloc: Global) -> Result<Knowledge, AllocError>
        ensures knows { IfOk result (λ knowledge. SameKnown (known_of knowledge) known_whole) }
        ensures none { IfOk result (λ knowledge. let kept : Kept = knowledge in kept.followed ≡ map.empty) }
    {
        Ok(Knowledge {
            rows: Rows::begin(alloc, Row::Nobodys)?,
            index: Index::new(alloc),
            others: Followed {
                holds: Fact::Nothing,
                disabled: Sure::No,
                asks: Some(0),
                asked: Sure::No,
            },
            owners: Owners::begin_whole(alloc)?,
            overhead: Sure::No,
            up: false,
        })
    }

    /// From the middle on: nothing is known. Fails only where there is no memory.
    pub fn begin_midway(alloc: Global) -> Result<Knowledge, AllocError>
        ensures knows { IfOk result (λ knowledge. SameKnown (known_of knowledge) known_midway) }
        ensures none { IfOk result (λ knowledge. let kept : Kept = knowledge in kept.followed ≡ map.empty) }
    {
        Ok(Knowledge {
            rows: Rows::begin(alloc, Row::Unheard)?,
            index: Index::new(alloc),
            others: Followed {
                holds: Fact::Unknown,
                disabled: Sure::Unsure,
                asks: None,
                asked: Sure::Unsure,
            },
            owners: Owners::begin_midway(alloc)?,
            overhead: Sure::Unsure,
            up: false,
        })
    }

    /// Gives what is known of an ONU-ID.
    pub(crate) fn row(&self, onu: u8) -> Row
        ensures { result ≡ row_at self.now onu }
    {
        self.rows.get(onu)
    }

    /// Gives what is known of a serial number.
    pub(crate) fn followed(&self, serial: &Serial) -> Followed
        ensures { result ≡ followed_at self.now serial.now }
    {
        self.index.get(serial).unwrap_or(self.others)
    }
}
