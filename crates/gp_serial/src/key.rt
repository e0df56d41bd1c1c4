//! A serial number as a key of the map of the admission list.
ghost use Rattle.std.specs.Prelude.{◌≡◌, refl};
ghost use Rattle.std.specs.Cmp.{partial_equiv_from_equiv, partial_order_from_total};
ghost use Rattle.std.specs.Ordering.{as_partial_cmp, eq_by_cmp};
ghost use Rattle.std.proofs.lemmas.Cmp.{eq_by_cmp_equiv};
ghost use Rattle.gp_ploam.specs.Serials.{serial_cmp};
ghost use Rattle.gp_ploam.proofs.Serials.{serials_total};

use gp_ploam::Serial;
use std::cmp::Ordering;
use std::marker::Model;

/// A serial number as the number that its octets are, the first of them the highest: it has the order of the octets.
#[derive(Drop)]
pub(crate) struct SerialKey {
    number: u64,
}

impl Model for SerialKey {
    ghost use Rattle.gp_ploam.specs.declared.message.Serial.{Serial};
    ghost use Rattle.gp_ploam.specs.Serials.{coded_serial};
    ghost use Rattle.std.specs.Int.{to_be_bytes, w64};
    ghost use Rattle.std.specs.Prelude.{◌<◌, ◌^◌};
    ghost use Rattle.gp_serial.specs.Spelling.{serial_with};

    ghost Value = { Serial };

    ghost coded = { coded_serial };

    ghost invariant = { λ a. a.number < 2 ^ 64 };

    ghost view = { λ a. serial_with (to_be_bytes w64 a.number) };
}

impl SerialKey {
    /// Makes the key of a serial number.
    pub(crate) fn of(serial: Serial) -> SerialKey
        ensures { result ≡ serial }
    {
        SerialKey {
            number: serial.number(),
        }
    }
}

impl PartialEq for SerialKey {
    ghost eq = { eq_by_cmp serial_cmp };

    ghost laws = { partial_equiv_from_equiv (eq_by_cmp_equiv serials_total) };

    fn eq(&self, other: &SerialKey) -> bool {
        self.cmp(other).is_eq()
    }
}

impl Eq for SerialKey {
    ghost laws = { eq_by_cmp_equiv serials_total };
}

impl PartialOrd for SerialKey {
    ghost partial_cmp = { as_partial_cmp serial_cmp };

    ghost laws = { partial_order_from_total serials_total };

    fn partial_cmp(&self, other: &SerialKey) -> Option<Ordering> {
        Some(self.cmp(other))
    }
}

impl Ord for SerialKey {
    ghost cmp = { serial_cmp };

    ghost total = { serials_total };

    ghost matches_partial_cmp = { λ _ _. refl };

    ghost matches_eq = { λ _ _. refl };

    fn cmp(&self, other: &SerialKey) -> Ordering {
        self.number.cmp(&other.number)
    }
}
