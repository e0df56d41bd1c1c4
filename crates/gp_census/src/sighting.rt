//! What is counted of a unit and of a port.
ghost use Rattle.std.specs.Prelude.{◌≡◌};
ghost use Rattle.gp_census.specs.Counts.{no_counts, no_sighting, one_more, sighting_after, took_until};

/// What was counted of a unit. Times are in nanoseconds; a count stays at 2^64 - 1.
#[derive(Clone, Copy, Debug, PartialEq, Eq)]
pub struct Sighting {
    /// How often it asked for an ONU-ID.
    pub asked: u64,
    /// How often an ONU-ID was assigned to it.
    pub assigned: u64,
    /// How often it was told an equalization delay while it held an ONU-ID.
    pub ranged: u64,
    /// How often a message took from it the ONU-ID that it held.
    pub lost: u64,
    /// How many codes came up with the ONU-ID that it held.
    pub answers: u64,
    /// When its last code came up.
    pub heard_last: Option<u64>,
    /// When it first asked since it last held no ONU-ID.
    pub first_asked: Option<u64>,
    /// How long it took from then to the first equalization delay.
    pub took: Option<u64>,
}

/// What was counted of a port. A count stays at 2^64 - 1.
#[derive(Clone, Copy, Debug, PartialEq, Eq)]
pub struct PortCounts {
    /// How many messages were told; the copies of one count once.
    pub messages: u64,
    /// How many codes came up, garbled ones too.
    pub up: u64,
    /// How many windows were opened.
    pub grants: u64,
    /// How many codes down were garbled.
    pub garbled_down: u64,
    /// How many codes up were garbled.
    pub garbled_up: u64,
}

/// What happens to a unit, with the time in nanoseconds where that is kept.
#[derive(Clone, Copy)]
pub(crate) enum UnitEvent {
    /// It asks for an ONU-ID.
    Asks(u64),
    /// An ONU-ID is assigned to it.
    IsAssigned,
    /// It is told an equalization delay.
    IsRanged(u64),
    /// It gets another ONU-ID in the place of its own.
    IsRenumbered,
    /// It loses its ONU-ID, and gets none.
    Loses,
    /// A code comes up with its ONU-ID.
    Answers(u64),
}

/// Gives one more, as far as 64 bits go.
pub(crate) fn one_more(count: u64) -> u64
    ensures { result ≡ one_more count }
{
    count.saturating_add(1)
}

impl Sighting {
    /// Nothing was counted.
    pub(crate) fn none() -> Sighting
        ensures { result ≡ no_sighting }
    {
        Sighting {
            asked: 0,
            assigned: 0,
            ranged: 0,
            lost: 0,
            answers: 0,
            heard_last: None,
            first_asked: None,
            took: None,
        }
    }

    /// Gives how long it took to its first equalization delay, if it gets one at this time.
    fn took_until(&self, time: u64) -> Option<u64>
        ensures { result ≡ took_until self.now.first_asked self.now.took time }
    {
        match (self.took, self.first_asked) {
            (None, Some(first)) => Some(time.saturating_sub(first)),
            (took, _) => took,
        }
    }

    /// Gives what is counted after something happened to the unit.
    pub(crate) fn after(&self, event: UnitEvent) -> Sighting
        ensures { result ≡ sighting_after event self.now }
    {
        let mut unit = *self;
        match event {
            UnitEvent::Asks(time) => {
                unit.asked = one_more(unit.asked);
                unit.heard_last = Some(time);
                unit.first_asked = Some(unit.first_asked.unwrap_or(time));
            }
            UnitEvent::IsAssigned => unit.assigned = one_more(unit.assigned),
            UnitEvent::IsRanged(time) => {
                unit.ranged = one_more(unit.ranged);
                unit.took = self.took_until(time);
            }
            UnitEvent::IsRenumbered => unit.lost = one_more(unit.lost),
            UnitEvent::Loses => {
                unit.lost = one_more(unit.lost);
                unit.first_asked = None;
                unit.took = None;
            }
            UnitEvent::Answers(time) => {
                unit.answers = one_more(unit.answers);
                unit.heard_last = Some(time);
            }
        }
        unit
    }
}

impl PortCounts {
    /// Nothing was counted.
    pub(crate) fn none() -> PortCounts
        ensures { result ≡ no_counts }
    {
        PortCounts {
            messages: 0,
            up: 0,
            grants: 0,
            garbled_down: 0,
            garbled_up: 0,
        }
    }
}
