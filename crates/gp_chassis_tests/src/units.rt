//! What the tests share: units, what they send, and the configurations of ports that admit them.
use gp_chassis::ChassisConfig;
use gp_journal::{Journal, JournalFault};
use gp_machine::{
    Admitted, Command, Entry, Event, LAST_ALLOC_ID, MAX_UNITS, PortConfig, Refusal, Reply,
};
use gp_ploam::{Mask, Serial, Up, encode_up};
use std::alloc::{AllocError, Global};

/// The unit with the number 1.
pub(crate) const A: Serial = Serial(*b"ABCD\0\0\0\x01");

/// The operator asks for a search.
pub(crate) const SEARCH: Event = Event::Command(Command::Search);

/// A's serial number, without an ONU-ID.
pub(crate) const A_OCTETS: [u8; 13] = [0xff, 1, 0x41, 0x42, 0x43, 0x44, 0, 0, 0, 1, 0, 0, 0x2c];

/// A, without an ONU-ID, tells its serial number.
pub(crate) const A_SEARCHED: Event = Event::Burst {
    at: 100_000,
    bytes: A_OCTETS,
};

/// The unit with the number 2 tells its own.
pub(crate) const B_SEARCHED: Event = Event::Burst {
    at: 100_000,
    bytes: [0xff, 1, 0x41, 0x42, 0x43, 0x44, 0, 0, 0, 2, 0, 0, 0x91],
};

/// A tells its serial number as the unit with the ONU-ID 0.
pub(crate) const A_RANGED: Event = Event::Burst {
    at: 100_000,
    bytes: [0, 1, 0x41, 0x42, 0x43, 0x44, 0, 0, 0, 1, 0, 0, 0x6b],
};

/// A, with the ONU-ID 0, has nothing to say.
pub(crate) const NOTHING: Event = Event::Burst {
    at: 100_000,
    bytes: [0, 4, 0, 0, 0, 0, 0, 0, 0, 0, 0, 0, 0x7c],
};

/// A port's reply, of those that tables name.
#[derive(Clone, Copy, Debug, PartialEq, Eq)]
pub(crate) enum Said {
    Ticked,
    Searching,
    Found(u8),
    Ranged(u8, u32),
    Alive(u8),
    Allocated(u16),
    EnabledAll,
    Refused(Refusal),
    /// Any other reply.
    More,
}

/// Names a reply.
pub(crate) fn spoken(reply: &Reply) -> Said {
    match reply {
        Reply::Ticked => Said::Ticked,
        Reply::Searching => Said::Searching,
        Reply::Found(onu) => Said::Found(*onu),
        Reply::Ranged { onu, eqd } => Said::Ranged(*onu, *eqd),
        Reply::Alive(onu) => Said::Alive(*onu),
        Reply::Allocated(id) => Said::Allocated(*id),
        Reply::EnabledAll => Said::EnabledAll,
        Reply::Refused(cause) => Said::Refused(*cause),
        _ => Said::More,
    }
}

/// The unit of the vendor ABCD with this number.
fn unit(number: u16) -> Serial {
    let [high, low] = number.to_be_bytes();
    Serial([0x41, 0x42, 0x43, 0x44, 0, 0, high, low])
}

/// The unit with this number answers a search, 100,000 bit times after its grant.
pub(crate) fn heard(number: u16) -> Event {
    let message = Up::SerialNumber {
        onu: 0xff,
        serial: unit(number),
        random: 0,
        flags: 0,
    };
    Event::Burst {
        at: 100_000,
        bytes: encode_up(&message, Mask::Plain),
    }
}

/// Puts so many units from this one on into a list.
fn admit(serials: &mut Vec<Serial>, first: u16, count: u16) -> Result<(), AllocError> {
    for number in 0..count {
        serials.push(unit(first.wrapping_add(number)))?;
    }
    Ok(())
}

/// A port with so many search windows to a search, which admits so many units from this one on.
pub(crate) fn port_of(
    alloc: Global,
    (first, count): (u16, u16),
    cycles: u8,
) -> Result<PortConfig, AllocError> {
    let mut serials = Vec::new(alloc);
    admit(&mut serials, first, count)?;
    Ok(PortConfig {
        mask: Mask::Plain,
        teqd: 311_040,
        overhead: [0; 10],
        max_units: MAX_UNITS,
        alloc_last: LAST_ALLOC_ID,
        cycles,
        search_period: 0,
        quarantine: 800,
        admitted: Admitted::from(serials),
    })
}

/// Puts a port behind others.
fn add_port(
    alloc: Global,
    ports: &mut Vec<PortConfig>,
    admitted: (u16, u16),
    cycles: u8,
) -> Result<(), AllocError> {
    let port = port_of(alloc, admitted, cycles)?;
    ports.push(port)?;
    Ok(())
}

/// Puts ports that admit so many units from these on behind others.
fn add_ports(
    alloc: Global,
    ports: &mut Vec<PortConfig>,
    cycles: u8,
    units: &[(u16, u16)],
) -> Result<(), AllocError> {
    for admitted in units {
        add_port(alloc, ports, *admitted, cycles)?;
    }
    Ok(())
}

/// A chassis whose ports admit so many units from these on.
pub(crate) fn chassis_of(
    alloc: Global,
    licences: u32,
    journal_limit: u32,
    cycles: u8,
    units: &[(u16, u16)],
) -> Result<ChassisConfig, AllocError> {
    let mut ports = Vec::new(alloc);
    add_ports(alloc, &mut ports, cycles, units)?;
    Ok(ChassisConfig {
        licences,
        journal_limit,
        ports,
    })
}

/// Appends an entry, of a journal that has few. Memory that is refused is asked for once more.
pub(crate) fn record(journal: &mut Journal, entry: Entry) -> Result<(), JournalFault> {
    if journal.reserve_one().is_err() {
        journal.reserve_one()?;
    }
    if journal.len() < 100 {
        let _ = journal.append(entry);
    }
    Ok(())
}
