//! Turns that a player tells, beside turns of which a chassis gives the receipts: numbers, grants and lines are the
//! same, however few entries the journals keep, and the wished number is handed out.
ghost use Rattle.std.specs.Prelude.{◌≡◌, ◌+◌, ◌<◌, ◌≤◌, ℕ, IfOk, length};
ghost use Rattle.gp_chassis.specs.Limits.{IsWithin};
ghost use Rattle.gp_replay.specs.Chassis.{HasRoom};

use super::replay::ONE_UNIT;
use gp_chassis::{ChassisConfig, ChassisCore};
use gp_licence::MAX_LICENCES;
use gp_machine::{Command, Event};
use gp_ploam::{Mask, Serial, Up, encode_up};
use gp_ranging::Grant;
use gp_replay::{LineBuffer, Player, Turn};
use gp_script::read_script;
use gp_trace::push_line;
use std::alloc::{AllocError, Global};
use std::marker::Brand;
use std::sync::ledger::{Blank, Ledger};

/// The unit that the port admits.
const UNIT: Serial = Serial([0x41, 0x42, 0x43, 0x44, 0, 0, 0, 1]);

/// What the port is asked.
#[derive(Clone, Copy)]
enum Asked {
    Frame,
    Search,
    /// The unit says its serial number, as one with this ONU-ID.
    Hear(u8),
    Alloc,
}

/// What is asked in turn, and which number is wished for. ONU-ID 7 is handed out, and Alloc-ID 300.
const TURNS: [(Asked, Option<u16>); 18] = [
    (Asked::Search, None),
    (Asked::Frame, None),
    (Asked::Frame, Some(9)),
    (Asked::Frame, None),
    (Asked::Frame, None),
    (Asked::Frame, None),
    (Asked::Hear(255), Some(7)),
    (Asked::Frame, None),
    (Asked::Frame, None),
    (Asked::Frame, None),
    (Asked::Frame, None),
    (Asked::Hear(7), None),
    (Asked::Frame, None),
    (Asked::Frame, None),
    (Asked::Frame, None),
    (Asked::Frame, None),
    (Asked::Alloc, Some(300)),
    (Asked::Frame, None),
];

/// The event of what is asked.
fn event_of(asked: Asked) -> Event {
    match asked {
        Asked::Frame => Event::Frame,
        Asked::Search => Event::Command(Command::Search),
        Asked::Hear(onu) => Event::Burst {
            at: 100_000,
            bytes: encode_up(
                &Up::SerialNumber {
                    onu,
                    serial: UNIT,
                    random: 0,
                    flags: 0,
                },
                Mask::Plain,
            ),
        },
        Asked::Alloc => Event::Command(Command::Alloc(UNIT)),
    }
}

/// How a turn is asked for.
#[derive(Clone, Copy)]
enum Way {
    /// A chassis gives its receipt, and the line is built from that.
    Taken,
    /// A player tells its line.
    Told,
}

/// What was said of all turns: their lines, and the number and the grant of each.
#[derive(PartialEq, Debug, Drop)]
struct Said {
    lines: Vec<u8>,
    numbers: Vec<u64>,
    grants: Vec<Option<Grant>>,
}

/// What is said before the first turn.
fn nothing_said(alloc: Global) -> Said {
    Said {
        lines: Vec::new(alloc),
        numbers: Vec::new(alloc),
        grants: Vec::new(alloc),
    }
}

/// Has a chassis serve all turns, and cuts its journal after each, so that it keeps no more than one entry.
fn all_taken<L: Ledger>(alloc: Global, core: &mut ChassisCore<L>) -> Result<Said, AllocError> {
    let mut said = nothing_said(alloc);
    for place in 0..TURNS.len() {
        let (asked, wished) = TURNS[place];
        let Ok(receipt) = core.apply_wishing(0, event_of(asked), wished) else {
            return Err(AllocError);
        };
        push_line(&mut said.lines, Mask::Plain, &receipt)?;
        said.numbers.push(receipt.number)?;
        said.grants.push(receipt.entry.answer.grant)?;
        let Ok(_) = core.cut(alloc, 0) else {
            return Err(AllocError);
        };
    }
    Ok(said)
}

/// Opens a chassis with its journals, and has it serve all turns.
fn taken_on<L: Ledger>(
    alloc: Global,
    blank: Blank,
    config: &ChassisConfig,
) -> Result<Said, AllocError>
    requires name { blank.name ≡ L.name }
    requires parts { (blank.parts ≡ L.parts) × (L.parts ≡ MAX_LICENCES) }
{
    let Ok(mut core) = ChassisCore::<L>::begin(alloc, blank, config) else {
        return Err(AllocError);
    };
    let said = all_taken(alloc, &mut core);
    core.close();
    said
}

/// Has a player tell a turn, and gives its number and its grant. The buffer holds its line then.
fn told_of<L: Ledger>(
    player: &mut Player<L>,
    buffer: &mut LineBuffer,
    turn: Turn,
    wished: Option<u16>,
) -> Result<(u64, Option<Grant>), AllocError>
    requires port { turn.port < length player.old.next }
    requires room { HasRoom 1 player.old }
    ensures ports { length player.new.next ≡ length player.old.next }
    ensures left { IfOk result (λ said. (count : ℕ) → HasRoom (1 + count) player.old → HasRoom count player.new) }
{
    let told = player.tell_turn(turn, wished, Mask::Plain, buffer)?;
    Ok((told.number, told.grant))
}

/// Has a player tell all turns.
fn all_told<L: Ledger>(alloc: Global, player: &mut Player<L>) -> Result<Said, AllocError>
    requires port { 0 < length player.old.next }
    requires room { HasRoom 18 player.old }
{
    let mut buffer = LineBuffer::new(alloc)?;
    let mut said = nothing_said(alloc);
    for place in 0..TURNS.len() {
        let (asked, wished) = TURNS[place];
        let turn = Turn {
            port: 0,
            event: event_of(asked),
        };
        let (number, grant) = told_of(player, &mut buffer, turn, wished)?;
        said.lines.extend_from_slice(buffer.as_bytes())?;
        said.numbers.push(number)?;
        said.grants.push(grant)?;
    }
    Ok(said)
}

/// Opens a player, and has it tell all turns.
fn told_on<L: Ledger>(
    alloc: Global,
    blank: Blank,
    config: &ChassisConfig,
) -> Result<Said, AllocError>
    requires name { blank.name ≡ L.name }
    requires parts { (blank.parts ≡ L.parts) × (L.parts ≡ MAX_LICENCES) }
    requires within { IsWithin config.now }
    requires port { 0 < length config.now.ports.items }
{
    let mut player = Player::<L>::begin(alloc, blank, config)?;
    let said = all_told(alloc, &mut player);
    player.close();
    said
}

/// What is said in one of the ways.
fn said_on<L: Ledger>(
    alloc: Global,
    blank: Blank,
    config: &ChassisConfig,
    way: Way,
) -> Result<Said, AllocError>
    requires name { blank.name ≡ L.name }
    requires parts { (blank.parts ≡ L.parts) × (L.parts ≡ MAX_LICENCES) }
    requires within { IsWithin config.now }
    requires port { 0 < length config.now.ports.items }
{
    match way {
        Way::Taken => taken_on::<L>(alloc, blank, config),
        Way::Told => told_on::<L>(alloc, blank, config),
    }
}

/// What is said with journals of so many entries; None where the script is none.
fn said_with(alloc: Global, journal_limit: u32, way: Way) -> Result<Option<Said>, AllocError> {
    let Ok(script) = read_script(alloc, ONE_UNIT.as_bytes()) else {
        return Ok(None);
    };
    let config = ChassisConfig {
        licences: script.licences,
        journal_limit,
        ports: script.ports,
    };
    if !config.is_within(alloc) || config.ports.is_empty() {
        return Ok(None);
    }
    let blank = Blank::new(u64::from(MAX_LICENCES));
    let said = said_on::<Brand>(alloc, blank, &config, way)?;
    Ok(Some(said))
}

#[test]
fn told_as_they_are_taken(rt: HostRuntime) -> Result<(), AllocError> {
    for journal_limit in [1, 2, 3, 17, 18, 1_000_000] {
        let taken = said_with(rt.alloc(), journal_limit, Way::Taken)?;
        let told = said_with(rt.alloc(), journal_limit, Way::Told)?;
        assert!(rt; taken.is_some() && told == taken, "{journal_limit}");
    }
    Ok(())
}

/// The lines of the turns in which a number is handed out are those of the wished ones, and all turns are numbered.
#[test]
fn hands_out_what_is_wished_for(rt: HostRuntime) -> Result<(), AllocError> {
    let Some(said) = said_with(rt.alloc(), 1, Way::Told)? else {
        panic!(rt; "a script");
    };
    let lines = str::from_utf8(&said.lines).unwrap_or("");
    assert!(rt; lines.contains("\n0 6 burst 100000 ff01414243440000000100002c = found 7\n"));
    assert!(rt; lines.contains("\n0 16 alloc ABCD00000001 = allocated 300\n"));
    assert!(rt;
        said.numbers
            .iter()
            .enumerate()
            .all(|(place, number)| place as u64 == *number)
    );
    Ok(())
}
