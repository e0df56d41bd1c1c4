//! What a chassis asks of its desks, and does with them, when it is closed or cut.
ghost use Rattle.std.specs.Prelude.{◌≡◌, ◌<◌, ◌≤◌, ◌+◌, ◌∷◌, ◌↔◌, [], length, map, sum_by, vec_len, vec_capacity, IfOk, IfErr, IsTrue};
ghost use Rattle.gp_ploam.specs.OnuIds.{onu_ids};
ghost use Rattle.gp_licence.specs.declared.ledger_parts.TheConstants.{MAX_LICENCES};
ghost use Rattle.gp_machine.specs.Config.{max_ports};
ghost use Rattle.gp_workers.specs.Closing.{AreJournalsOf, ArePiecesOf, desk_rows};

use super::unlocked::Unlocked;
use gp_chassis::PortDesk;
use gp_journal::{Journal, Piece};
use gp_laws::every_state_is_sound;
use gp_licence::{LicenceBook, Licences};
use gp_machine::{PortConfig, compares_configs};
use gp_port::PortImage;
use std::alloc::{AllocError, Global};
use std::sync::Mutex;
use std::sync::ledger::Ledger;

/// Takes the first item out.
fn take_first<T>(items: &mut Vec<T>) -> T
    requires { 0 < vec_len items.old }
    ensures first { items.old.items ≡ result ∷ items.new.items }
    ensures len { vec_len items.new + 1 ≡ vec_len items.old }
    ensures capacity { vec_capacity items.new ≡ vec_capacity items.old }
{
    items.remove(0)
}

// ---- questions

/// Tells how many units are active on the desk's port.
pub(crate) fn rows<L: Ledger>(desk: &Unlocked<L>) -> u32
    ensures rows { result ≡ desk_rows desk.now }
    ensures most { result ≤ onu_ids }
{
    every_state_is_sound();
    let _journal = desk.desk.journal();
    desk.desk.core().rows() as u32
}

/// Tells how many units are active on all ports.
pub(crate) fn rows_in<L: Ledger>(desks: &[Unlocked<L>]) -> u32
    requires { length desks.now ≤ max_ports }
    ensures rows { result ≡ sum_by desk_rows desks.now }
    ensures most { result ≤ MAX_LICENCES }
{
    let mut all = 0;
    for desk in desks {
        all += rows(desk);
    }
    all
}

/// Tells whether each desk has the configuration of its port.
pub(crate) fn are_configured<L: Ledger>(configs: &[PortConfig], desks: &[Unlocked<L>]) -> bool
    requires { length configs.now ≡ length desks.now }
    ensures { IsTrue result ↔ (map (λ desk. desk.state.config) desks.now ≡ configs.now) }
{
    compares_configs();
    for port in 0..desks.len() {
        let unlocked = &desks[port];
        if *unlocked.desk.config() != configs[port] {
            return false;
        }
    }
    true
}

/// Makes an image of each port as it stands.
pub(crate) fn images_of<L: Ledger>(
    alloc: Global,
    desks: &[Unlocked<L>],
) -> Result<Vec<PortImage>, AllocError>
    ensures { IfOk result (λ images. images.items ≡ map (λ desk. desk.state) desks.now) }
{
    let mut images = Vec::with_capacity(alloc, desks.len())?;
    for desk in desks {
        let Ok(image) = desk.desk.core().image(alloc) else {
            return Err(AllocError);
        };
        images.push_reserved(image);
    }
    Ok(images)
}

// ---- ends and cuts

/// Ends the desks, and the book with the licences of their units, and hands out the journals.
pub(crate) fn close_all<L: Ledger>(
    desks: Vec<Unlocked<L>>,
    book: LicenceBook<L>,
    journals: Vec<Journal>,
) -> (Vec<Journal>, u32)
    requires empty { journals.items ≡ [] }
    requires room { vec_len desks ≤ vec_capacity journals }
    ensures journals { AreJournalsOf desks.items result.0.items }
    ensures licences { result.1 ≡ book.free + sum_by desk_rows desks.items }
{
    let mut desks = desks;
    let mut book = book;
    let mut journals = journals;
    while !desks.is_empty() {
        let Unlocked { desk } = take_first(&mut desks);
        let (journal, held) = desk.close();
        book.give(held);
        journals.push_reserved(journal);
    }
    desks.destroy_empty();
    (journals, book.close(Licences::none()))
}

/// Cuts each desk's journal, with two images of where its port stands, and puts the desk under a lock.
pub(crate) fn cut_all<L: Ledger>(
    desks: Vec<Unlocked<L>>,
    ports: Vec<Mutex<PortDesk<L>>>,
    bases: Vec<PortImage>,
    ends: Vec<PortImage>,
    pieces: Vec<Piece>,
) -> (Vec<Mutex<PortDesk<L>>>, Vec<Piece>)
    requires empty { (vec_len ports ≡ 0) × (pieces.items ≡ []) }
    requires room { (vec_len desks ≤ vec_capacity ports) × (vec_len desks ≤ vec_capacity pieces) }
    requires bases { bases.items ≡ map (λ desk. desk.state) desks.items }
    requires ends { ends.items ≡ map (λ desk. desk.state) desks.items }
    ensures ports { vec_len result.0 ≡ vec_len desks }
    ensures pieces { ArePiecesOf desks.items result.1.items }
{
    let mut desks = desks;
    let mut ports = ports;
    let mut bases = bases;
    let mut ends = ends;
    let mut pieces = pieces;
    while !desks.is_empty() {
        let Unlocked { mut desk } = take_first(&mut desks);
        let piece = desk.cut_at(take_first(&mut bases), take_first(&mut ends));
        ports.push_reserved(Mutex::new(desk));
        pieces.push_reserved(piece);
    }
    desks.destroy_empty();
    (ports, pieces)
}
