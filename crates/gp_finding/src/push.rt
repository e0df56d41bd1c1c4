//! What is told of a rule that is broken, as text or as JSON.
ghost use Rattle.std.specs.Prelude.{◌≡◌, ◌+◌, ◌<◌, ◌≤◌, ◌++◌, ℕ, List, length, OnErr, OnOk, vec_capacity, vec_len};
ghost use Rattle.gp_watch.specs.Heard.{settings_of};
ghost use Rattle.gp_finding.specs.Told.{told_finding};

use crate::hearing::heard_in;
use crate::object::push_finding_object;
use crate::text::push_finding_text;
use crate::why::why_of;
use gp_log::Said;
use gp_observer::Rule;
use gp_ploam::Mask;
use gp_watch::{PortWatch, Settings};
use std::alloc::AllocError;

/// How findings, errors and the sum are told.
#[derive(Clone, Copy, Debug, PartialEq, Eq)]
pub enum FindingForm {
    /// A line of text each.
    Text,
    /// A JSON object each, on a line of its own.
    Json,
}

/// Where something is said.
#[derive(Clone, Copy, Debug, PartialEq, Eq)]
pub struct Place {
    /// The number of the line, from 1.
    pub line: u64,
    /// The port, 0 to 15.
    pub port: u8,
}

/// Appends what is told of a rule that is broken by what is said at a place, by what is known before it. Codes are read
/// under the mask.
///
/// Out of memory only where there is no room for it. What the buffer held stands there then, and behind it maybe a
/// first part of what is told. The room never gets less.
#[tactic(auto, unfolding(crate::specs::Told::told_finding))]
pub fn push_finding(
    out: &mut Vec<u8>,
    form: FindingForm,
    mask: Mask,
    settings: &Settings,
    watch: &PortWatch,
    place: &Place,
    said: &Said,
    rule: Rule,
) -> Result<(), AllocError>
    ensures told { OnOk result (out.new.items
        ≡ out.old.items ++ told_finding form mask (settings_of settings.now) watch.now place.now said.now rule) }
    ensures part { OnErr result ((part rest : List ℕ)
        × (told_finding form mask (settings_of settings.now) watch.now place.now said.now rule ≡ part ++ rest)
        × (out.new.items ≡ out.old.items ++ part)) }
    ensures room { OnErr result (vec_capacity out.old < vec_len out.old
        + length (told_finding form mask (settings_of settings.now) watch.now place.now said.now rule)) }
    ensures capacity { vec_capacity out.old ≤ vec_capacity out.new }
{
    let heard = heard_in(mask, said);
    let why = why_of(mask, settings, watch, said, &heard, rule);
    match form {
        FindingForm::Text => push_finding_text(out, mask, place, said, &heard, rule, why),
        FindingForm::Json => push_finding_object(out, mask, watch, place, said, &heard, rule, why),
    }
}
