//! Why a rule is broken, by what is known before.
ghost use Rattle.std.specs.Prelude.{◌≡◌};
ghost use Rattle.std.specs.FinMap as map;
ghost use Rattle.gp_decode.specs.Lines as decode;
ghost use Rattle.gp_observer.specs.Rules.{unit_if};
ghost use Rattle.gp_watch.specs.Changes.{onu_held};
ghost use Rattle.gp_watch.specs.Heard.{heard_of, settings_of};
ghost use Rattle.gp_finding.specs.Why as spec;

use gp_log::Said;
use gp_observer::Rule;
use gp_ploam::{BROADCAST_ONU, Down, Mask, Serial, Up, crc};
use gp_ranging::Grant;
use gp_watch::{Heard, PortWatch, Settings};

/// Why a rule is broken. Delays are in bit times.
#[derive(Clone, Copy, Debug, PartialEq, Eq)]
pub(crate) enum Why {
    /// What is heard can't break the rule.
    Nothing,
    /// The check octet is right under this mask.
    RightUnder(Mask),
    /// This check octet should stand.
    Wanted(u8),
    /// So many copies of the message before are missing.
    Missing(u8),
    /// No unit may have the ONU-ID.
    OnuRange,
    /// The Alloc-ID is none of a unit's further ones.
    AllocRange,
    /// The serial number is disabled.
    Disabled,
    /// The serial number didn't ask.
    Unasked,
    /// The ONU-ID is of this serial number.
    Held(u8, Serial),
    /// The serial number holds this ONU-ID.
    Holds(u8),
    /// Nobody holds the ONU-ID.
    Nobody(u8),
    /// The serial number was not heard with the ONU-ID.
    Unheard(u8),
    /// No answer had this delay.
    Unanswered(u32),
    /// The equalized delay is this, which is less than the equalization delay.
    Equalized(u32),
    /// The unit has no delay yet.
    Unranged,
    /// The Alloc-ID is of this ONU-ID.
    Owned(u16, u8),
    /// Nobody has the Alloc-ID.
    Unowned(u16),
    /// The unit with this ONU-ID has no delay yet.
    Undelayed(u8),
    /// No Assign_Alloc-ID was sent to the unit.
    Untold,
    /// The unit was ranged with the first delay, and answers with the second.
    Ranged(u32, u32),
}

// ---- what is known

/// Tells who holds an ONU-ID, or that nobody does.
fn holder_why(watch: &PortWatch, onu: u8) -> Why
    ensures { result ≡ spec.holder_why onu (map.get watch.now.seen.holder onu) }
{
    match watch.holder(onu) {
        Some(serial) => Why::Held(onu, serial),
        None => Why::Nobody(onu),
    }
}

/// Tells who has an Alloc-ID, or that nobody does.
fn owner_why(watch: &PortWatch, alloc: u16) -> Why
    ensures { result ≡ spec.owner_why alloc (map.get watch.now.seen.alloc alloc) }
{
    match watch.owner(alloc) {
        Some(onu) => Why::Owned(alloc, onu),
        None => Why::Unowned(alloc),
    }
}

/// Tells which ONU-ID a serial number holds, if it holds one.
fn held_why(watch: &PortWatch, serial: &Serial) -> Why
    ensures { result ≡ spec.held_why (onu_held watch.now serial.now) }
{
    match watch.onu_of(serial) {
        Some(onu) => Why::Holds(onu),
        None => Why::Nothing,
    }
}

// ---- a wrong check octet

/// Gives the mask that is not in use.
fn other_mask(mask: Mask) -> Mask
    ensures { result ≡ decode.other_mask mask }
{
    match mask {
        Mask::Plain => Mask::Coset,
        Mask::Coset => Mask::Plain,
    }
}

/// Tells what would be right of a code whose check octet is wrong.
fn check_why(mask: Mask, code: &[u8; 13]) -> Why
    ensures { result ≡ spec.check_why mask code.now }
{
    let other = other_mask(mask);
    if crc(&code[..12], other) == code[12] {
        Why::RightUnder(other)
    } else {
        Why::Wanted(crc(&code[..12], mask))
    }
}

/// Tells the same of what was said; a grant has no check octet.
fn said_why(mask: Mask, said: &Said) -> Why
    ensures { result ≡ spec.said_why mask said.now }
{
    match said {
        Said::Down(code) | Said::Up { code, .. } => check_why(mask, code),
        Said::Grant(_) => Why::Nothing,
    }
}

/// Tells why what was said breaks a rule, where its check octet is wrong.
fn garbled_why(mask: Mask, said: &Said, rule: Rule) -> Why
    ensures { result ≡ spec.garbled_why mask said.now rule }
{
    match rule {
        Rule::Garbled => said_why(mask, said),
        _ => Why::Nothing,
    }
}

// ---- a message down

/// Tells which numbers may be given.
fn range_why(message: &Down) -> Why
    ensures { result ≡ spec.range_why message.now }
{
    match message {
        Down::AssignOnu { .. } => Why::OnuRange,
        Down::AssignAlloc { keep: true, .. } => Why::AllocRange,
        _ => Why::Nothing,
    }
}

/// Gives a reason of Assign_ONU-ID alone.
fn assign_why(reason: Why, message: &Down) -> Why
    ensures { result ≡ spec.assign_why reason message.now }
{
    match message {
        Down::AssignOnu { .. } => reason,
        _ => Why::Nothing,
    }
}

/// Tells who holds the ONU-ID that is given.
fn taken_why(watch: &PortWatch, message: &Down) -> Why
    ensures { result ≡ spec.taken_why watch.now message.now }
{
    match *message {
        Down::AssignOnu { onu, .. } => holder_why(watch, onu),
        _ => Why::Nothing,
    }
}

/// Tells what the serial number holds that gets an ONU-ID.
fn renumbered_why(watch: &PortWatch, message: &Down) -> Why
    ensures { result ≡ spec.renumbered_why watch.now message.now }
{
    match message {
        Down::AssignOnu { serial, .. } => held_why(watch, serial),
        _ => Why::Nothing,
    }
}

/// Tells that nobody holds an ONU-ID, unless it stands for all.
fn unless_all(onu: u8) -> Why
    ensures { result ≡ spec.unheld_why (unit_if onu) }
{
    if onu == BROADCAST_ONU {
        Why::Nothing
    } else {
        Why::Nobody(onu)
    }
}

/// Tells that nobody holds the ONU-ID that a message is to.
fn nobody_why(message: &Down) -> Why
    ensures { result ≡ spec.nobody_why message.now }
{
    match *message {
        Down::RangingTime { onu, .. } | Down::AssignAlloc { onu, .. } => Why::Nobody(onu),
        Down::Deactivate { onu } | Down::Popup { onu } => unless_all(onu),
        _ => Why::Nothing,
    }
}

/// Tells with which ONU-ID the unit was not heard that gets a delay.
fn unranged_why(message: &Down) -> Why
    ensures { result ≡ spec.unranged_why message.now }
{
    match *message {
        Down::RangingTime { onu, .. } => Why::Unheard(onu),
        _ => Why::Nothing,
    }
}

/// Tells which delay no answer had, or that none can be so great.
fn delay_why(settings: &Settings, message: &Down) -> Why
    ensures { result ≡ spec.delay_why (settings_of settings.now) message.now }
{
    match *message {
        Down::RangingTime { eqd, .. } if eqd <= settings.teqd => {
            Why::Unanswered(settings.teqd - eqd)
        }
        Down::RangingTime { .. } => Why::Equalized(settings.teqd),
        _ => Why::Nothing,
    }
}

/// Tells that the unit has no delay that is told of an Alloc-ID, or of POPUP.
fn early_why(message: &Down) -> Why
    ensures { result ≡ spec.early_why message.now }
{
    match message {
        Down::AssignAlloc { .. } | Down::Popup { .. } => Why::Unranged,
        _ => Why::Nothing,
    }
}

/// Tells who has an Alloc-ID that is given.
fn shared_why(watch: &PortWatch, message: &Down) -> Why
    ensures { result ≡ spec.shared_why watch.now message.now }
{
    match *message {
        Down::AssignAlloc {
            alloc,
            keep: true,
            ..
        } => owner_why(watch, alloc),
        _ => Why::Nothing,
    }
}

/// Tells who has an Alloc-ID that is taken back.
fn not_held_why(watch: &PortWatch, message: &Down) -> Why
    ensures { result ≡ spec.not_held_why watch.now message.now }
{
    match *message {
        Down::AssignAlloc {
            alloc,
            keep: false,
            ..
        } => owner_why(watch, alloc),
        _ => Why::Nothing,
    }
}

/// Tells why a message down breaks a rule.
fn down_why(settings: &Settings, watch: &PortWatch, message: &Down, rule: Rule) -> Why
    ensures { result ≡ spec.down_why (settings_of settings.now) watch.now message.now rule }
{
    match rule {
        Rule::Copies => Why::Missing(watch.to_come()),
        Rule::Range => range_why(message),
        Rule::Barred => assign_why(Why::Disabled, message),
        Rule::Unasked => assign_why(Why::Unasked, message),
        Rule::Taken => taken_why(watch, message),
        Rule::Renumbered => renumbered_why(watch, message),
        Rule::Nobody => nobody_why(message),
        Rule::Unranged => unranged_why(message),
        Rule::Delay => delay_why(settings, message),
        Rule::Early => early_why(message),
        Rule::Shared => shared_why(watch, message),
        Rule::NotHeld => not_held_why(watch, message),
        _ => Why::Nothing,
    }
}

// ---- a message up

/// Tells that a serial number is disabled.
fn disabled_why(message: &Up) -> Why
    ensures { result ≡ spec.disabled_why message.now }
{
    match message {
        Up::SerialNumber { .. } => Why::Disabled,
        _ => Why::Nothing,
    }
}

/// Tells which ONU-ID a unit holds that asks.
fn anew_why(watch: &PortWatch, message: &Up) -> Why
    ensures { result ≡ spec.anew_why watch.now message.now }
{
    match message {
        Up::SerialNumber { serial, .. } => held_why(watch, serial),
        _ => Why::Nothing,
    }
}

/// Tells that a unit acknowledges what wasn't sent to it.
fn acknowledge_why(message: &Up) -> Why
    ensures { result ≡ spec.acknowledge_why message.now }
{
    match message {
        Up::Acknowledge { .. } => Why::Untold,
        _ => Why::Nothing,
    }
}

/// Tells with which delay an ONU-ID was ranged, if it was.
fn ranged_why(settings: &Settings, watch: &PortWatch, onu: u8, delay: u32) -> Why
    ensures { result ≡ spec.ranged_why (settings_of settings.now) delay (map.get watch.now.seen.delay onu) }
{
    match watch.delay(onu) {
        Some(eqd) => Why::Ranged(settings.teqd.saturating_sub(eqd), delay),
        None => Why::Nothing,
    }
}

/// Tells with which delay a unit was ranged whose delay was measured.
fn drift_why(settings: &Settings, watch: &PortWatch, message: &Up, delay: Option<u32>) -> Why
    ensures { result ≡ spec.drift_why (settings_of settings.now) watch.now message.now delay }
{
    match delay {
        Some(delay) => ranged_why(settings, watch, message.octet1(), delay),
        None => Why::Nothing,
    }
}

/// Tells why a message up breaks a rule.
fn up_why(
    settings: &Settings,
    watch: &PortWatch,
    message: &Up,
    delay: Option<u32>,
    rule: Rule,
) -> Why
    ensures { result ≡ spec.up_why (settings_of settings.now) watch.now message.now delay rule }
{
    match rule {
        Rule::Disabled => disabled_why(message),
        Rule::Anew => anew_why(watch, message),
        Rule::Number => holder_why(watch, message.octet1()),
        Rule::Acknowledge => acknowledge_why(message),
        Rule::Drift => drift_why(settings, watch, message, delay),
        _ => Why::Nothing,
    }
}

// ---- a grant

/// Tells that nobody holds an ONU-ID, or that who does has no delay.
fn window_why(watch: &PortWatch, onu: u8) -> Why
    ensures { result ≡ spec.window_why onu (map.get watch.now.seen.holder onu) }
{
    match watch.holder(onu) {
        Some(_) => Why::Undelayed(onu),
        None => Why::Nobody(onu),
    }
}

/// Tells why no window should be opened.
fn granted_why(watch: &PortWatch, grant: Grant) -> Why
    ensures { result ≡ spec.granted_why watch.now grant }
{
    match grant {
        Grant::Search => Why::Nothing,
        Grant::Range(onu) | Grant::Poll(onu) => window_why(watch, onu),
    }
}

/// Tells why a grant breaks a rule.
fn grant_why(watch: &PortWatch, grant: Grant, rule: Rule) -> Why
    ensures { result ≡ spec.grant_why watch.now grant rule }
{
    match rule {
        Rule::Grant => granted_why(watch, grant),
        _ => Why::Nothing,
    }
}

// ---- what is heard

/// Tells why what is heard, where this was said, breaks a rule.
pub(crate) fn why_of(
    mask: Mask,
    settings: &Settings,
    watch: &PortWatch,
    said: &Said,
    heard: &Heard,
    rule: Rule,
) -> Why
    ensures { result ≡ spec.why_of mask (settings_of settings.now) watch.now said.now (heard_of heard.now) rule }
{
    match heard {
        Heard::Down(Some(message)) => down_why(settings, watch, message, rule),
        Heard::Up {
            message: Some(message),
            delay,
        } => up_why(settings, watch, message, *delay, rule),
        Heard::Down(None) | Heard::Up { message: None, .. } => garbled_why(mask, said, rule),
        Heard::Grant(grant) => grant_why(watch, *grant, rule),
    }
}
