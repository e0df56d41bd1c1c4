//! The names of messages that this profile has no row for.
ghost use Rattle.std.specs.Prelude.{◌≡◌};
ghost use Rattle.std.specs.Option.{option_copied};
ghost use Rattle.gp_decode.specs.Names as spec;

/// Gives the name of a message of the line terminal.
fn other_down_name(id: u8) -> Option<&'static str>
    ensures { option_copied result ≡ spec.other_down_name id }
{
    match id {
        8 => Some("Encrypted_Port-ID"),
        9 => Some("Request_Password"),
        13 => Some("Request_Key"),
        14 => Some("Configure_Port-ID"),
        15 => Some("PEE"),
        16 => Some("Change_Power_Level"),
        17 => Some("PST"),
        18 => Some("BER_interval"),
        19 => Some("Key_Switching_Time"),
        20 => Some("Extended_Burst_Length"),
        21 => Some("PON-ID"),
        22 => Some("Swift_POPUP"),
        23 => Some("Ranging_Adjustment"),
        _ => None,
    }
}

/// Gives the name of a message of a unit.
fn other_up_name(id: u8) -> Option<&'static str>
    ensures { option_copied result ≡ spec.other_up_name id }
{
    match id {
        2 => Some("Password"),
        5 => Some("Encryption_key"),
        6 => Some("PEE"),
        7 => Some("PST"),
        8 => Some("REI"),
        _ => None,
    }
}

/// Gives the name that G.984.3, clause 9.2, has for a message with this identifier that this profile has no row for,
/// upstream or downstream: of messages that are told as `Other`.
pub fn other_name(upstream: bool, id: u8) -> Option<&'static str>
    ensures { option_copied result ≡ spec.other_name upstream id }
{
    if upstream {
        other_up_name(id)
    } else {
        other_down_name(id)
    }
}
