//! The equalized delays of the ports, as they are given.
ghost use Rattle.std.specs.Prelude.{◌≡◌, Ok, Err, None, Some, MatchResult, IfSome, ◌<◌};
ghost use Rattle.gp_machine.specs.Config.{max_ports};
ghost use Rattle.gp_audit.specs.Delays as spec;
ghost use Rattle.gp_audit.specs.Texts.{given, texts};

use gp_lines::{LAST_PORT, PORTS, number_in};

/// The equalized round-trip delay of a port where none is given, in bit times.
const EQUALIZED_DELAY: u32 = 311_040;

/// Reads a delay, in bit times.
fn delay_in(text: &str) -> Option<u32>
    ensures { result ≡ spec.delay_in text.now }
{
    match number_in(0, u64::from(u32::MAX), text.as_bytes()) {
        Ok(delay) => Some(delay as u32),
        Err(_) => None,
    }
}

/// Reads a port.
fn port_in(text: &str) -> Option<u8>
    ensures value { result ≡ spec.port_in text.now }
    ensures within { IfSome result (λ port. port < max_ports) }
{
    match number_in(0, u64::from(LAST_PORT), text.as_bytes()) {
        Ok(port) => Some(port as u8),
        Err(_) => None,
    }
}

/// Gives the delays with that of one port changed.
fn with_port(delays: &[u32; PORTS], digits: &str, text: &str) -> Option<[u32; PORTS]>
    ensures { result ≡ spec.delay_of_port delays.now digits.now text.now }
{
    let port = port_in(digits)?;
    let delay = delay_in(text)?;
    let mut changed = *delays;
    changed[usize::from(port)] = delay;
    Some(changed)
}

/// Gives the same delay of all ports.
fn of_all_ports(text: &str) -> Option<[u32; PORTS]>
    ensures { result ≡ spec.delay_of_all text.now }
{
    Some([delay_in(text)?; PORTS])
}

/// Gives the delays behind a text that tells that of all ports, or of one; None where it tells none.
fn with_text(delays: &[u32; PORTS], text: &str) -> Option<[u32; PORTS]>
    ensures { result ≡ spec.delays_set delays.now text.now }
{
    match text.split_once('=') {
        None => of_all_ports(text),
        Some((port, delay)) => with_port(delays, port, delay),
    }
}

/// Gives the delays that texts tell, one after another, or the first that tells none.
fn delays_of<'t>(told: &[&'t str]) -> Result<[u32; PORTS], &'t str>
    ensures { MatchResult result
        (λ delays. spec.equalized_delays (texts told.entry) ≡ Ok delays)
        (λ text. spec.equalized_delays (texts told.entry) ≡ Err text.now) }
{
    let mut delays = [EQUALIZED_DELAY; PORTS];
    'texts: for text in told {
        let Some(changed) = with_text(&delays, text) else {
            return Err(text);
        };
        delays = changed;
    }
    Ok(delays)
}

/// Gives the equalized round-trip delay of each port, in bit times: 311,040 where none is told. Each text is `T`, the
/// delay of all ports, or `PORT=T`, that of one; a later one counts. T is a number of decimal digits below 2 ^ 32, PORT
/// one of 0 to 15; zeros may stand in front. The first text that is neither is given back. Takes no memory.
pub fn equalized_delays<'t>(told: Option<&[&'t str]>) -> Result<[u32; PORTS], &'t str>
    ensures { MatchResult result
        (λ delays. spec.equalized_delays (given told.entry) ≡ Ok delays)
        (λ text. spec.equalized_delays (given told.entry) ≡ Err text.now) }
{
    match told {
        None => Ok([EQUALIZED_DELAY; PORTS]),
        Some(told) => delays_of(told),
    }
}
