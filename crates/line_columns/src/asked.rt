//! Which columns are asked for, as a text says it.
ghost use Rattle.std.specs.Prelude.{◌≡◌, ◌≤◌, ◌∷◌, None, Some, Ok, Err, MatchResult, length, option_map};
ghost use Rattle.line_columns.specs.Asked as spec;
ghost use Rattle.line_columns.specs.AskedParts.{octets_left, parts_left};

use thiserror::Error;

/// The column of each key, as it is given: a number from 1, or a name.
#[derive(Clone, Copy, Debug, PartialEq, Eq)]
pub struct Parts<'t> {
    pub time: Option<&'t str>,
    pub direction: Option<&'t str>,
    pub code: Option<&'t str>,
    pub delay: Option<&'t str>,
    pub port: Option<&'t str>,
}

/// Why no columns are asked for.
#[derive(Clone, Copy, Debug, PartialEq, Eq, Error)]
pub enum AskedFault<'t> {
    /// A part that says no column of a key.
    #[error("\"{0}\" is no column; write KEY=COLUMN, KEY time, dir, code, delay or port, COLUMN a number from 1 \
or a name")]
    Part(&'t str),
    /// A key that has to have a column.
    #[error("{0} has no column; time, dir and code have to have one")]
    Missing(&'static str),
}

/// Gives the parts with one key's column changed; None where it is no key, or the column is empty.
#[tactic(auto, unfolding(crate::specs::Asked::with_key))]
fn with_key<'t>(parts: &Parts<'t>, key: &str, column: &'t str) -> Option<Parts<'t>>
    ensures { option_map spec.texts_of result ≡ spec.with_key (spec.texts_of parts.now) key.now column.now }
{
    if column.is_empty() {
        return None;
    }
    let column = Some(column);
    match key {
        "time" => Some(Parts {
            time: column,
            ..*parts
        }),
        "dir" => Some(Parts {
            direction: column,
            ..*parts
        }),
        "code" => Some(Parts {
            code: column,
            ..*parts
        }),
        "delay" => Some(Parts {
            delay: column,
            ..*parts
        }),
        "port" => Some(Parts {
            port: column,
            ..*parts
        }),
        _ => None,
    }
}

/// Gives the parts behind one more; None where it says no column of a key.
fn with_part<'t>(parts: &Parts<'t>, part: &'t str) -> Option<Parts<'t>>
    ensures { option_map spec.texts_of result ≡ spec.with_part (spec.texts_of parts.now) part.now }
{
    match part.split_once('=') {
        None => None,
        Some((key, column)) => with_key(parts, key, column),
    }
}

/// Gives the first part of a text, and what stands behind its comma, if there is one.
fn first_part(text: &str) -> (&str, Option<&str>)
    ensures parts { spec.parts_of text.now ≡ result.0.now ∷ parts_left result.1 }
    ensures shorter { octets_left result.1 ≤ length text.now }
{
    match text.split_once(',') {
        Some((part, rest)) => (part, Some(rest)),
        None => (text, None),
    }
}

/// Gives the column of each key, or the first part that says none.
fn parts_in(text: &str) -> Result<Parts<'_>, &str>
    ensures { MatchResult result
        (λ parts. spec.parts_in text.now ≡ Ok (spec.texts_of parts))
        (λ part. spec.parts_in text.now ≡ Err part.now) }
{
    let mut parts = Parts {
        time: None,
        direction: None,
        code: None,
        delay: None,
        port: None,
    };
    let mut left = Some(text);
    'parts: while let Some(text) = left {
        let (part, rest) = first_part(text);
        let Some(more) = with_part(&parts, part) else {
            return Err(part);
        };
        parts = more;
        left = rest;
    }
    Ok(parts)
}

/// Gives the first key that has to have a column and has none.
fn missing_key(parts: &Parts<'_>) -> Option<&'static str>
    ensures { option_map (λ key. key.now) result ≡ spec.missing_key (spec.texts_of parts.now) }
{
    match (parts.time, parts.direction, parts.code) {
        (None, _, _) => Some("time"),
        (Some(_), None, _) => Some("dir"),
        (Some(_), Some(_), None) => Some("code"),
        (Some(_), Some(_), Some(_)) => None,
    }
}

/// Reads which columns are asked for, as `time=2,dir=4,code=6,delay=7,port=1`: of these time, dir and code have to have
/// one. Of a key that comes twice the last counts.
pub fn columns_asked(text: &str) -> Result<Parts<'_>, AskedFault<'_>>
    ensures { MatchResult result (spec.AreAsked text.now) (spec.IsWrong text.now) }
{
    let parts = match parts_in(text) {
        Ok(parts) => parts,
        Err(part) => return Err(AskedFault::Part(part)),
    };
    match missing_key(&parts) {
        Some(key) => Err(AskedFault::Missing(key)),
        None => Ok(parts),
    }
}
