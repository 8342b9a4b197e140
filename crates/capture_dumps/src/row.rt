//! The octets of a line behind its offset.

ghost use Rattle.std.specs.Prelude.{◌≡◌, None, Some, IfOk, MatchOption};
ghost use Rattle.capture_dumps.specs.Row as spec;
ghost use Rattle.capture_dumps.specs.Row.{IsRow, IsNoRow};

use crate::column::{are_blanks, has_any_column, more_seen};
use crate::dump::blanks;
use crate::part::digit_value;
use std::alloc::{AllocError, Global};

/// The octet that the text begins with, perhaps behind blanks, and the text behind its two digits.
fn next_pair(text: &[u8]) -> Option<(u8, &[u8])>
    ensures { MatchOption result (spec.next_pair text.now ≡ None)
        (λ pair. spec.next_pair text.now ≡ Some (pair.0, pair.1.now)) }
{
    let (_, text) = text.split_at(blanks(text));
    let [high, low, rest @ ..] = text else {
        return None;
    };
    match (digit_value(*high), digit_value(*low)) {
        (Some(high), Some(low)) => Some((high * 16 + low, rest)),
        _ => None,
    }
}

/// The octets of a text: those of its first pairs behind which a column stands that shows them, or, where it
/// has no column, those of its pairs, behind which nothing may stand but blanks. `None` where it is neither.
pub(crate) fn row_octets(alloc: Global, text: &[u8]) -> Result<Option<Vec<u8>>, AllocError>
    ensures { IfOk result (λ row. MatchOption row (IsNoRow text.now)
        (λ octets. IsRow text.now octets.items)) }
{
    let mut octets = Vec::new(alloc);
    let mut seen = 0;
    let mut rest = text;
    'pairs: while let Some((octet, behind)) = next_pair(rest) {
        octets.push(octet)?;
        seen = more_seen(seen, octet, octets.len());
        rest = behind;
        if has_any_column(&octets, seen, rest) {
            return Ok(Some(octets));
        }
    }
    if octets.is_empty() || !are_blanks(rest) {
        return Ok(None);
    }
    Ok(Some(octets))
}
