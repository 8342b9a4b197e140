//! Places in a text, by line and column.

ghost use Rattle.capture_dumps.specs.Text.{IsBehind};

/// A place in a text.
#[derive(Clone, Copy, Debug, PartialEq, Eq)]
pub(crate) struct Place {
    /// The number of the line, from 1.
    pub(crate) line: u64,
    /// The number of the octet in its line, from 1.
    pub(crate) column: u64,
}

/// The place behind a text.
pub(crate) fn place_behind(text: &[u8]) -> Place
    ensures { IsBehind text.now result.line result.column }
{
    let mut place = Place { line: 1, column: 1 };
    for octet in text {
        place = if *octet == b'\n' {
            Place {
                line: place.line + 1,
                column: 1,
            }
        } else {
            Place {
                line: place.line,
                column: place.column + 1,
            }
        };
    }
    place
}
