//! The column that shows the octets of a line as text.

ghost use Rattle.std.specs.Prelude.{◌≡◌, ◌+◌, ◌-◌, ◌==◌, if◌then◌else◌};
ghost use Rattle.capture_dumps.specs.Column.{is_graphic, shows, are_shown, are_blanks, has_column, has_marked};
ghost use Rattle.capture_dumps.specs.Column.{has_any_column, seen_size};

use crate::dump::is_blank;

/// Nothing but blanks and tabs.
pub(crate) fn are_blanks(text: &[u8]) -> bool
    ensures { result ≡ are_blanks text.now }
{
    text.iter().all(|octet| is_blank(*octet))
}

/// An octet of ASCII that can be seen.
fn is_graphic(octet: u8) -> bool
    ensures { result ≡ is_graphic octet }
{
    octet > 32 && octet < 127
}

/// A column may show the octet so: one that can be seen as it is, any other as a dot, and a blank also as it is.
fn shows(octet: u8, shown: u8) -> bool
    ensures { result ≡ shows octet shown }
{
    if is_graphic(octet) {
        shown == octet
    } else {
        shown == b'.' || (octet == b' ' && shown == b' ')
    }
}

/// The text shows the octets, one for one.
fn are_shown(octets: &[u8], text: &[u8]) -> bool
    ensures { result ≡ are_shown octets.now text.now }
{
    let mut octets = octets;
    let mut text = text;
    'octets: while let [octet, others @ ..] = octets {
        let [shown, left @ ..] = text else {
            return false;
        };
        if !shows(*octet, *shown) {
            return false;
        }
        octets = others;
        text = left;
    }
    text.is_empty()
}

/// The text is two blanks at least, and then shows the octets.
fn has_column(octets: &[u8], text: &[u8]) -> bool
    ensures { result ≡ has_column octets.now text.now }
{
    let (count, size) = (octets.len(), text.len());
    if size < 2 || size - 2 < count {
        return false;
    }
    let (gap, column) = text.split_at(size - count);
    are_blanks(gap) && are_shown(octets, column)
}

/// The text is two blanks at least, and then shows the octets between these two marks.
fn has_marked(before: u8, after: u8, octets: &[u8], text: &[u8]) -> bool
    ensures { result ≡ has_marked before after octets.now text.now }
{
    let (count, size) = (octets.len(), text.len());
    if size < 4 || size - 4 < count {
        return false;
    }
    let (gap, _) = text.split_at(size - (count + 2));
    let (_, behind) = text.split_at(size - (count + 1));
    let (column, _) = behind.split_at(count);
    text[size - 1] == after
        && text[size - (count + 2)] == before
        && are_blanks(gap)
        && are_shown(octets, column)
}

/// The text is two blanks at least, and then a column that shows the octets: as it is, between `|` and `|`,
/// or between `>` and `<`. The blanks at the end of a column may be missing: `seen` is the number of the
/// octets before those.
pub(crate) fn has_any_column(octets: &[u8], seen: usize, text: &[u8]) -> bool
    requires { seen ≡ seen_size octets.now }
    ensures { result ≡ has_any_column octets.now text.now }
{
    let (front, _) = octets.split_at(seen);
    has_column(octets, text)
        || has_column(front, text)
        || has_marked(b'|', b'|', octets, text)
        || has_marked(b'>', b'<', octets, text)
}

/// How many octets there are up to the last that isn't a blank, behind one more octet, which is the last of
/// `count`. `seen` is the number before it.
pub(crate) fn more_seen(seen: usize, octet: u8, count: usize) -> usize
    ensures { result ≡ (if octet == 32 then seen else count) }
{
    if octet == b' ' { seen } else { count }
}
