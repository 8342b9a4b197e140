//! The dumps of a text.

ghost use Rattle.std.specs.Prelude.{◌≡◌, ◌++◌, ◌<◌, [], None, map, IfErr, IfOk, ℕ};
ghost use Rattle.capture_dumps.specs.Line.{begin, kind, more, words};
ghost use Rattle.capture_dumps.specs.Dumps.{AreBlocks, Follows, HasDumps, IsUnread, StopsAfter, StopsIn, as_list};
ghost use Rattle.capture_dumps.specs.Dumps.{ended};

use crate::base::Bases;
use crate::line::{Line, read_lines};
use std::alloc::{AllocError, Global};
use thiserror::Error;

/// Why a text wasn't read. Lines count from 1.
#[derive(Clone, Copy, Debug, PartialEq, Eq, Drop, Error)]
pub enum DumpFault {
    /// No line begins a dump.
    #[error("no dump")]
    NoDump,
    /// What follows the offset of this line can't be read: no pairs, half a pair, or a column that
    /// shows other octets than those before it.
    #[error("line {0}: no octets")]
    Unreadable(u64),
    /// This line continues a dump, and none comes before it.
    #[error("line {0}: no dump before")]
    NotBegun(u64),
    /// This line has more octets or fewer than the offset of the next says.
    #[error("line {0}: more octets or fewer")]
    OtherCount(u64),
    /// A growth of memory was refused.
    #[error("out of memory")]
    OutOfMemory,
}

impl From<AllocError> for DumpFault {
    ghost use Rattle.capture_dumps.specs.declared.dumps.DumpFault.TheVariants as faults;

    ghost from_gives = { λ _ e. e ≡ faults.OutOfMemory };

    fn from(_fault: AllocError) -> DumpFault {
        DumpFault::OutOfMemory
    }
}

/// A dump that may go on.
#[derive(Drop)]
struct Dump {
    /// Its octets so far.
    octets: Vec<u8>,
    /// The bases in which each offset so far is the number of the octets before.
    bases: Bases,
}

/// What was read of the lines so far.
#[derive(Drop)]
struct Reading {
    /// The dumps that have ended.
    dumps: Vec<Vec<u8>>,
    /// The one that may go on.
    going: Option<Dump>,
}

impl Reading {
    /// All dumps, where none goes on.
    fn into_dumps(self) -> Result<Vec<Vec<u8>>, AllocError>
        ensures { IfOk result (λ dumps. map (λ octets. octets.items) dumps.items
            ≡ ended self ++ as_list self.going) }
    {
        let Reading { mut dumps, going } = self;
        if let Some(dump) = going {
            dumps.push(dump.octets)?;
        }
        Ok(dumps)
    }

    /// What goes on is this, and the dump before has ended.
    fn begin_dump(self, going: Option<Dump>) -> Result<Reading, AllocError>
        ensures { IfOk result
            (λ reading. (ended reading ≡ ended self ++ as_list self.going)
            × (reading.going ≡ going)) }
    {
        let dumps = self.into_dumps()?;
        Ok(Reading { dumps, going })
    }

    /// What is read behind a line with these digits as its offset and these octets, where `place` lines stand
    /// before it.
    fn longer(self, place: usize, digits: &[u8], octets: &[u8]) -> Result<Reading, DumpFault>
        requires { place < 18446744073709551615 }
        ensures ok { IfOk result (Follows self (more digits.now octets.now)) }
        ensures err { IfErr result (StopsAfter place self (more digits.now octets.now)) }
    {
        let Reading { dumps, going } = self;
        let Some(dump) = going else {
            if octets.is_empty() {
                return Ok(Reading { dumps, going: None });
            }
            return Err(DumpFault::NotBegun(place as u64 + 1));
        };
        let bases = dump.bases.writing(digits, dump.octets.len());
        if !bases.some() {
            return Err(DumpFault::OtherCount(place as u64));
        }
        let mut all = dump.octets;
        all.extend_from_slice(octets)?;
        let going = Some(Dump { octets: all, bases });
        Ok(Reading { dumps, going })
    }

    /// What is read behind a line that begins a dump with these octets.
    fn beginning(self, alloc: Global, octets: &[u8]) -> Result<Reading, AllocError>
        ensures { IfOk result (Follows self (begin octets.now)) }
    {
        let octets = Vec::from_slice(alloc, octets)?;
        let bases = Bases::all();
        self.begin_dump(Some(Dump { octets, bases }))
    }

    /// What is read behind a line with other words behind its offset, where `place` lines stand before it.
    fn behind_words(self, place: usize) -> Result<Reading, DumpFault>
        requires { place < 18446744073709551615 }
        ensures ok { IfOk result (Follows self words) }
        ensures err { IfErr result (StopsAfter place self words) }
    {
        match self.going {
            Some(_) => Err(DumpFault::Unreadable(place as u64 + 1)),
            None => Ok(self),
        }
    }

    /// What is read behind a line, where `place` lines stand before it.
    fn behind(self, alloc: Global, place: usize, line: &Line<'_>) -> Result<Reading, DumpFault>
        requires { place < 18446744073709551615 }
        ensures ok { IfOk result (Follows self (kind line.now)) }
        ensures err { IfErr result (StopsAfter place self (kind line.now)) }
    {
        match line {
            Line::Other => Ok(self.begin_dump(None)?),
            Line::Begin { octets } => Ok(self.beginning(alloc, octets.as_slice())?),
            Line::More { digits, octets } => self.longer(place, digits, octets.as_slice()),
            Line::Words => self.behind_words(place),
            Line::Bad => Err(DumpFault::Unreadable(place as u64 + 1)),
        }
    }
}

/// The dumps of these lines.
fn dumps_in(alloc: Global, lines: &[Line<'_>]) -> Result<Vec<Vec<u8>>, DumpFault>
    ensures ok { IfOk result
        (λ dumps. (n : ℕ) × AreBlocks n (map kind lines.now)
        (map (λ octets. octets.items) dumps.items) []) }
    ensures err { IfErr result (StopsIn (map kind lines.now)) }
{
    let mut reading = Reading {
        dumps: Vec::new(alloc),
        going: None,
    };
    for (place, line) in lines.iter().enumerate() {
        reading = reading.behind(alloc, place, line)?;
    }
    Ok(reading.into_dumps()?)
}

/// The dumps of a text, one at least, each by its octets, in their order.
///
/// A line of a dump is perhaps blanks, perhaps `0x` or `0X`, an offset of 4 to 8 hex digits, perhaps a colon,
/// a blank, and pairs of hex digits with blanks between; behind a colon also without. At its end may stand,
/// behind two blanks, a column that shows its octets as text, perhaps between `|` and `|` or `>` and `<`;
/// what isn't a column that shows them is read as pairs. A dump begins at the offset 0; each further offset
/// is the number of the octets before, all in hex, or all in decimal, or all in octal, and at the end one may
/// stand alone. Other lines end a dump, and are passed over.
///
/// The errors are NoDump; Unreadable, NotBegun and OtherCount, for the first line that is none of these where
/// it stands; and OutOfMemory.
pub fn read_dumps(alloc: Global, text: &[u8]) -> Result<Vec<Vec<u8>>, DumpFault>
    ensures ok { IfOk result (λ dumps. HasDumps text.now
        (map (λ octets. octets.items) dumps.items)) }
    ensures err { IfErr result (IsUnread text.now) }
{
    let lines = read_lines(alloc, text)?;
    match dumps_in(alloc, &lines) {
        Ok(dumps) if dumps.is_empty() => Err(DumpFault::NoDump),
        answer => answer,
    }
}
