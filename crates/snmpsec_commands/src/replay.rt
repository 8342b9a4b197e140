//! `snmpsec replay`: a log of datagrams, taken by a manager that has a configuration's users and begins with
//! saved clocks.

ghost use Rattle.std.specs.Prelude.{◌≡◌, ◌≤◌, ℕ, decimal, IfErr, IfOk, IfSome, Some};
ghost use Rattle.snmpsec_replay.specs.Replay.{streams};
ghost use Rattle.snmpsec_commands.specs.Replay.{Begins, ReplayAnswers, ReplayStopsBy, TellsNoManager, handed_of};
ghost use Rattle.snmpsec_commands.specs.declared.replay.NoManager.TheVariants as none;

use engine_clock::Clocks;
use snmp_ber::read_decimal;
use snmp_manager::Manager;
use snmpsec_config::Config;
use snmpsec_io::write_whole;
use snmpsec_output::{Output, refused_clocks};
use snmpsec_replay::{Printing, ReplayFault, replay_as};
use std::alloc::{AllocError, Global};
use std::io::{BufRead, Write};

/// Why no manager begins.
#[derive(Drop)]
pub(crate) enum NoManager {
    /// A text is refused, by this line and what explains it.
    Refused(Output),
    /// A growth of memory was refused.
    OutOfMemory,
}

impl From<AllocError> for NoManager {
    ghost from_gives = { λ _ e. e ≡ none.OutOfMemory };

    fn from(_fault: AllocError) -> NoManager {
        NoManager::OutOfMemory
    }
}

/// The greatest number that the first line of a log may have.
const GREATEST_FIRST: u64 = 1_000_000_000_000_000;

/// The number of a log's first line, 1 to 10^15, in decimal without sign or leading zeros.
pub fn first_line_of(word: &str) -> Option<u64>
    ensures found { IfSome result (λ first. (1 ≤ first) × (first ≤ 1000000000000000)
        × (word.now ≡ decimal first)) }
    ensures all { (first : ℕ) → 1 ≤ first → first ≤ 1000000000000000
        → word.now ≡ decimal first → result ≡ Some first }
{
    match read_decimal(word.as_bytes(), GREATEST_FIRST)? {
        0 => None,
        first => Some(first),
    }
}

/// The texts that a replay begins with.
#[derive(Clone, Copy)]
pub struct Beginning<'a> {
    /// When the marks of a clocks file of version 1 were seen, in seconds.
    pub moment: u64,
    /// The configuration.
    pub config: &'a [u8],
    /// The name of the clocks file.
    pub clocks_name: &'a str,
    /// The clocks file.
    pub clocks: &'a [u8],
}

/// How a replay ends.
#[derive(Debug, Drop)]
pub enum ReplayEnd {
    /// The log was replayed whole.
    Replayed,
    /// A text is refused, by the line that was written. With what is wrong and what is wanted, for `--why`.
    Refused { why: Option<String> },
}

/// What `snmpsec replay` does: `snmpsec_replay::replay_as` by a manager with the users of the configuration, which
/// begins with the clocks that the clocks file saves. Lines are numbered from `printing.first`, at most 10^15; if no
/// lines are wanted, the saved text alone is written.
///
/// The configuration is looked at first, then the clocks file, then the log. If one of the first two is refused, one
/// line is written, and nothing is read of the log. The errors are those of `snmpsec_replay::replay_as`.
pub fn replay<R: BufRead, W: Write>(
    alloc: Global,
    beginning: Beginning<'_>,
    printing: Printing,
    reader: &mut R,
    writer: &mut W,
) -> Result<ReplayEnd, ReplayFault>
    requires { printing.first ≤ 1000000000000000 }
    ensures ok { IfOk result
        (ReplayAnswers printing (handed_of beginning.entry)
        (streams (R.remaining reader.old) (R.remaining reader.new) (W.contents writer.old)
        (W.contents writer.new))) }
    ensures err { IfErr result
        (ReplayStopsBy printing (handed_of beginning.entry)
        (streams (R.remaining reader.old) (R.remaining reader.new) (W.contents writer.old)
        (W.contents writer.new))) }
{
    match manager_of(alloc, beginning) {
        Ok(manager) => match replay_as(alloc, manager, printing, reader, writer) {
            Ok(()) => Ok(ReplayEnd::Replayed),
            Err(fault) => Err(fault),
        },
        Err(NoManager::Refused(output)) => match write_whole(writer, &output.out) {
            Ok(()) => Ok(ReplayEnd::Refused { why: output.why }),
            Err(_) => Err(ReplayFault::CannotWrite),
        },
        Err(NoManager::OutOfMemory) => Err(ReplayFault::OutOfMemory),
    }
}

/// The manager with the users of the configuration and the clocks of the clocks file.
pub(crate) fn manager_of(alloc: Global, beginning: Beginning<'_>) -> Result<Manager, NoManager>
    ensures begins { IfOk result (Begins (handed_of beginning.entry)) }
    ensures refused { IfErr result (TellsNoManager (handed_of beginning.entry)) }
{
    let config = match Config::read(alloc, beginning.config) {
        Ok(config) => config,
        Err(fault) if fault.is_memory() => return Err(NoManager::OutOfMemory),
        Err(fault) => return Err(NoManager::Refused(Output::refusal(alloc, &fault)?)),
    };
    let clocks = beginning.clocks;
    match Clocks::read_saved(alloc, clocks, beginning.moment) {
        Ok(clocks) => Ok(Manager::new(alloc, config.users, clocks)),
        Err(fault) => {
            let refused = refused_clocks(alloc, beginning.clocks_name, fault, clocks)?;
            Err(NoManager::Refused(refused))
        }
    }
}
