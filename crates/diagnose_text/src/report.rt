//! What is printed of a capture: exchanges one after another, and the summary.

ghost use Rattle.std.specs.Prelude.{◌≡◌, ◌++◌, ◌||◌, List, ℕ, OnOk, option_and_then, option_map};
ghost use Rattle.diagnose_text.specs.Printing as spec;
ghost use Rattle.diagnose_text.specs.Wanted.{direction};
ghost use Rattle.diagnose_text.specs.Printing.{IsPrinted, counts_as_failed, is_json, is_wanted_exchange};

use crate::agents::{Agents, ENGINES_LIMIT};
use crate::blocks::block_text;
use crate::counts::Counts;
use crate::facts::{Answer, First, Says};
use crate::objects::object_line;
use crate::options::{DiagnoseOptions, Style};
use crate::others::Others;
use crate::summary::{engines_of, summary_line, summary_text};
use capture_files::Route;
use diagnose_exchanges::{COPIES_LIMIT, Ending, Exchange};
use engine_clock::{Clocks, EngineId};
use std::alloc::{AllocError, Global};
use std::collections::BTreeSet;

/// What is printed of a capture.
#[derive(Drop)]
pub(crate) struct Report {
    alloc: Global,
    options: DiagnoseOptions,
    counts: Counts,
    /// The engines of exchanges that were printed, where not all are wanted.
    engines: BTreeSet<EngineId>,
    others: Others,
    failed: bool,
    digests_full: bool,
}

impl Report {
    pub(crate) fn new(alloc: Global, options: DiagnoseOptions) -> Report
        ensures { result.options ≡ options }
    {
        Report {
            alloc,
            options,
            counts: Counts::new(alloc),
            engines: BTreeSet::new(alloc),
            others: Others::new(alloc),
            failed: false,
            digests_full: false,
        }
    }

    /// Each line that is printed is a JSON object.
    pub(crate) fn prints_json(&self) -> bool
        ensures { result ≡ is_json self.now.options.style }
    {
        matches!(self.options.style, Style::Json)
    }

    /// Whether a datagram on this way is a request by the agents that the user names, if they tell it.
    pub(crate) fn told_request(&self, route: Option<Route>) -> Option<bool>
        ensures { result ≡ option_and_then (direction self.now.options.agents.items) route }
    {
        self.options.told_request(route?)
    }

    /// What there is if no exchange was printed, for a line that begins with the name of the file.
    pub(crate) fn nothing_printed(&self) -> Result<Option<String>, AllocError> {
        self.others.text(self.alloc)
    }

    /// Something failed.
    pub(crate) fn has_failed(&self) -> bool
        ensures { result ≡ self.now.failed }
    {
        self.failed
    }

    /// Prints an exchange that is finished, if it is wanted, and counts it. The error is out of memory.
    pub(crate) fn print<K: Drop>(
        &mut self,
        exchange: &Exchange<K, First, Answer>,
        out: &mut Vec<u8>,
    ) -> Result<(), AllocError>
        ensures printed { OnOk result ((text : List ℕ) × (out.new.items ≡ out.old.items ++ text)
            × IsPrinted self.old.options exchange.now text) }
        ensures failed { OnOk result (self.new.failed
            ≡ (self.old.failed || counts_as_failed self.old.options exchange.now)) }
        ensures options { self.new.options ≡ self.old.options }
    {
        if !self.wants(exchange) {
            return self.others.note(exchange);
        }
        self.others.note_printed();
        self.count(exchange)?;
        let text = self.text_of(exchange)?;
        out.extend_from_slice(text.as_bytes())
    }

    /// The exchange is wanted.
    fn wants<K: Drop>(&self, exchange: &Exchange<K, First, Answer>) -> bool
        ensures { result ≡ is_wanted_exchange self.now.options exchange.now }
    {
        let first = &exchange.first;
        let engine = engine_of(first, &exchange.ending);
        self.options.wants(first.user(), engine, first.route)
    }

    /// Counts an exchange that is printed, and notes whether something failed in it.
    fn count<K: Drop>(&mut self, exchange: &Exchange<K, First, Answer>) -> Result<(), AllocError>
        ensures failed { OnOk result (self.new.failed ≡ (self.old.failed || spec.fails exchange.now)) }
        ensures options { self.new.options ≡ self.old.options }
    {
        let first = &exchange.first;
        self.note_engine(engine_of(first, &exchange.ending))?;
        if exchange.counts {
            self.counts.count(exchange)?;
        }
        self.failed = self.failed || fails(exchange);
        Ok(())
    }

    /// The text of an exchange.
    fn text_of<K: Drop>(
        &self,
        exchange: &Exchange<K, First, Answer>,
    ) -> Result<String, AllocError> {
        match self.options.style {
            Style::Text => block_text(self.alloc, exchange),
            Style::Json => object_line(self.alloc, exchange),
        }
    }

    /// Notes the engine of an exchange that is printed, where not all are wanted.
    fn note_engine(&mut self, engine: Option<&EngineId>) -> Result<(), AllocError>
        ensures failed { self.new.failed ≡ self.old.failed }
        ensures options { self.new.options ≡ self.old.options }
    {
        let Some(engine) = engine else {
            return Ok(());
        };
        if !self.options.wants_all() && self.engines.len() < ENGINES_LIMIT {
            self.engines.insert(engine.copy())?;
        }
        Ok(())
    }

    /// Says once that the digests are full.
    pub(crate) fn print_full(&mut self, out: &mut Vec<u8>) -> Result<(), AllocError>
        ensures printed { OnOk result ((text : List ℕ) × (out.new.items ≡ out.old.items ++ text)) }
        ensures failed { self.new.failed ≡ self.old.failed }
        ensures options { self.new.options ≡ self.old.options }
    {
        if self.digests_full {
            return Ok(());
        }
        self.digests_full = true;
        let text = match self.options.style {
            Style::Text => format!(in self.alloc;
                "limit: digests of {COPIES_LIMIT} datagrams are kept; copies of older ones aren't found\n"
            )?,
            Style::Json => format!(in self.alloc;
                "{{\"limit\":\"digests\",\"kept\":{COPIES_LIMIT}}}\n"
            )?,
        };
        out.extend_from_slice(text.as_bytes())
    }

    /// The summary. It has all engines of which the clock is known, or those of the exchanges that were printed, where
    /// not all are wanted.
    pub(crate) fn summary(&self, clocks: &Clocks, agents: &Agents) -> Result<String, AllocError> {
        let wanted = if self.options.wants_all() {
            None
        } else {
            Some(&self.engines)
        };
        let engines = engines_of(self.alloc, clocks, agents, wanted)?;
        match self.options.style {
            Style::Text => summary_text(self.alloc, &self.counts, &engines),
            Style::Json => summary_line(self.alloc, &self.counts, &engines),
        }
    }
}

/// The engine of an exchange: that of its request, or that which a discovery found.
fn engine_of<'a, K: Drop>(first: &'a First, ending: &'a Ending<K, Answer>) -> Option<&'a EngineId>
    ensures { option_map (λ engine. engine.now) result ≡ spec.engine_of first.now ending.now }
{
    match ending {
        Ending::Answered { answer, .. } => said_engine(first, &answer.says),
        _ => first.engine.as_ref(),
    }
}

/// The engine that a discovery found, or that of the first datagram.
fn said_engine<'a>(first: &'a First, says: &'a Says) -> Option<&'a EngineId>
    ensures { option_map (λ engine. engine.now) result ≡ spec.said_engine first.now says.now }
{
    match says {
        Says::Engine(engine) => Some(engine),
        _ => first.engine.as_ref(),
    }
}

/// Something failed in the exchange. A copy and a notification fail nothing, nor does a request that was sent again.
fn fails<K: Drop>(exchange: &Exchange<K, First, Answer>) -> bool
    ensures { result ≡ spec.fails exchange.now }
{
    match &exchange.ending {
        Ending::Waits(_) | Ending::Alone => is_refused(&exchange.first),
        Ending::Answered { answer, .. } => !answer.in_window || says_failure(&answer.says),
        Ending::SentAgain(_) => false,
        Ending::NoAnswer | Ending::NotFollowed => exchange.counts || exchange.first.is_discovery(),
    }
}

/// This configuration refuses the datagram, or it isn't the answer of the request with its msgID; and it isn't a copy.
fn is_refused(first: &First) -> bool
    ensures { result ≡ spec.is_refused first.now }
{
    first.copy_of.is_none() && (first.refusal.is_some() || first.remark.tells_another())
}

/// An answer says that something failed.
fn says_failure(says: &Says) -> bool
    ensures { result ≡ spec.says_failure says.now }
{
    match says {
        Says::Engine(_) | Says::Values(..) => false,
        Says::Error(..) | Says::Report(..) | Says::Unread(_) => true,
    }
}
