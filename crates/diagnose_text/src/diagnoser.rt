//! Takes the datagrams of a capture one after another, and prints a block for each exchange.

ghost use Rattle.std.specs.Prelude.{◌≡◌, ◌++◌, ℕ, List, [], ◌∷◌, Option, false, IfOk, OnOk};
ghost use Rattle.diagnose_judge.specs.Judging.{Judgement};
ghost use Rattle.diagnose_exchanges.specs.Exchanges.{IsGivenUp};
ghost use Rattle.diagnose_text.specs.Datagrams.{seen_as};
ghost use Rattle.diagnose_text.specs.Printing.{IsLineOf, Writes, is_json};
ghost use Rattle.diagnose_text.specs.declared.line.Line.{Line as LineIs};

use crate::facts::Answer;
use crate::follower::Follower;
use crate::heads::Stamp;
use crate::line::Line;
use crate::options::DiagnoseOptions;
use crate::report::Report;
use capture_files::{Printed, Printer, Route, route_of};
use diagnose_exchanges::{Asked, Copies, EXCHANGES_LIMIT, Ending, digest_of};
use engine_clock::Clocks;
use snmpsec_access::Explainer;
use std::alloc::{AllocError, Global};
use usm_core::Users;

/// Takes the datagrams of a capture one after another, and prints each exchange as soon as it and all before it are
/// finished.
#[derive(Drop)]
pub struct Diagnoser {
    alloc: Global,
    follower: Follower,
    copies: Copies<u64>,
    report: Report,
    route: Option<Route>,
    micros: u32,
}

impl Diagnoser {
    /// Nothing was captured yet. Messages are opened by the keys of these users, and these clocks are known. Of
    /// variables that an answer refuses it is printed what these rows of access say, if they are given.
    pub fn new(
        alloc: Global,
        users: Users,
        clocks: Clocks,
        views: Option<Explainer>,
        options: DiagnoseOptions,
    ) -> Diagnoser
        ensures none { result.follower.exchanges.list.items ≡ [] }
        ensures gone { result.follower.exchanges.gone ≡ 0 }
        ensures users { result.follower.observer.users ≡ users.users }
        ensures clocks { result.follower.observer.clocks ≡ clocks }
        ensures options { result.report.options ≡ options }
    {
        Diagnoser {
            alloc,
            follower: Follower::new(alloc, users, clocks, views),
            copies: Copies::new(alloc),
            report: Report::new(alloc, options),
            route: None,
            micros: 0,
        }
    }

    /// Each line that is printed is a JSON object.
    pub fn prints_json(&self) -> bool
        ensures { result ≡ is_json self.now.report.options.style }
    {
        self.report.prints_json()
    }

    /// What there is if no exchange was printed, for a line that begins with the name of the file. The error is out of
    /// memory.
    pub fn nothing_printed(&self) -> Result<Option<String>, AllocError> {
        self.report.nothing_printed()
    }

    /// What is printed when the capture ends, and whether something failed in it: the exchanges that still wait for an
    /// answer, and the summary. The error is out of memory.
    pub fn finish(&mut self) -> Result<(Vec<u8>, bool), AllocError>
        ensures failed { IfOk result (λ printed. printed.1 ≡ self.new.report.failed) }
        ensures printed { IfOk result (λ printed. (text summary : List ℕ) × (printed.0.items ≡ text ++ summary)
            × Writes [] self.old [] self.new text) }
    {
        let mut text = Vec::new(self.alloc);
        self.print_all(&mut text)?;
        let summary = self.follower.summary(&self.report)?;
        text.extend_from_slice(summary.as_bytes())?;
        Ok((text, self.report.has_failed()))
    }

    /// Prints all exchanges. Those that still wait get no answer.
    fn print_all(&mut self, out: &mut Vec<u8>) -> Result<(), AllocError>
        ensures { OnOk result (Writes [] self.old out.old.items self.new out.new.items) }
    {
        for _turn in 0..=EXCHANGES_LIMIT {
            self.print_finished(out)?;
            if !self.end_first(Ending::NoAnswer) {
                break;
            }
        }
        Ok(())
    }

    /// The first exchange, if it waits, ends so, without an answer. Says whether it waited.
    fn end_first(&mut self, ending: Ending<Asked, Answer>) -> bool
        requires { IsGivenUp ending }
        ensures { Writes [] self.old [] self.new [] }
    {
        let place = self.follower.exchanges.first_place();
        self.follower.exchanges.end(place, ending)
    }

    /// Prints the exchanges that are finished, up to the first one that isn't.
    fn print_finished(&mut self, out: &mut Vec<u8>) -> Result<(), AllocError>
        ensures { OnOk result (Writes [] self.old out.old.items self.new out.new.items) }
    {
        for _turn in 0..=EXCHANGES_LIMIT {
            let is_finished = self.print_first(out)?;
            if !is_finished {
                break;
            }
        }
        Ok(())
    }

    /// Prints the first exchange, if it is finished. Says whether it is.
    fn print_first(&mut self, out: &mut Vec<u8>) -> Result<bool, AllocError>
        ensures { OnOk result (Writes [] self.old out.old.items self.new out.new.items) }
    {
        let Some(exchange) = self.follower.exchanges.take_finished() else {
            return Ok(false);
        };
        self.report.print(&exchange, out)?;
        Ok(true)
    }

    /// Takes a datagram. If too many exchanges wait then, the first isn't followed further.
    fn take(&mut self, line: Line, datagram: &[u8]) -> Result<(), AllocError>
        ensures { OnOk result ((judgement : Option Judgement)
            × Writes (seen_as line datagram.now judgement ∷ []) self.old [] self.new []) }
    {
        self.follower.take(line, datagram)?;
        self.end_over();
        Ok(())
    }

    /// If too many exchanges wait, the first isn't followed further.
    fn end_over(&mut self)
        ensures { Writes [] self.old [] self.new [] }
    {
        if !self.follower.exchanges.is_over() {
            return;
        }
        self.end_first(Ending::NotFollowed);
    }

    /// Says once that no further digest is kept, where that is so.
    fn print_limit(&mut self, out: &mut Vec<u8>) -> Result<(), AllocError>
        ensures limit { OnOk result ((limit : List ℕ) × (out.new.items ≡ out.old.items ++ limit)) }
        ensures writes { Writes [] self.old [] self.new [] }
    {
        if !self.copies.is_full() {
            return Ok(());
        }
        self.report.print_full(out)
    }

    /// How a datagram with this number was captured at this moment, in seconds.
    fn line_of(&mut self, number: u64, moment: u64, datagram: &[u8]) -> Result<Line, AllocError>
        ensures line { IfOk result (IsLineOf self.old number moment datagram.now) }
        ensures follower { self.new.follower ≡ self.old.follower }
        ensures report { self.new.report ≡ self.old.report }
    {
        Ok(Line {
            number,
            at: Stamp {
                seconds: moment,
                micros: self.micros,
            },
            route: self.route,
            copy_of: self.copies.note(digest_of(b"", datagram), number)?,
            told: self.report.told_request(self.route),
        })
    }

    /// Takes the datagram with this number, that was captured at this moment, in seconds, and prints the exchanges that
    /// are finished then, in the order of their first datagrams. Behind them it is said once if the digests of older
    /// datagrams aren't kept any more. The error is out of memory.
    pub fn print_datagram(
        &mut self,
        alloc: Global,
        number: u64,
        moment: u64,
        datagram: &[u8],
    ) -> Result<Vec<u8>, AllocError>
        ensures { IfOk result (λ printed. (text limit : List ℕ) × (printed.items ≡ text ++ limit)
            × ((line : LineIs) × (judgement : Option Judgement) × IsLineOf self.old number moment datagram.now line
            × Writes (seen_as line datagram.now judgement ∷ []) self.old [] self.new text)) }
    {
        let line = self.line_of(number, moment, datagram)?;
        self.take(line, datagram)?;
        let mut text = Vec::new(alloc);
        self.print_finished(&mut text)?;
        self.print_limit(&mut text)?;
        Ok(text)
    }
}

impl Printer for Diagnoser {
    ghost prints = { λ diagnoser number moment datagram text refused. refused ≡ false };

    fn see(&mut self, link: u16, micros: u32, packet: &[u8])
        ensures seen { Writes [] self.old [] self.new [] }
    {
        self.route = route_of(link, packet);
        self.micros = micros;
    }

    fn print(
        &mut self,
        alloc: Global,
        number: u64,
        moment: u64,
        datagram: &[u8],
    ) -> Result<Printed, AllocError> {
        let text = self.print_datagram(alloc, number, moment, datagram)?;
        Ok(Printed {
            text,
            refused: false,
        })
    }
}
