//! When a request is asked again, and when it is given up.

ghost use Rattle.std.specs.Prelude.{◌≡◌, ◌↔◌, ◌+◌, ◌-◌, ◌^◌, ◌≤◌, IsTrue, min};
ghost use Rattle.snmp_gate.specs.Time.{IsDue, due_at, once_more, times_asked};

use crate::retries::Retries;

/// Whose turn it is.
#[derive(Clone, Copy, Debug, PartialEq, Eq)]
pub enum Turn {
    /// The device is to be asked.
    ToAsk,
    /// The device was asked, and is to answer.
    Asked {
        /// The moment at which it was asked the last time.
        at: u64,
        /// How often it was asked the same.
        times: u32,
    },
}

/// What is due by time.
#[derive(Clone, Copy, Debug, PartialEq, Eq)]
pub enum Due {
    /// Nothing yet.
    Nothing,
    /// The device is to be asked the same again.
    AskAgain,
    /// The request is to be given up.
    GiveUp,
}

/// How far a request has come in time. Moments are milliseconds from one beginning.
#[derive(Clone, Copy, Debug, PartialEq, Eq)]
pub struct Timer {
    /// The moment at which the request came.
    pub began: u64,
    pub turn: Turn,
}

/// Returns true if so many milliseconds have passed since `from`.
fn has_passed(from: u64, milliseconds: u64, now: u64) -> bool
    ensures { IsTrue result ↔ (from + milliseconds ≤ now) }
{
    now.checked_sub(from)
        .is_some_and(|passed| milliseconds <= passed)
}

impl Timer {
    /// Returns the timer of a request that comes now.
    pub fn new(now: u64) -> Timer
        ensures began { result.began ≡ now }
        ensures turn { result.turn ≡ Turn.ToAsk }
    {
        Timer {
            began: now,
            turn: Turn::ToAsk,
        }
    }

    /// Returns what is due now.
    pub fn due(self, retries: &Retries, now: u64) -> Due
        ensures { IsDue retries.now self now result }
    {
        let (from, wait, times) = match self.turn {
            Turn::ToAsk => (self.began, retries.last, 0),
            Turn::Asked { at, times } => (at, retries.again, times),
        };
        if !has_passed(from, wait, now) {
            return Due::Nothing;
        }
        if times < retries.tries && !has_passed(self.began, retries.last, now) {
            return Due::AskAgain;
        }
        Due::GiveUp
    }

    /// Returns the moment from which on something is due, at most 18446744073709551615.
    pub fn due_at(self, retries: &Retries) -> u64
        ensures { result ≡ min (due_at retries.now self) (2 ^ 64 - 1) }
    {
        match self.turn {
            Turn::ToAsk => self.began.saturating_add(retries.last),
            Turn::Asked { at, .. } => at.saturating_add(retries.again),
        }
    }

    /// Returns how often the device was asked the same.
    pub fn times(self) -> u32
        ensures { result ≡ times_asked self.turn }
    {
        match self.turn {
            Turn::ToAsk => 0,
            Turn::Asked { times, .. } => times,
        }
    }

    /// The device is asked now, the first time or again.
    pub fn ask(&mut self, now: u64)
        ensures began { self.new.began ≡ self.old.began }
        ensures turn { self.new.turn ≡ Turn.Asked now (once_more (times_asked self.old.turn)) }
    {
        let times = self.times();
        self.turn = Turn::Asked {
            at: now,
            times: times.saturating_add(1),
        };
    }

    /// Returns the timer after the device answered: it is to be asked for what is left.
    pub fn with_answer(self) -> Timer
        ensures began { result.began ≡ self.began }
        ensures turn { result.turn ≡ Turn.ToAsk }
    {
        Timer {
            began: self.began,
            turn: Turn::ToAsk,
        }
    }
}
