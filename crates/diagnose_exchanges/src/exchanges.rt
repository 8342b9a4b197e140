//! The exchanges of a capture, in the order of their first datagrams.

ghost use Rattle.std.specs.Prelude.{◌≡◌, ◌+◌, ◌++◌, ℕ, [], ◌∷◌, length, true, false};
ghost use Rattle.std.specs.Prelude.{IfOk, IfErr, IfSome, OnErr, IfNone, OnOk};
ghost use Rattle.std.specs.Prelude.{◌<◌, ◌≢◌, ◌↔◌, IsTrue, OnSome, Some, None, slice_get, slice_index_or, slice_set};
ghost use Rattle.diagnose_exchanges.specs.declared.exchange.Exchange.{Exchange as ExchangeIs};
ghost use Rattle.std.specs.VecDeque.{deque_len};
ghost use Rattle.std.specs.HashMap.{IsEmpty, IsUnchanged, Updates, get};
ghost use Rattle.diagnose_exchanges.specs.Exchanges.{Ends, Forgets, HandsOver, IsUncounted, IsWaiting, WaitsAt};
ghost use Rattle.diagnose_exchanges.specs.Exchanges.{AnswersAt, AsksAt, AsksUnclaimedAt, ClaimsAt, IsAsking};
ghost use Rattle.diagnose_exchanges.specs.Exchanges.{LeavesEarlier, Takes, TakesBy};
ghost use Rattle.diagnose_exchanges.specs.Exchanges.{begins};
ghost use Rattle.diagnose_exchanges.specs.Exchanges.{begun, counting};
ghost use Rattle.diagnose_exchanges.specs.Exchanges.{exchanges_limit, is_waiting, place_after, resent, waits};
ghost use Rattle.diagnose_exchanges.specs.declared.exchange.Ending.TheVariants.{Waits, Alone};

use crate::exchange::{Claim, Ending, Exchange};
use crate::waiting::Waiting;
use std::alloc::{AllocError, Global};
use std::collections::VecDeque;
use std::hash::Hash;

/// How many exchanges are held at once.
pub const EXCHANGES_LIMIT: usize = 65_536;

/// The exchanges of a capture that aren't finished or wait behind one that isn't, in the order of their first
/// datagrams. Each has a place: how many exchanges began before it.
#[derive(Drop)]
pub struct Exchanges<K: Eq + Hash + Copy + Drop, Q: Drop, A: Drop> {
    waiting: Waiting<K>,
    gone: u64,
    list: VecDeque<Exchange<K, Q, A>>,
}

impl<K: Eq + Hash + Copy + Drop, Q: Drop, A: Drop> Exchanges<K, Q, A> {
    /// No datagram was seen. This takes no memory.
    pub fn new(alloc: Global) -> Exchanges<K, Q, A>
        ensures list { result.list.items ≡ [] }
        ensures gone { result.gone ≡ 0 }
        ensures waiting { IsEmpty result.waiting.numbers }
    {
        Exchanges {
            waiting: Waiting::new(alloc),
            gone: 0,
            list: VecDeque::new(alloc),
        }
    }

    /// The place of the exchange at this index of those that are held.
    fn place_at(&self, index: usize) -> u64
        ensures place { result ≡ place_after self.now.gone index }
        ensures first { index ≡ 0 → result ≡ self.now.gone }
    {
        self.gone.saturating_add(index as u64)
    }

    /// The place of the exchange that begins next.
    pub fn next_place(&self) -> u64
        ensures { result ≡ place_after self.now.gone (length self.now.list.items) }
    {
        self.place_at(self.list.len())
    }

    /// The place of the first exchange.
    pub fn first_place(&self) -> u64
        ensures { result ≡ self.now.gone }
    {
        self.place_at(0)
    }

    /// There are over 65,536 exchanges: the first is to be ended.
    pub fn is_over(&self) -> bool
        ensures { IsTrue result ↔ (exchanges_limit < deque_len self.now.list) }
    {
        self.list.len() > EXCHANGES_LIMIT
    }

    /// A datagram with this number that nothing answers is an exchange of its own. The error is out of memory, and then
    /// all is as before.
    pub fn tell(&mut self, number: u64, first: Q) -> Result<(), AllocError>
        ensures ok { OnOk result (self.new.list.items
            ≡ self.old.list.items ++ begun number first false Alone ∷ []) }
        ensures err { OnErr result (self.new.list.items ≡ self.old.list.items) }
        ensures gone { self.new.gone ≡ self.old.gone }
        ensures waiting { IsUnchanged self.old.waiting.numbers self.new.waiting.numbers }
        ensures takes { OnOk result
            (TakesBy (begins number first false Alone) self.old.gone self.old.list.items self.new.list.items) }
    {
        self.list.push_back(Exchange {
            number,
            first,
            counts: false,
            claim: None,
            ending: Ending::Alone,
        })?;
        Ok(())
    }

    /// A request with this number begins an exchange, and waits for an answer that is known by what it asked. An
    /// earlier one that asked the same gets no answer any more. One that is sent again doesn't count. The error is
    /// out of memory, and then all is as before.
    pub fn ask(&mut self, number: u64, asked: K, counts: bool, first: Q) -> Result<(), AllocError>
        ensures ok { OnOk result (self.new.list.items
            ≡ self.old.list.items ++ begun number first counts (Waits asked) ∷ []) }
        ensures waits { OnOk result (Updates K.eq self.old.waiting.numbers
            self.new.waiting.numbers asked
            (Some (place_after self.old.gone (length self.old.list.items)))) }
        ensures err { OnErr result ((self.new.list.items ≡ self.old.list.items)
            × IsUnchanged self.old.waiting.numbers self.new.waiting.numbers) }
        ensures gone { self.new.gone ≡ self.old.gone }
    {
        let place = self.next_place();
        self.list.reserve(1)?;
        self.waiting.ask(asked, place)?;
        self.list.push_back_reserved(Exchange {
            number,
            first,
            counts,
            claim: None,
            ending: Ending::Waits(asked),
        });
        Ok(())
    }

    /// A request with this number begins an exchange, as `ask` says. The earlier one that asked the same ends without
    /// an answer, unless it is the one at the place `kept`, whose request is sent again with this one.
    pub fn ask_anew(
        &mut self,
        number: u64,
        asked: K,
        kept: Option<u64>,
        counts: bool,
        first: Q,
    ) -> Result<(), AllocError>
        ensures asks { OnOk result (LeavesEarlier self.old.gone
            (self.old.list.items ++ begun number first counts (Waits asked) ∷ [])
            self.new.list.items (get K.eq self.old.waiting.numbers asked) kept) }
        ensures takes { OnOk result (TakesBy (begins number first counts (Waits asked)) self.old.gone
            self.old.list.items self.new.list.items) }
        ensures err { OnErr result ((self.new.list.items ≡ self.old.list.items)
            × IsUnchanged self.old.waiting.numbers self.new.waiting.numbers) }
        ensures gone { self.new.gone ≡ self.old.gone }
    {
        let earlier = self.waits(&asked);
        self.ask(number, asked, counts, first)?;
        if let Some(place) = earlier {
            if kept != Some(place) {
                self.end(place, Ending::NoAnswer);
            }
        }
        Ok(())
    }

    /// The place of the exchange that waits for an answer with these.
    pub fn waits(&self, asked: &K) -> Option<u64>
        ensures { result ≡ get K.eq self.now.waiting.numbers asked.now }
    {
        self.waiting.waits(asked)
    }

    /// The exchange at this place, if it isn't taken out yet.
    pub fn at(&self, place: u64) -> Option<&Exchange<K, Q, A>>
        ensures { IfSome result (λ e. (index : ℕ) × (place ≡ self.now.gone + index)
            × (e.now ≡ slice_index_or self.now.list.items index e.now)) }
    {
        if place < self.gone {
            return None;
        }
        self.list.get((place - self.gone) as usize)
    }

    /// The datagram `by` answers the exchange that waits for an answer with these, which then waits no longer, and
    /// gives its place. Or no exchange waits for it: the answer is given back, and the list stays as it is.
    pub fn answer(&mut self, asked: &K, by: u64, answer: A) -> Result<u64, A>
        ensures answered { IfOk result
            (λ place. (get K.eq self.old.waiting.numbers asked.now ≡ Some place)
            × AnswersAt K.eq self.old.gone self.old.list.items self.new.list.items asked.now by answer place) }
        ensures alone { IfErr result (λ back. (back ≡ answer)
            × (self.new.list.items ≡ self.old.list.items)
            × ((place : ℕ) → get K.eq self.old.waiting.numbers asked.now ≡ Some place
            → AsksAt K.eq self.old.gone self.old.list.items place asked.now → ⊥)) }
        ensures waiting { Updates K.eq self.old.waiting.numbers
            self.new.waiting.numbers asked.now None }
        ensures gone { self.new.gone ≡ self.old.gone }
    {
        let Some(place) = self.waiting.answer(asked) else {
            return Err(answer);
        };
        let Some(index) = asks_at(&self.list, self.gone, place, asked) else {
            return Err(answer);
        };
        self.list[index].ending = Ending::Answered { by, answer };
        Ok(place)
    }

    /// The datagram `by`, which may be forged, says how the exchange ended that waits for an answer with these. That
    /// waits on, and its place is given. Or no exchange waits for it, or it has such a datagram already: what was said
    /// is given back. The list stays as it is then.
    pub fn claim(&mut self, asked: &K, by: u64, answer: A) -> Result<u64, A>
        ensures claimed { IfOk result
            (λ place. (get K.eq self.old.waiting.numbers asked.now ≡ Some place)
            × ClaimsAt K.eq self.old.gone self.old.list.items self.new.list.items asked.now by answer place) }
        ensures alone { IfErr result (λ back. (back ≡ answer) × (self.new.list.items ≡ self.old.list.items)
            × ((place : ℕ) → get K.eq self.old.waiting.numbers asked.now ≡ Some place
            → AsksUnclaimedAt K.eq self.old.gone self.old.list.items place asked.now → ⊥)) }
        ensures waiting { self.new.waiting ≡ self.old.waiting }
        ensures gone { self.new.gone ≡ self.old.gone }
    {
        let Some(place) = self.waits(asked) else {
            return Err(answer);
        };
        let Some(index) = asks_at(&self.list, self.gone, place, asked) else {
            return Err(answer);
        };
        if self.list[index].claim.is_some() {
            return Err(answer);
        }
        self.list[index].claim = Some(Claim { by, answer });
        Ok(place)
    }

    /// The exchange at this place, if it waits, ends so, without an answer. Says whether it waited.
    pub fn end(&mut self, place: u64, ending: Ending<K, A>) -> bool
        ensures ended { result ≡ true → Ends self.old.gone self.old.list.items
            self.new.list.items place ending }
        ensures stays { result ≡ false → (self.new.list.items ≡ self.old.list.items)
            × (WaitsAt self.old.gone self.old.list.items place → ⊥) }
        ensures gone { self.new.gone ≡ self.old.gone }
        ensures waiting { Forgets K.eq self.old.waiting.numbers self.new.waiting.numbers place }
    {
        let Some(index) = waits_at(&self.list, self.gone, place) else {
            return false;
        };
        forget(&mut self.waiting, &self.list[index].ending, place);
        self.list[index].ending = ending;
        true
    }

    /// The request of the exchange at `first`, if that still waits, was sent again as the one at `place`, which is
    /// answered and didn't count. So the first one ends, and the other one counts in its place. Says whether it was so.
    pub fn sent_again(&mut self, first: u64, place: u64) -> bool
        ensures handed { result ≡ true
            → HandsOver self.old.gone self.old.list.items self.new.list.items first place }
        ensures takes { Takes [] self.old.gone self.old.list.items self.new.list.items }
        ensures stays { result ≡ false → self.new.list.items ≡ self.old.list.items }
        ensures gone { self.new.gone ≡ self.old.gone }
        ensures waiting { Forgets K.eq self.old.waiting.numbers self.new.waiting.numbers first }
    {
        let Some(index) = waits_at(&self.list, self.gone, first) else {
            return false;
        };
        let Some(other) = uncounted_at(&self.list, self.gone, place) else {
            return false;
        };
        forget(&mut self.waiting, &self.list[index].ending, first);
        hand_over(&mut self.list, index, other);
        true
    }

    /// Takes the first exchange out, if it is finished.
    pub fn take_finished(&mut self) -> Option<Exchange<K, Q, A>>
        ensures first { IfSome result
            (λ e. (self.old.list.items ≡ e ∷ self.new.list.items) × (is_waiting e.ending ≡ false)) }
        ensures gone { OnSome result (self.new.gone ≡ place_after self.old.gone 1) }
        ensures none { IfNone result ((self.new.list.items ≡ self.old.list.items)
            × (self.new.gone ≡ self.old.gone)) }
        ensures waits { IfNone result (IfSome (slice_get self.old.list.items 0)
            (λ e. waits e ≡ true)) }
        ensures waiting { self.new.waiting ≡ self.old.waiting }
    {
        if self.list.front()?.waits() {
            return None;
        }
        let first = self.list.pop_front()?;
        self.gone = self.place_at(1);
        Some(first)
    }
}

/// The index of the exchange at this place, behind so many that are gone, if it waits.
fn waits_at<K: Drop, Q: Drop, A: Drop>(
    list: &VecDeque<Exchange<K, Q, A>>,
    gone: u64,
    place: u64,
) -> Option<usize>
    ensures found { IfSome result (λ index. IsWaiting gone list.now.items place index) }
    ensures none { IfNone result (WaitsAt gone list.now.items place → ⊥) }
{
    if place < gone {
        return None;
    }
    let index = (place - gone) as usize;
    if list.get(index)?.waits() {
        Some(index)
    } else {
        None
    }
}

/// The index of the exchange at this place, behind so many that are gone, if it waits for an answer with these.
fn asks_at<K: Eq + Drop, Q: Drop, A: Drop>(
    list: &VecDeque<Exchange<K, Q, A>>,
    gone: u64,
    place: u64,
    asked: &K,
) -> Option<usize>
    ensures found { IfSome result (IsAsking K.eq gone list.now.items place asked.now) }
    ensures none { IfNone result (AsksAt K.eq gone list.now.items place asked.now → ⊥) }
{
    if place < gone {
        return None;
    }
    let at = (place - gone) as usize;
    if list.get(at)?.asks(asked) {
        Some(at)
    } else {
        None
    }
}

/// What waited with this ending at this place waits no longer.
fn forget<K: Eq + Hash + Copy + Drop, A: Drop>(
    waiting: &mut Waiting<K>,
    ending: &Ending<K, A>,
    place: u64,
)
    ensures { Forgets K.eq waiting.old.numbers waiting.new.numbers place }
{
    if let Ending::Waits(asked) = ending {
        if let Some(held) = waiting.waits(asked) {
            if held == place {
                waiting.answer(asked);
            }
        }
    }
}

/// The index of the exchange at this place, if it is finished and doesn't count.
fn uncounted_at<K: Drop, Q: Drop, A: Drop>(
    list: &VecDeque<Exchange<K, Q, A>>,
    gone: u64,
    place: u64,
) -> Option<usize>
    ensures found { IfSome result (λ index. IsUncounted gone list.now.items place index) }
{
    if place < gone {
        return None;
    }
    let index = (place - gone) as usize;
    let exchange = list.get(index)?;
    if exchange.counts || exchange.waits() {
        return None;
    }
    Some(index)
}

/// Ends the exchange at `index` since it was sent again as the one at `other`, which counts in its place.
fn hand_over<K: Drop, Q: Drop, A: Drop>(
    list: &mut VecDeque<Exchange<K, Q, A>>,
    index: usize,
    other: usize,
)
    requires within { (index < length list.old.items) × (other < length list.old.items) }
    requires apart { other ≢ index }
    ensures { (x y : ExchangeIs K Q A) → x ≡ slice_index_or list.old.items index x
        → y ≡ slice_index_or list.old.items other y
        → list.new.items ≡ slice_set (slice_set list.old.items index (resent y.number x)) other
        (counting x.counts y) }
{
    let number = list[other].number;
    let first = &mut list[index];
    let counts = first.counts;
    first.counts = false;
    first.ending = Ending::SentAgain(number);
    list[other].counts = counts;
}
