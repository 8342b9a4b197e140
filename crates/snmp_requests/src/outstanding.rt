//! The requests that wait for their answers, many at once, by msgID.

ghost use Rattle.std.specs.Prelude.{◌≡◌, ◌↔◌, ◌+◌, ◌-◌, ◌^◌, ◌<◌, ◌≤◌, IfOk, IfSome, IsSome, IsTrue};
ghost use Rattle.std.specs.Prelude.{MatchBool, MatchOption, OnErr, OnOk};
ghost use Rattle.std.specs.FinMap as map;
ghost use Rattle.std.specs.Option.{option_copied};
ghost use Rattle.snmp_ber.specs.declared.number.TheConstants.{MAX_INTEGER32};
ghost use Rattle.snmp_message.specs.Scoped.{Contexts, ScopedFront};
ghost use Rattle.snmp_msg.specs.Pdu.{PduParts, PduText};
ghost use Rattle.snmp_incoming.specs.Answers.{given_of};
ghost use Rattle.snmp_incoming.specs.Texts.{text_of};
ghost use Rattle.snmp_requests.specs.Answering.{TellsAnswered};
ghost use Rattle.snmp_requests.specs.Outstanding.{AreOutstanding, HasNoToken, IsAdded, IsEnded, IsFreeToken};
ghost use Rattle.snmp_requests.specs.Outstanding.{IsNextToken, IsRequestAt, IsRequestOf, Waits};
ghost use Rattle.snmp_requests.specs.Outstanding.{from_token, message_id_of, none_outstanding, without};

use crate::answered::{AnsweredRequest, heard_of};
use crate::device_request::Heard;
use snmp_incoming::Taken;
use snmp_manager::Pending;
use std::alloc::{AllocError, Global};
use std::collections::BTreeMap;
use std::marker::Model;

/// So many requests wait at once at most.
pub const REQUESTS_LIMIT: usize = 65_536;

/// How many msgIDs there are: 0 to 2147483647 (RFC 3412, section 6.2).
pub const MESSAGE_IDS: u64 = 0x8000_0000;

/// Returns the msgID of the request with this token, at most 2147483647.
pub fn message_id(token: u64) -> u32
    ensures id { result ≡ message_id_of token }
    ensures small { result ≤ MAX_INTEGER32 }
{
    (token % MESSAGE_IDS) as u32
}

/// A request that waits for its answer.
#[derive(Drop)]
pub struct OutstandingRequest {
    /// The number that it was given when it was asked; no other request has it.
    pub(crate) token: u64,
    pub(crate) pending: Pending,
    /// msgAuthoritativeEngineID, empty for a discovery.
    pub(crate) engine: Vec<u8>,
    /// msgUserName.
    pub(crate) user: Vec<u8>,
}

impl OutstandingRequest {
    /// Returns the request with this token, which was sent to this engine and for this user. The error is out of
    /// memory.
    fn of(
        alloc: Global,
        token: u64,
        pending: Pending,
        engine: &[u8],
        user: &[u8],
    ) -> Result<OutstandingRequest, AllocError>
        requires id { pending.id ≡ message_id_of token }
        requires engine { pending.engine.items ≡ engine.now }
        requires user { pending.user.items ≡ user.now }
        ensures { IfOk result (IsRequestOf token pending) }
    {
        Ok(OutstandingRequest {
            token,
            pending,
            engine: engine.to_vec(alloc)?,
            user: user.to_vec(alloc)?,
        })
    }
}

/// The requests that wait for their answers. Each has a token, which no other request is given, and a msgID, which no
/// other that waits has.
#[derive(Drop)]
pub struct OutstandingRequests {
    alloc: Global,
    /// By msgID.
    requests: BTreeMap<u32, OutstandingRequest>,
    /// No request was given this token, or a greater one.
    next: u64,
}

impl Model for OutstandingRequests {
    ghost use Rattle.std.specs.FinMap as map;
    ghost use Rattle.std.specs.Coded.{codes};
    ghost use Rattle.std.specs.List.Sorted.{IsStrictlySortedBy};
    ghost use Rattle.snmp_requests.specs.Outstanding.{Outstanding, HoldsOutstanding};

    ghost Value = { Outstanding };

    ghost coded = { Prim.hlevel (codes, map.code) };

    ghost view = { λ r. record { requests = map.from_entries r.requests.entries; next = r.next } };

    ghost invariant = { λ r. HoldsOutstanding r.requests.entries r.next };
}

impl OutstandingRequests {
    /// Returns the requests of a manager that asked nothing yet. This takes no memory.
    pub fn new(alloc: Global) -> OutstandingRequests
        ensures { result ≡ none_outstanding }
    {
        OutstandingRequests {
            alloc,
            requests: BTreeMap::new(alloc),
            next: 0,
        }
    }

    /// Returns how many requests wait, at most 65,536.
    pub fn len(&self) -> usize
        ensures len { result ≡ map.len self.now.requests }
        ensures few { result ≤ REQUESTS_LIMIT }
    {
        self.requests.len()
    }

    /// Returns true if 65,536 requests wait: then no other is asked.
    pub fn is_full(&self) -> bool
        ensures { IsTrue result ↔ (REQUESTS_LIMIT ≤ map.len self.now.requests) }
    {
        self.len() >= REQUESTS_LIMIT
    }

    /// Returns the token of the request that is asked next: the first that was given to none, and whose msgID none has
    /// that waits. The very first request is given `first`, at most 2147483647, which is to be random: then a program
    /// that begins again doesn't repeat its msgIDs. None: there is no such token below 18446744073709551615, so nearly
    /// as many requests were asked.
    pub fn next_token(&self, first: u32) -> Option<u64>
        ensures token { MatchOption result (HasNoToken self.now first) (IsNextToken self.now first) }
        ensures left { from_token self.now.next first + REQUESTS_LIMIT < 2 ^ 64 - 1 → IsSome result }
    {
        let from = self.first_from(first);
        for token in from..u64::MAX {
            if self.at(message_id(token)).is_none() {
                return Some(token);
            }
        }
        None
    }

    /// Returns from where on tokens are given.
    fn first_from(&self, first: u32) -> u64
        ensures from { result ≡ from_token self.now.next first }
        ensures are { AreOutstanding self.now }
    {
        if self.next == 0 {
            return u64::from(first);
        }
        self.next
    }

    /// The request with this token, which `next_token` returned, waits for its answer. It was written with the token's
    /// msgID, to this engine (none: a discovery) and for this user.
    ///
    /// The error is out of memory, and then all is as before.
    pub fn add(
        &mut self,
        token: u64,
        pending: Pending,
        engine: &[u8],
        user: &[u8],
    ) -> Result<(), AllocError>
        requires room { map.len self.old.requests < REQUESTS_LIMIT }
        requires token { IsFreeToken self.old token }
        requires id { pending.id ≡ message_id_of token }
        requires engine { pending.engine.items ≡ engine.now }
        requires user { pending.user.items ≡ user.now }
        ensures added { OnOk result (IsAdded self.old token pending self.new) }
        ensures err { OnErr result (self.new ≡ self.old) }
    {
        let request = OutstandingRequest::of(self.alloc, token, pending, engine, user)?;
        self.requests.insert(message_id(token), request)?;
        self.next = token + 1;
        Ok(())
    }

    /// Tells which request an accepted message answers, and what it is to it (RFC 3412, section 7.2, steps 10 to 12):
    /// one alone, the one with the message's msgID. Its Response ends a request, and nothing else that comes does. A
    /// Report without authentication can be anybody's. None: the message answers no request that waits.
    ///
    /// It takes no memory.
    pub fn take_answer(&mut self, taken: &Taken<'_>) -> Option<AnsweredRequest>
        ensures { (c : Contexts) (p : PduParts) → ScopedFront (text_of taken.now.text) c
            → PduText c.pdu p
            → TellsAnswered self.old (given_of taken.now) c p result self.new }
    {
        let Some(request) = self.at(taken.id) else {
            return None;
        };
        let Some(heard) = heard_of(request, taken) else {
            return None;
        };
        let token = request.token;
        if let Heard::Response = heard {
            self.end(taken.id);
        }
        Some(AnsweredRequest { token, heard })
    }

    /// The request with this token isn't waited for any more, whatever comes. Returns false, and changes nothing, if it
    /// doesn't wait.
    pub fn give_up(&mut self, token: u64) -> bool
        ensures { MatchBool result (IsEnded self.old token self.new)
            ((¬ Waits self.old token) × (self.new ≡ self.old)) }
    {
        let id = message_id(token);
        let Some(request) = self.at(id) else {
            return false;
        };
        if request.token != token {
            return false;
        }
        self.end(id);
        true
    }

    /// Returns the request with this msgID that waits.
    fn at(&self, id: u32) -> Option<&OutstandingRequest>
        ensures found { option_copied result ≡ map.get self.now.requests id }
        ensures at { IfSome result (λ r. IsRequestAt self.now.next id r.now) }
        ensures are { AreOutstanding self.now }
    {
        match self.requests.get(&id) {
            Some(request) => Some(request),
            None => None,
        }
    }

    /// The request with this msgID waits no more.
    fn end(&mut self, id: u32)
        ensures { self.new ≡ without self.old id }
    {
        self.requests.remove(&id);
    }
}
