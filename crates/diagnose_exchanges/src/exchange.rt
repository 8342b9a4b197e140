//! Exchanges: a request and what became of it, or a datagram by itself.

ghost use Rattle.std.specs.Prelude.{◌≡◌};
ghost use Rattle.diagnose_exchanges.specs.Exchanges.{asks, waits};

/// How an exchange ended, if it has.
#[derive(Drop)]
pub enum Ending<K: Drop, A: Drop> {
    /// Its answer isn't there yet: what this is known by.
    Waits(K),
    /// Nothing answers it: a notification, a copy, or an answer of which the request isn't known.
    Alone,
    /// The datagram with this number answers it.
    Answered { by: u64, answer: A },
    /// Its request was sent again, and the exchange with this first datagram was answered.
    SentAgain(u64),
    /// The capture ended.
    NoAnswer,
    /// Too many exchanges waited after it.
    NotFollowed,
}

/// What a datagram says that may be forged. The true answer may come behind it.
#[derive(Drop)]
pub struct Claim<A: Drop> {
    /// The number of the datagram.
    pub by: u64,
    pub answer: A,
}

/// An exchange.
#[derive(Drop)]
pub struct Exchange<K: Drop, Q: Drop, A: Drop> {
    /// The number of its first datagram.
    pub number: u64,
    /// What its first datagram is.
    pub first: Q,
    /// It is counted: it was asked first, or stands for the one that was.
    pub counts: bool,
    /// The first datagram that may be forged and says how it ended. It ends nothing.
    pub claim: Option<Claim<A>>,
    pub ending: Ending<K, A>,
}

impl<K: Drop, Q: Drop, A: Drop> Exchange<K, Q, A> {
    /// Its answer isn't there yet.
    pub fn waits(&self) -> bool
        ensures { result ≡ waits self.now }
    {
        match self.ending {
            Ending::Waits(_) => true,
            Ending::Alone | Ending::Answered { .. } | Ending::SentAgain(_) => false,
            Ending::NoAnswer | Ending::NotFollowed => false,
        }
    }
    /// It waits for an answer with these.
    pub fn asks(&self, asked: &K) -> bool
    where
        K: PartialEq,
        ensures { result ≡ asks K.eq asked.now self.now.ending }
    {
        match &self.ending {
            Ending::Waits(held) => held == asked,
            Ending::Answered { .. } | Ending::SentAgain(_) => false,
            Ending::Alone | Ending::NoAnswer | Ending::NotFollowed => false,
        }
    }
}
