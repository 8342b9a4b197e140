//! The tables that a gateway's configuration has beside those of users and access, and the keys that they list.

ghost use Rattle.std.specs.Prelude.{◌≡◌, Some, MatchBool};
ghost use Rattle.snmpsec_gate_config.specs.Keys.{table_name, key_name, limit_name, listed, IsListed};

use std::fmt;

/// The tables of a gateway's own.
#[derive(Clone, Copy, Debug, PartialEq, Eq)]
pub enum GateTable {
    /// The gateway, `[gate]`.
    Gate,
    /// The devices behind it, `[[device]]`.
    Device,
    /// Who is sent notifications of the devices, `[[receiver]]`.
    Receiver,
}

impl GateTable {
    /// Returns the key at the top of the configuration.
    pub fn name(self) -> &'static str
        ensures { result.now ≡ table_name self }
    {
        match self {
            GateTable::Gate => "gate",
            GateTable::Device => "device",
            GateTable::Receiver => "receiver",
        }
    }

    /// The keys that it lists.
    pub(crate) fn keys(self) -> &'static [GateKey]
        ensures { result.now ≡ listed self }
    {
        match self {
            GateTable::Gate => &[
                GateKey::Engine,
                GateKey::Boots,
                GateKey::Listen,
                GateKey::Traps,
                GateKey::Limit(LimitKey::Waiting),
                GateKey::Limit(LimitKey::Rounds),
                GateKey::Limit(LimitKey::Again),
                GateKey::Limit(LimitKey::Tries),
                GateKey::Limit(LimitKey::Last),
                GateKey::Limit(LimitKey::Gather),
                GateKey::Limit(LimitKey::WaitingPerDevice),
                GateKey::LongAnswers,
                GateKey::ReportUnreachable,
            ],
            GateTable::Device => &[
                GateKey::Context,
                GateKey::Address,
                GateKey::Community,
                GateKey::WriteCommunity,
                GateKey::Limit(LimitKey::Repetitions),
                GateKey::Limit(LimitKey::MaxSize),
                GateKey::Limit(LimitKey::AtOnce),
            ],
            GateTable::Receiver => &[
                GateKey::Address,
                GateKey::User,
                GateKey::Level,
                GateKey::Kind,
            ],
        }
    }

    /// Whether it lists this key.
    pub(crate) fn lists(self, name: &str) -> bool
        ensures { MatchBool result (IsListed self name.now) (¬ IsListed self name.now) }
    {
        self.keys().iter().any(|key| key.name() == name)
    }
}

impl fmt::Display for GateTable {
    ghost output = { λ table. Some (table_name table) };

    fn fmt<W: fmt::Write>(&self, f: &mut fmt::Formatter<W>) -> fmt::Result {
        f.write_str(self.name())
    }
}

/// The keys whose values are numbers with a least, a greatest and a default.
#[derive(Clone, Copy, Debug, PartialEq, Eq)]
pub enum LimitKey {
    /// How many requests may wait.
    Waiting,
    /// How often a device is asked for one request.
    Rounds,
    /// How long a device has for its answer before it is asked again.
    Again,
    /// How often a device is asked the same.
    Tries,
    /// How long after it came a request is asked.
    Last,
    /// How long after it came a GetBulkRequest with one whole repetition is answered.
    Gather,
    /// How many requests may wait for one device.
    WaitingPerDevice,
    /// How many repetitions a device is asked for.
    Repetitions,
    /// The longest datagram that a device takes.
    MaxSize,
    /// How many requests a device is asked at once.
    AtOnce,
}

impl LimitKey {
    /// Returns its name in the text.
    pub fn name(self) -> &'static str
        ensures { result.now ≡ limit_name self }
    {
        match self {
            LimitKey::Waiting => "waiting",
            LimitKey::Rounds => "rounds",
            LimitKey::Again => "again",
            LimitKey::Tries => "tries",
            LimitKey::Last => "last",
            LimitKey::Gather => "gather",
            LimitKey::WaitingPerDevice => "waiting-per-device",
            LimitKey::Repetitions => "repetitions",
            LimitKey::MaxSize => "max-size",
            LimitKey::AtOnce => "at-once",
        }
    }
}

/// The keys that the tables list.
#[derive(Clone, Copy, Debug, PartialEq, Eq)]
pub enum GateKey {
    Engine,
    Boots,
    Listen,
    Traps,
    LongAnswers,
    ReportUnreachable,
    Context,
    Address,
    Community,
    WriteCommunity,
    User,
    Level,
    Kind,
    Limit(LimitKey),
}

impl GateKey {
    /// Returns its name in the text.
    pub fn name(self) -> &'static str
        ensures { result.now ≡ key_name self }
    {
        match self {
            GateKey::Engine => "engine",
            GateKey::Boots => "boots",
            GateKey::Listen => "listen",
            GateKey::Traps => "traps",
            GateKey::LongAnswers => "long-answers",
            GateKey::ReportUnreachable => "report-unreachable",
            GateKey::Context => "context",
            GateKey::Address => "address",
            GateKey::Community => "community",
            GateKey::WriteCommunity => "write-community",
            GateKey::User => "user",
            GateKey::Level => "level",
            GateKey::Kind => "kind",
            GateKey::Limit(key) => key.name(),
        }
    }
}

impl fmt::Display for GateKey {
    ghost output = { λ key. Some (key_name key) };

    fn fmt<W: fmt::Write>(&self, f: &mut fmt::Formatter<W>) -> fmt::Result {
        f.write_str(self.name())
    }
}
