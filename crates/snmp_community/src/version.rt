//! The versions of messages with a community.

ghost use Rattle.std.specs.Prelude.{◌≡◌, ◌≢◌, pos, MatchOption};
ghost use Rattle.snmp_community.specs.Versions.{version_number};

/// The version of a message with a community.
#[derive(Clone, Copy, Debug, PartialEq, Eq)]
pub enum Version {
    /// version-1 (RFC 1157, section 4).
    Version1,
    /// The version of SNMPv2c (RFC 1901, section 3).
    Version2c,
}

impl Version {
    /// The number of the version, as a message has it: 0 of version-1, 1 of SNMPv2c.
    pub fn number(self) -> i32
        ensures { result ≡ pos (version_number self) }
    {
        match self {
            Version::Version1 => 0,
            Version::Version2c => 1,
        }
    }

    /// The version with this number, and None where it is the number of neither.
    pub fn of(number: i32) -> Option<Version>
        ensures { MatchOption result ((v : Version) → number ≢ pos (version_number v))
            (λ v. number ≡ pos (version_number v)) }
    {
        match number {
            0 => Some(Version::Version1),
            1 => Some(Version::Version2c),
            _ => None,
        }
    }
}
