//! How many datagrams were printed, and how many packets passed over, by reason.

ghost use Rattle.std.specs.Prelude.{◌≡◌, ◌++◌, map, IfOk, OnOk, string_bytes};
ghost use Rattle.capture_files.specs.Tally.{IsBelow, IsPassedWords, count_part, counts_of, link_parts, link_word};
ghost use Rattle.capture_files.specs.Tally.{none_passed, one_more, one_printed, zeros};

use std::alloc::{AllocError, Global};

/// Why a record is passed over.
#[derive(Clone, Copy, Debug, PartialEq, Eq)]
pub enum Reason {
    /// A datagram from and to other ports than those that are wanted.
    AnotherPort,
    /// A link whose frames aren't known. The type of the link.
    OtherLink(u16),
    /// Another protocol than IP.
    NotIp,
    /// Another protocol over IP than UDP.
    NotUdp,
}

/// How many types of links there are, numbers of LINKTYPE.
const LINKS: usize = 65_536;

/// How many datagrams were printed, and how many records passed over, by reason.
#[derive(Debug, PartialEq, Eq, Drop)]
pub struct Tally {
    /// Datagrams that were printed.
    pub datagrams: u64,
    /// Whether what was printed of one of them tells a refusal.
    pub refused: bool,
    /// Datagrams from and to other ports.
    pub another_port: u64,
    /// Packets on a link whose frames aren't known, by its type, 0 to 65535 (a number of LINKTYPE).
    pub other_links: Vec<u64>,
    /// Packets of other protocols than IP.
    pub not_ip: u64,
    /// Packets of other protocols over IP than UDP.
    pub not_udp: u64,
}

/// So many counts of nothing.
#[tactic(auto, unfolding(crate::specs::Tally::zeros))]
fn zeros(alloc: Global, count: usize) -> Result<Vec<u64>, AllocError>
    ensures { IfOk result (λ counts. counts.items ≡ zeros count) }
{
    vec![in alloc; 0u64; count]
}

impl Tally {
    /// None yet.
    pub fn none(alloc: Global) -> Result<Tally, AllocError>
        ensures { IfOk result (λ passed. counts_of passed ≡ none_passed) }
    {
        let other_links = zeros(alloc, LINKS)?;
        Ok(Tally {
            datagrams: 0,
            refused: false,
            another_port: 0,
            other_links,
            not_ip: 0,
            not_udp: 0,
        })
    }

    /// One datagram more, of which what was printed tells a refusal or doesn't.
    pub fn print(&mut self, refused: bool)
        requires { IsBelow (counts_of self.old) 18446744073709551615 }
        ensures { counts_of self.new ≡ one_printed (counts_of self.old) refused }
    {
        self.datagrams += 1;
        self.refused = self.refused || refused;
    }

    /// One record more that is passed over, for this reason.
    pub fn count(&mut self, reason: Reason)
        requires { IsBelow (counts_of self.old) 18446744073709551615 }
        ensures { counts_of self.new ≡ one_more (counts_of self.old) reason }
    {
        match reason {
            Reason::AnotherPort => self.another_port += 1,
            Reason::OtherLink(link) => self.other_links[usize::from(link)] += 1,
            Reason::NotIp => self.not_ip += 1,
            Reason::NotUdp => self.not_udp += 1,
        }
    }

    /// The reasons that there were, each with how often, as `another port 3, not UDP 20`: `another port`,
    /// `link type N`, `not IP` and `not UDP`, in the order of their octets. Empty where no record was passed
    /// over.
    pub fn words(&self, alloc: Global) -> Result<String, AllocError>
        ensures { IfOk result (λ text. IsPassedWords (counts_of self.now) (string_bytes text)) }
    {
        let mut parts: Vec<String> = Vec::new(alloc);
        push_part(alloc, &mut parts, "another port", self.another_port)?;
        push_links(alloc, &mut parts, &self.other_links)?;
        push_part(alloc, &mut parts, "not IP", self.not_ip)?;
        push_part(alloc, &mut parts, "not UDP", self.not_udp)?;
        parts.sort()?;
        parts.join(alloc, ", ")
    }
}

/// The word for a link whose frames aren't known.
fn link_word(alloc: Global, link: usize) -> Result<String, AllocError>
    ensures { IfOk result (λ text. string_bytes text ≡ link_word link) }
{
    format!(in alloc; "link type {link}")
}

/// Adds a reason and how often it was met, where it was.
fn push_part(
    alloc: Global,
    parts: &mut Vec<String>,
    word: &str,
    count: u64,
) -> Result<(), AllocError>
    ensures { OnOk result
        (map string_bytes parts.new.items
        ≡ map string_bytes parts.old.items ++ count_part word.now count) }
{
    if count == 0 {
        return Ok(());
    }
    let part = format!(in alloc; "{word} {count}")?;
    parts.push(part)?;
    Ok(())
}

/// Adds a type of a link and how often it was met, where it was.
fn push_link(
    alloc: Global,
    parts: &mut Vec<String>,
    link: usize,
    count: u64,
) -> Result<(), AllocError>
    ensures { OnOk result
        (map string_bytes parts.new.items
        ≡ map string_bytes parts.old.items ++ count_part (link_word link) count) }
{
    if count == 0 {
        return Ok(());
    }
    let word = link_word(alloc, link)?;
    push_part(alloc, parts, &word, count)
}

/// Adds the types of links that were met, in the order of their numbers.
fn push_links(alloc: Global, parts: &mut Vec<String>, counts: &[u64]) -> Result<(), AllocError>
    ensures { OnOk result
        (map string_bytes parts.new.items
        ≡ map string_bytes parts.old.items ++ link_parts 0 counts.now) }
{
    for link in 0..counts.len() {
        push_link(alloc, parts, link, counts[link])?;
    }
    Ok(())
}
