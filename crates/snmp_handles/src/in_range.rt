//! What callers hand in as plain numbers and octets, once each number and each length is in its range.

ghost use Rattle.std.specs.Prelude.{◌≡◌, ◌<◌, ◌≤◌, ◌⊎◌, ◌↔◌, IsTrue, MatchOption, Some, length, pos};
ghost use Rattle.std.specs.Int.{to_be_bytes, w64};
ghost use Rattle.snmp_ber.specs.declared.number.TheConstants.{MAX_INTEGER32};
ghost use Rattle.snmp_msg.specs.PduTypes.{IsPduTag};
ghost use Rattle.snmp_handles.specs.Agents.{AreInRange};

use crate::agent::NoticeTo;
use crate::manager::AskedOf;
use crate::numbers::level_of;
use engine_clock::EngineId;
use snmp_agent::Response;
use snmp_ber::{Level, MAX_INTEGER32};

/// What a Response says besides what it copies.
#[derive(Clone, Copy)]
pub(crate) struct Reply<'a> {
    /// error-status.
    pub(crate) status: u32,
    /// error-index.
    pub(crate) index: u32,
    /// The octets of its bindings, one after another.
    pub(crate) list: &'a [u8],
    pub(crate) salt: [u8; 8],
    pub(crate) ghost status_fits: { status ≤ MAX_INTEGER32 },
    pub(crate) ghost index_fits: { index ≤ MAX_INTEGER32 },
}

impl<'a> Reply<'a> {
    /// None where a number is above 2147483647.
    pub(crate) fn of(status: u32, index: u32, list: &'a [u8], salt: u64) -> Option<Reply<'a>>
        ensures { MatchOption result ((MAX_INTEGER32 < status) ⊎ (MAX_INTEGER32 < index))
            (λ reply. AreInRange status index × (reply.status ≡ status) × (reply.index ≡ index)
            × (reply.list.now ≡ list.now) × (reply.salt ≡ to_be_bytes w64 salt)) }
    {
        if status > MAX_INTEGER32 || index > MAX_INTEGER32 {
            return None;
        }
        Some(Reply {
            status,
            index,
            list,
            salt: salt.to_be_bytes(),
        })
    }

    /// The same besides its bindings, in at most so many octets.
    pub(crate) fn within(&self, limit: u32) -> Response
        ensures { result ≡ record {
          status = pos self.now.status;
          index = pos self.now.index;
          salt = self.now.salt;
          limit = limit;
        } }
    {
        Response {
            status: self.status as i32,
            index: self.index as i32,
            salt: self.salt,
            limit: limit as usize,
        }
    }
}

/// A notification's recipient, and what it says besides its bindings.
#[derive(Clone, Copy)]
pub(crate) struct NoticeInRange<'a> {
    pub(crate) to: NoticeTo<'a>,
    pub(crate) level: Level,
    pub(crate) ghost id_fits: { to.id ≤ MAX_INTEGER32 },
    pub(crate) ghost request_fits: { to.request_id ≤ MAX_INTEGER32 },
    pub(crate) ghost user_fits: { length to.user.now ≤ 32 },
}

impl<'a> NoticeInRange<'a> {
    ghost use Rattle.snmp_handles.specs.Numbers as spec;
    ghost use Rattle.snmp_handles.specs.Agents.{IsNoticeOutOfRange};
    ghost use Rattle.snmp_handles.specs.Between.{notice_of};

    /// None where a number or the name is out of its range.
    pub(crate) fn of(to: &NoticeTo<'a>) -> Option<NoticeInRange<'a>>
        ensures { MatchOption result (IsNoticeOutOfRange (notice_of to.now))
            (λ n. (IsNoticeOutOfRange (notice_of to.now) → ⊥) × (n.to ≡ to.now)
            × (spec.level_of to.now.level ≡ Some n.level)) }
    {
        let Some(level) = level_of(to.level) else {
            return None;
        };
        if to.id > MAX_INTEGER32 || to.request_id > MAX_INTEGER32 || to.user.len() > 32 {
            return None;
        }
        Some(NoticeInRange { to: *to, level })
    }
}

/// Whether the tag is of a PDU.
pub(crate) fn is_pdu_tag(tag: u32) -> bool
    ensures { IsTrue result ↔ IsPduTag tag }
{
    match u8::try_from(tag) {
        Ok(tag) => snmp_msg::is_pdu_tag(tag),
        Err(_) => false,
    }
}

/// What a request asks, and of whom.
#[derive(Drop)]
pub(crate) struct AskedInRange<'a> {
    pub(crate) of: AskedOf<'a>,
    pub(crate) engine: EngineId,
    pub(crate) level: Level,
    pub(crate) ghost engine_is: { engine ≡ of.engine.now },
    pub(crate) ghost id_fits: { of.id ≤ MAX_INTEGER32 },
    pub(crate) ghost user_fits: { length of.user.now ≤ 32 },
    pub(crate) ghost tag_fits: { IsPduTag of.tag },
    pub(crate) ghost request_fits: { of.request_id ≤ MAX_INTEGER32 },
    pub(crate) ghost second_fits: { of.second ≤ MAX_INTEGER32 },
    pub(crate) ghost third_fits: { of.third ≤ MAX_INTEGER32 },
}

impl<'a> AskedInRange<'a> {
    ghost use Rattle.snmp_handles.specs.Numbers as spec;
    ghost use Rattle.snmp_handles.specs.Managers.{IsOutOfRange};
    ghost use Rattle.snmp_handles.specs.Asked.{asking_of};

    /// None where a number, the name or the engine ID is out of its range.
    pub(crate) fn of(of: &AskedOf<'a>) -> Option<AskedInRange<'a>>
        ensures { MatchOption result (IsOutOfRange (asking_of of.now))
            (λ a. (IsOutOfRange (asking_of of.now) → ⊥) × (a.of ≡ of.now)
            × (spec.level_of of.now.level ≡ Some a.level)) }
    {
        let (Some(level), Some(engine)) = (level_of(of.level), EngineId::of(of.engine)) else {
            return None;
        };
        if !is_pdu_tag(of.tag) || of.user.len() > 32 || of.id > MAX_INTEGER32 {
            return None;
        }
        if of.request_id > MAX_INTEGER32 || of.second > MAX_INTEGER32 || of.third > MAX_INTEGER32 {
            return None;
        }
        Some(AskedInRange {
            of: *of,
            engine,
            level,
        })
    }
}
