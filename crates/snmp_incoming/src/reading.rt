//! The ScopedPDU of a message that passed its digest: opened, and read.

ghost use Rattle.std.specs.Prelude.{◌≡◌, ◌≤◌, false, length, IsOk, IfOk, IfErr, IsSomeAnd};
ghost use Rattle.std.specs.Option.{option_map};
ghost use Rattle.snmp_ber.specs.declared.level.Level.TheVariants.{AuthPriv};
ghost use Rattle.snmp_message.specs.Message.{tag_of};
ghost use Rattle.usm_users.specs.Users.{HasUserAt};
ghost use Rattle.usm_core.specs.Verified.{IsReadAs};
ghost use Rattle.usm_core.specs.Answers.{verified_of};
ghost use Rattle.snmp_incoming.specs.Texts.{text_of, ContextsThere, HasTag, StandsThere};
ghost use Rattle.snmp_incoming.specs.Outcome.{ReadsText};
ghost use Rattle.snmp_incoming.specs.Answers.{answer_of, IsOpening, RefusesText};

use crate::octets::Octets;
use crate::place::PduPlace;
use crate::taken::Taken;
use snmp_ber::Level;
use snmp_msg::{
    Refusal, RefusedAt, ScopedPlace, place_scoped_front, plain_from_data, read_pdu, whole_slice,
};
use std::alloc::AllocError;
use usm_core::{Checked, Users};

/// The octets that begin with the ScopedPDU of a message that `open_auth` gave of this datagram, or None
/// where they can't be decrypted, since msgPrivacyParameters don't have the 8 octets of a salt (RFC 3826,
/// section 3.2.1).
///
/// Memory is taken at authPriv alone, to decrypt; the error is want of it.
pub fn scoped_octets<'a>(
    users: &mut Users,
    datagram: &'a [u8],
    checked: &Checked<'a>,
) -> Result<Option<Octets<'a>>, AllocError>
    requires read { IsReadAs datagram.now (verified_of checked.now) }
    requires private { checked.now.level ≡ AuthPriv
        → HasUserAt users.old.users checked.now.security.user.now AuthPriv
        × (tag_of checked.now.message.body ≡ 4) }
    ensures users { users.new.users ≡ users.old.users }
    ensures no_memory { checked.now.message.header.privacy ≡ false → IsOk result }
    ensures opened { IfOk result
        (λ opening. IsOpening users.old.users datagram.now (verified_of checked.now)
        (option_map text_of opening)) }
{
    plain_from_data();
    match checked.level {
        Level::AuthPriv => match users.open_priv(checked) {
            Ok(plaintext) => Ok(Some(Octets::Owned(plaintext))),
            Err(refused) => match refused.refusal {
                Refusal::DecryptionError => Ok(None),
                _ => Err(AllocError),
            },
        },
        _ => Ok(Some(Octets::Borrowed(&datagram[checked.message.data_at..]))),
    }
}

/// The place of a fault, in octets that begin at the place `base`.
fn place(fault: RefusedAt, base: usize) -> usize {
    fault.at.unwrap_or(0).saturating_add(base)
}

/// What is given on of the message that `open_auth` gave, whose octets `scoped_octets` gave.
///
/// The error is BadScoped (12), exactly where the octets don't begin with a ScopedPDU, or BadPdu (13),
/// exactly where its data isn't a PDU. It takes no memory.
pub fn read_text<'a>(checked: &Checked<'a>, text: Octets<'a>) -> Result<Taken<'a>, RefusedAt>
    ensures { IsSomeAnd (answer_of result)
        (ReadsText (verified_of checked.now) (text_of text.entry)) }
{
    let base = match text {
        Octets::Borrowed(_) => checked.message.data_at,
        Octets::Owned(_) => 0,
    };
    let found = read_place(text.as_slice(), base)?;
    let (tag, contexts, pdu) = found;
    Ok(Taken {
        engine: checked.engine.copy(),
        user: checked.security.user,
        level: checked.level,
        id: checked.message.header.id,
        max_size: checked.message.header.max_size,
        tag,
        text,
        contexts,
        pdu,
    })
}

/// The tag of the PDU of the ScopedPDU that the text begins with, and where the contexts and the PDU stand.
/// Places of faults count from `base`.
fn read_place(text: &[u8], base: usize) -> Result<(u8, ScopedPlace, PduPlace), RefusedAt>
    ensures tag { IfOk result (λ found. HasTag text.now found.0) }
    ensures contexts { IfOk result (λ found. ContextsThere text.now found.1) }
    ensures stands { IfOk result (λ found. StandsThere text.now found.0 found.2) }
    ensures within { IfOk result (λ found. (found.2.list_at ≤ found.2.end)
        × (found.2.end ≤ length text.now)) }
    ensures fault { IfErr result (λ e. RefusesText text.now e.refusal) }
{
    whole_slice();
    let contexts = match place_scoped_front(text) {
        Ok(contexts) => contexts,
        Err(fault) => {
            return Err(RefusedAt {
                refusal: Refusal::BadScoped,
                at: Some(place(fault, base)),
            });
        }
    };
    let scoped = contexts.lent(text);
    let pdu = match read_pdu(scoped.pdu, 0, scoped.pdu.len()) {
        Ok(pdu) => pdu,
        Err(fault) => {
            let base = base.saturating_add(scoped.data_at);
            return Err(RefusedAt {
                refusal: Refusal::BadPdu,
                at: Some(place(fault, base)),
            });
        }
    };
    let place = PduPlace {
        id: pdu.id,
        second: pdu.second,
        third: pdu.third,
        list_at: contexts.end - pdu.list.len(),
        end: contexts.end,
    };
    Ok((pdu.tag, contexts, place))
}
