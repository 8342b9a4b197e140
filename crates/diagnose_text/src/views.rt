//! What the views of the configuration say of the variables that an answer refuses, or says it hasn't.

use crate::facts::{First, Says, What};
use snmp_ber::Level;
use snmp_message::USER_BASED;
use snmp_msg::{Pdu, PduType, Syntax};
use snmpsec_access::Explainer;
use snmpsec_config::ConfigTable;
use std::alloc::{AllocError, Global};
use vacm_core::{Access, Asking, Explained, Name, ViewType};

/// How many variables of an answer are looked at.
const VARIABLES: usize = 8;

/// The error-statuses noAccess and authorizationError (RFC 3416, section 3).
const NO_ACCESS: i32 = 6;

const AUTHORIZATION_ERROR: i32 = 16;

/// A row of the configuration.
#[derive(Clone, Copy, Drop)]
pub(crate) struct RowPlace {
    /// Its position in its table, from 0.
    pub(crate) position: usize,
    /// The line in which it begins, from 1, if that is known.
    pub(crate) line: Option<usize>,
}

/// What the views say of a variable: the answer, and what decides on it, as far as it comes.
#[derive(Drop)]
pub(crate) struct Viewed {
    pub(crate) name: String,
    pub(crate) answer: Access,
    pub(crate) context: Option<RowPlace>,
    /// The row, and the name of the group.
    pub(crate) group: Option<(RowPlace, Name)>,
    pub(crate) access: Option<RowPlace>,
    pub(crate) view: Option<Name>,
    pub(crate) family: Option<RowPlace>,
}

impl Viewed {
    /// What was explained of the variable of this name.
    fn of(explainer: &Explainer, name: String, explained: Explained) -> Viewed {
        let place = |table: ConfigTable, position: usize| RowPlace {
            position,
            line: explainer.line_of(table, position),
        };
        let mut viewed = Viewed {
            name,
            answer: explained.answer,
            context: None,
            group: None,
            access: None,
            view: None,
            family: None,
        };
        let Some(context) = explained.context else {
            return viewed;
        };
        viewed.context = Some(place(ConfigTable::Context, context.position));
        let Some(group) = context.group else {
            return viewed;
        };
        viewed.group = Some((place(ConfigTable::Group, group.position), group.name));
        let Some(access) = group.access else {
            return viewed;
        };
        viewed.access = Some(place(ConfigTable::Access, access.position));
        let Some(view) = access.view else {
            return viewed;
        };
        viewed.view = Some(view.name);
        viewed.family = view
            .family
            .map(|position| place(ConfigTable::Family, position));
        viewed
    }
}

/// The view that a request of this type asks of an agent, if it asks one (RFC 3413, section 3.2).
fn view_asked(what: &What) -> Option<ViewType> {
    let What::Pdu(pdu) = what else {
        return None;
    };
    match pdu.kind? {
        PduType::GetRequest | PduType::GetNextRequest | PduType::GetBulkRequest => {
            Some(ViewType::Read)
        }
        PduType::SetRequest => Some(ViewType::Write),
        _ => None,
    }
}

/// Whether the variable at this place of an answer, from 1, which has a value with this tag, is refused by what the
/// answer says, or said not to be there. An error that names no variable refuses all.
fn is_asked(says: &Says, place: i32, tag: u8) -> bool {
    match says {
        Says::Error(NO_ACCESS | AUTHORIZATION_ERROR, at) => *at == place || *at == 0,
        Says::Values(..) => matches!(Syntax::of(tag), Some(Syntax::NoSuchObject)),
        _ => false,
    }
}

/// What the views say of the variables of an answer in this context to the request, if the configuration has rows of
/// access.
pub(crate) fn views_of(
    alloc: Global,
    explainer: &Explainer,
    first: &First,
    says: &Says,
    context: &[u8],
    pdu: &Pdu<'_>,
) -> Result<Vec<Viewed>, AllocError> {
    let mut views = Vec::new(alloc);
    let Some(view) = view_asked(&first.what) else {
        return Ok(views);
    };
    let level = match &first.sender {
        Some(sender) => sender.level.unwrap_or(Level::NoAuthNoPriv),
        None => Level::NoAuthNoPriv,
    };
    for (place, binding) in (1..).zip(pdu.bindings()) {
        if views.len() < VARIABLES && is_asked(says, place, binding.tag) {
            let asking = Asking {
                model: USER_BASED,
                name: first.user(),
                level,
                context,
                view,
                variable: binding.name.as_slice(),
            };
            let explained = explainer.explain(&asking);
            let name = &binding.name;
            let name = format!(in alloc; "{name}")?;
            views.push(Viewed::of(explainer, name, explained))?;
        }
    }
    Ok(views)
}
