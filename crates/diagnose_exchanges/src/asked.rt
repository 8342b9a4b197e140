//! By what an answer is known to be that of a request.

ghost use Rattle.std.specs.Prelude.{◌≡◌};
ghost use Rattle.diagnose_exchanges.specs.Routes.{back_if_known};

use capture_files::Route;

/// The way of a request, from whom and to whom, if that is known, and its msgID. An answer has the same msgID, and is
/// the other way (RFC 3412, section 7.2, step 10).
#[derive(Clone, Copy, Debug, PartialEq, Eq, Hash, Drop)]
pub struct Asked {
    pub route: Option<Route>,
    pub id: u32,
}

impl Asked {
    /// What a request with this msgID asked, that went this way.
    pub fn by_request(route: Option<Route>, id: u32) -> Asked
        ensures route { result.route ≡ route }
        ensures id { result.id ≡ id }
    {
        Asked { route, id }
    }

    /// What an answer with this msgID, that came this way, was asked.
    pub fn by_answer(route: Option<Route>, id: u32) -> Asked
        ensures route { result.route ≡ back_if_known route }
        ensures id { result.id ≡ id }
    {
        let back = match route {
            Some(route) => Some(route.back()),
            None => None,
        };
        Asked { route: back, id }
    }
}
