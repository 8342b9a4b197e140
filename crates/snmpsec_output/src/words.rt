//! The words for views, the status of answers, numbers of security models, and moments.

ghost use Rattle.std.specs.Prelude.{◌≡◌, ℕ, ◌<◌, ◌≤◌, ◌^◌, decimal, IfSome, Some};
ghost use Rattle.snmp_ber.specs.declared.number.TheConstants.{MAX_INTEGER32};
ghost use Rattle.vacm_core.specs.declared.access.ViewType.{ViewType as AView};
ghost use Rattle.snmpsec_access.specs.Words.{view_word};
ghost use Rattle.snmpsec_output.specs.Words.{access_status};

use snmp_ber::{MAX_INTEGER32, read_decimal};
use vacm_core::{Access, ViewType};

/// The view that is asked for.
pub fn view_of(word: &str) -> Option<ViewType>
    ensures found { IfSome result (λ view. word.now ≡ view_word view) }
    ensures all { (view : AView) → word.now ≡ view_word view → result ≡ Some view }
{
    match word {
        "read" => Some(ViewType::Read),
        "write" => Some(ViewType::Write),
        "notify" => Some(ViewType::Notify),
        _ => None,
    }
}

/// The status of the program that gives an answer.
pub fn status_of(access: Access) -> u8
    ensures { result ≡ access_status access }
{
    match access {
        Access::AccessAllowed => 0,
        Access::NotInView
        | Access::NoSuchView
        | Access::NoAccessEntry
        | Access::NoGroupName
        | Access::NoSuchContext => 1,
    }
}

/// The number of a message's security model, 1 to 2,147,483,647, in decimal without sign or leading zeros.
pub fn model_of(word: &str) -> Option<u32>
    ensures found { IfSome result (λ model. (1 ≤ model) × (model ≤ MAX_INTEGER32)
        × (word.now ≡ decimal model)) }
    ensures all { (model : ℕ) → 1 ≤ model → model ≤ MAX_INTEGER32
        → word.now ≡ decimal model → result ≡ Some model }
{
    match read_decimal(word.as_bytes(), u64::from(MAX_INTEGER32))? {
        0 => None,
        model => Some(model as u32),
    }
}

/// A moment, in seconds from a beginning that the caller keeps, in decimal without sign or leading zeros.
pub fn moment_of(word: &str) -> Option<u64>
    ensures found { IfSome result (λ moment. word.now ≡ decimal moment) }
    ensures all { (moment : ℕ) → moment < 2 ^ 64 → word.now ≡ decimal moment
        → result ≡ Some moment }
{
    read_decimal(word.as_bytes(), u64::MAX)
}
