//! Laws of one Inform, over any run of steps. Each function does nothing: its contract is the law.

ghost use Rattle.std.specs.Prelude.{◌≡◌, ◌≤◌, ◌+◌, ◌-◌, ◌^◌, ◌++◌, ◌∷◌, ℕ, List, IsSome, min};
ghost use Rattle.snmp_ber.specs.declared.level.Level.{Level};
ghost use Rattle.snmp_requests.specs.DeviceRequestRuns.{AreUnauthenticated, IsHeardRun};
ghost use Rattle.snmp_requests.specs.DeviceRequests.{Begins, first_message};
ghost use Rattle.snmp_requests.specs.declared.device_request.Known.{Known};
ghost use Rattle.snmp_requests.specs.declared.device_request.SentMessage.{SentMessage};
ghost use Rattle.snmp_forward.specs.ExchangeRuns.{AreWaits, ExchangeStep, IsExchangeRun, heard_in, sends, times_tried};
ghost use Rattle.snmp_forward.specs.declared.exchange.InformExchange.{InformExchange};
ghost use Rattle.snmp_forward.specs.declared.exchange.InformLimits.{InformLimits};

use snmp_requests::no_unauthenticated_report_ends_a_request;

/// Whatever is heard of a receiver: it is sent each message, and so the Inform itself, at most as often as it may be
/// tried (`tries`). As long as nothing is heard of it by which another message is to be sent, it is sent the next one
/// no earlier than its time for an answer is over (`apart`; moments end at 18446744073709551615).
pub fn an_inform_is_sent_within_its_tries()
    ensures tries { (limits : InformLimits) (steps : List ExchangeStep) (first last : InformExchange)
        (m : SentMessage) → first.times ≡ 0 → IsExchangeRun limits first steps last
        → times_tried m steps ≤ limits.tries }
    ensures apart { (limits : InformLimits) (before waits : List ExchangeStep) (first last : InformExchange)
        (m n : SentMessage) (then now : ℕ) → AreWaits waits
        → IsExchangeRun limits first (sends now n ∷ (waits ++ sends then m ∷ before)) last
        → min (then + limits.again) (2 ^ 64 - 1) ≤ now }
{}

/// An Inform is asked as a request is: what is heard of its receiver leads from one `DeviceRequest` to the next, and
/// what is sent changes none (`heard`). So the laws of `snmp_requests` hold of it, whatever it is sent. One of them is
/// that as long as all that is heard are Reports without authentication, the Inform is waited for (`waits`).
pub fn an_inform_is_asked_as_a_request()
    ensures heard { (limits : InformLimits) (steps : List ExchangeStep) (first last : InformExchange)
        → IsExchangeRun limits first steps last
        → IsHeardRun first.request (heard_in steps) last.request }
    ensures waits { (limits : InformLimits) (level : Level) (k : Known) (steps : List ExchangeStep)
        (first last : InformExchange) → Begins level (first_message level k) first.request
        → AreUnauthenticated (heard_in steps) → IsExchangeRun limits first steps last
        → IsSome last.request.sent }
{
    no_unauthenticated_report_ends_a_request();
}
