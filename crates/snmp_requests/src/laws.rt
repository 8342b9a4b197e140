//! Laws over any run of steps. Each function does nothing: its contract is the law.

ghost use Rattle.std.specs.Prelude.{◌≡◌, ◌≢◌, ℕ, ◌+◌, ◌≤◌, List, Some, IsSome};
ghost use Rattle.std.specs.FinMap as map;
ghost use Rattle.snmp_ber.specs.declared.level.Level.{Level};
ghost use Rattle.snmp_ber.specs.declared.level.Level.TheVariants.{NoAuthNoPriv};
ghost use Rattle.snmp_requests.specs.DeviceRequestRuns.{AreUnauthenticated, HearStep, IsHeardRun};
ghost use Rattle.snmp_requests.specs.DeviceRequestRuns.{is_sending, times_sent, window_reports};
ghost use Rattle.snmp_requests.specs.DeviceRequests.{Begins, first_message, level_of};
ghost use Rattle.snmp_requests.specs.Outstanding.{Outstanding, message_id_of, none_outstanding};
ghost use Rattle.snmp_requests.specs.RequestRuns.{IsRequestRun, RequestStep, Steps, ended_by, times_asked};
ghost use Rattle.snmp_requests.specs.RequestRuns.{times_ended, times_told, times_waiting};
ghost use Rattle.snmp_requests.specs.declared.outstanding.OutstandingRequest.{OutstandingRequest};
ghost use Rattle.snmp_requests.specs.declared.outstanding.TheConstants.{REQUESTS_LIMIT};
ghost use Rattle.snmp_requests.specs.declared.device_request.DeviceRequest.{DeviceRequest};
ghost use Rattle.snmp_requests.specs.declared.device_request.Known.{Known};
ghost use Rattle.snmp_requests.specs.declared.device_request.SentMessage.TheVariants.{Discovery, Request, TimeRequest};
ghost use Rattle.snmp_requests.specs.declared.device_request.NextStep.TheVariants.{Send};

/// Whatever a manager asks, whatever is accepted and whatever it gives up: a token is given to one request (`asked`),
/// and each request ends once at most, by its Response or given up, and waits until then (`once`). No message is an
/// answer to a request that has ended (`gone`). Each request waits under a msgID of its own, which is its token's
/// (`own`), and at most 65,536 wait (`few`).
pub fn an_answer_is_of_one_request()
    ensures asked { (token : ℕ) (steps : List RequestStep) (last : Outstanding)
        → IsRequestRun none_outstanding steps last → times_asked token steps ≤ 1 }
    ensures once { (token : ℕ) (steps : List RequestStep) (last : Outstanding)
        → IsRequestRun none_outstanding steps last
        → times_ended token steps + times_waiting token last ≡ times_asked token steps }
    ensures gone { (token : ℕ) (before after : List RequestStep) (step : RequestStep)
        (old new last : Outstanding) → IsRequestRun none_outstanding before old
        → Steps old step new → ended_by token step ≡ 1
        → IsRequestRun new after last → times_told token after ≡ 0 }
    ensures own { (id : ℕ) (steps : List RequestStep) (last : Outstanding) (r : OutstandingRequest)
        → IsRequestRun none_outstanding steps last → map.get last.requests id ≡ Some r
        → (r.pending.id ≡ id) × (message_id_of r.token ≡ id) }
    ensures few { (steps : List RequestStep) (last : Outstanding)
        → IsRequestRun none_outstanding steps last
        → map.len last.requests ≤ REQUESTS_LIMIT }
{}

/// Whatever is heard of a device: it is discovered once at most, and asked for its time once at most (`discovered`,
/// `timed`). The request is sent twice at most (`twice`), and again only for a Report with authentication that it was
/// outside of the time window (`again`).
pub fn a_device_is_asked_again_once()
    ensures discovered { (level : Level) (k : Known) (steps : List HearStep) (first last : DeviceRequest)
        → Begins level (first_message level k) first → IsHeardRun first steps last
        → is_sending Discovery (Send (first_message level k)) + times_sent Discovery steps ≤ 1 }
    ensures timed { (level : Level) (k : Known) (steps : List HearStep) (first last : DeviceRequest)
        → Begins level (first_message level k) first → IsHeardRun first steps last
        → is_sending TimeRequest (Send (first_message level k)) + times_sent TimeRequest steps ≤ 1 }
    ensures twice { (level : Level) (k : Known) (steps : List HearStep) (first last : DeviceRequest)
        → Begins level (first_message level k) first → IsHeardRun first steps last
        → is_sending Request (Send (first_message level k)) + times_sent Request steps ≤ 2 }
    ensures again { (level : Level) (k : Known) (steps : List HearStep) (first last : DeviceRequest)
        → Begins level (first_message level k) first → IsHeardRun first steps last
        → is_sending Request (Send (first_message level k)) + times_sent Request steps
        ≤ 1 + window_reports steps }
{}

/// Whatever is heard of a device: the request is sent at the level that was wanted (`request`), and a request for the
/// time only where that level has authentication (`time`).
pub fn no_request_is_sent_at_a_lower_level()
    ensures request { (level : Level) (k : Known) (steps : List HearStep) (first last : DeviceRequest)
        → Begins level (first_message level k) first → IsHeardRun first steps last
        → level_of last.level Request ≡ level }
    ensures time { (level : Level) (k : Known) (steps : List HearStep) (first last : DeviceRequest)
        → Begins level (first_message level k) first → IsHeardRun first steps last
        → last.sent ≡ Some TimeRequest → level ≢ NoAuthNoPriv }
{}

/// As long as all that is heard are Reports without authentication, the request is waited for.
pub fn no_unauthenticated_report_ends_a_request()
    ensures { (level : Level) (k : Known) (steps : List HearStep) (first last : DeviceRequest)
        → Begins level (first_message level k) first → AreUnauthenticated steps
        → IsHeardRun first steps last → IsSome last.sent }
{}
