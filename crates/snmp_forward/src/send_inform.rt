//! How a message for an Inform goes out.

ghost use Rattle.std.specs.Prelude.{◌≡◌, ◌≢◌, ◌≤◌, ◌<◌, IfOk, List, MatchOption};
ghost use Rattle.std.specs.Prelude.{OnErr, OnOk, length};
ghost use Rattle.std.specs.FinMap as map;
ghost use Rattle.std.specs.List.{HoldsAt};
ghost use Rattle.snmp_ber.specs.declared.number.TheConstants.{MAX_INTEGER32};
ghost use Rattle.snmp_requests.specs.Outstanding.{IsFreeToken, message_id_of};
ghost use Rattle.snmp_requests.specs.declared.outstanding.TheConstants.{REQUESTS_LIMIT};
ghost use Rattle.snmp_forward.specs.Exchange.{MayBeTried};
ghost use Rattle.snmp_forward.specs.InformHistory.{InformHappening};
ghost use Rattle.snmp_forward.specs.InformStanding.{AreAsBefore, HasNoRoom};
ghost use Rattle.snmp_forward.specs.InformStanding.{InformSendHappens, InformsStand};
ghost use Rattle.snmp_forward.specs.InformStanding.{IsAt};
ghost use Rattle.snmp_forward.specs.InformStanding.{IsSameElse};
ghost use Rattle.snmp_forward.specs.InformStanding.{WaitsForAnswer};
ghost use Rattle.snmp_forward.specs.WaitingInforms.{IsAddressed};

use crate::asking::AskedWith;
use crate::informs::{InformSent, Informs, forget};
use crate::sealing::Sealing;
use crate::waiting_inform::WaitingInform;
use snmp_manager::Pending;
use snmp_requests::{SentMessage, message_id};
use std::alloc::AllocError;

impl Informs {
    /// Returns the token of the message that is sent next. None: as many wait for answers as may, or no token is left.
    fn token(&self, first_id: u32) -> Option<u64>
        requires { first_id ≤ MAX_INTEGER32 }
        ensures { MatchOption result (HasNoRoom self.now.requests first_id)
            (λ token. (map.len self.now.requests.requests < REQUESTS_LIMIT) × IsFreeToken self.now.requests token) }
    {
        if self.requests.is_full() {
            return None;
        }
        self.requests.next_token(first_id)
    }

    /// Sends this message for the Inform at this place.
    pub(crate) fn send(
        &mut self,
        place: usize,
        message: SentMessage,
        now: u64,
        salt: [u8; 8],
        first_id: u32,
    ) -> Result<InformSent, AllocError>
        requires first { first_id ≤ MAX_INTEGER32 }
        requires place { place < length self.old.list.items }
        requires may { HoldsAt (λ w. MayBeTried self.old.limits w.exchange message) self.old.list.items place }
        ensures happens { IfOk result (λ sent. (before : List InformHappening) (w : WaitingInform)
            → InformsStand before self.old → IsAt self.old place w → w.exchange.due ≤ now
            → InformSendHappens self.old before now salt first_id sent self.new) }
        ensures something { IfOk result (λ sent. sent ≢ InformSent.Nothing) }
        ensures same { IsSameElse self.old self.new }
        ensures err { OnErr result (AreAsBefore self.old self.new) }
    {
        let Some(token) = self.token(first_id) else {
            return Ok(self.give_up(place));
        };
        let by = Sealing {
            seconds: now / 1000,
            id: message_id(token),
            salt,
        };
        let waiting = &self.list[place];
        let (number, receiver) = (waiting.number, waiting.inform.receiver);
        match waiting.write(self.alloc, &mut self.manager, &self.engine, message, &by)? {
            AskedWith::Sends { datagram, pending } => {
                self.wait_for(place, message, now, token, pending)?;
                Ok(InformSent::ToReceiver {
                    number,
                    receiver,
                    message,
                    datagram,
                })
            }
            AskedWith::Refused(why) => {
                self.remove(place);
                Ok(InformSent::Unsent {
                    number,
                    receiver,
                    why,
                })
            }
        }
    }

    /// An answer is waited for to the message that was sent for the Inform at this place, and no longer to the one
    /// before it.
    fn wait_for(
        &mut self,
        place: usize,
        message: SentMessage,
        now: u64,
        token: u64,
        pending: Pending,
    ) -> Result<(), AllocError>
        requires place { place < length self.old.list.items }
        requires may { HoldsAt (λ w. MayBeTried self.old.limits w.exchange message) self.old.list.items place }
        requires room { map.len self.old.requests.requests < REQUESTS_LIMIT }
        requires token { IsFreeToken self.old.requests token }
        requires id { pending.id ≡ message_id_of token }
        requires addressed { HoldsAt (λ w. IsAddressed w.engine w.inform message pending.engine.items
            pending.user.items) self.old.list.items place }
        ensures ok { OnOk result (WaitsForAnswer self.old place now token pending self.new) }
        ensures same { IsSameElse self.old self.new }
        ensures err { OnErr result (AreAsBefore self.old self.new) }
    {
        let waiting = &mut self.list[place];
        let (engine, user) = waiting.addressee(message);
        self.requests.add(token, pending, engine, user)?;
        forget(&mut self.requests, waiting.token);
        waiting.mark_sent(&self.limits, now, token);
        Ok(())
    }
}
