//! The devices behind a gateway.

ghost use Rattle.std.specs.Prelude.{◌≡◌, ℕ, IfSome, MatchOption, MatchResult};
ghost use Rattle.snmp_gate.specs.Devices.{HaveOwnContexts, IsDeviceOf, IsFirstRepeated, IsUnknownContext};

/// A device behind a gateway. It has no `Debug`, which would print the communities.
#[derive(Drop)]
pub struct Device {
    /// The contextName that names it (RFC 3411, section 3.3.1), of any octets.
    pub context: Vec<u8>,
    /// The community with which it is asked for values, of any octets.
    pub community: Vec<u8>,
    /// The community with which it is asked for a Set. None: it isn't asked for any.
    pub write_community: Option<Vec<u8>>,
    /// The longest datagram that it takes, in octets.
    pub max_size: usize,
    /// How many repetitions it is asked for at once at most. 0 is as 1.
    pub repetitions: usize,
    /// How many names it is asked for at once at most by a GetBulkRequest. 0 is as 1.
    pub names: usize,
    /// For how many requests it is asked at once at most.
    pub at_once: u16,
}

/// Why devices can't be those of one gateway: a contextName has to name one device.
#[derive(Clone, Copy, Debug, PartialEq, Eq)]
pub struct RepeatedContext {
    /// The number of the first device, counted from 0, whose contextName a device before it has.
    pub number: usize,
}

/// The devices behind a gateway. Each has a contextName of its own.
#[derive(Drop)]
pub struct Devices {
    pub(crate) list: Vec<Device>,
}

/// Returns the number of the first device with this contextName, counted from 0.
fn number_of(devices: &[Device], context: &[u8]) -> Option<usize>
    ensures { MatchOption result (IsUnknownContext devices.now context.now) (IsDeviceOf devices.now context.now) }
{
    for (number, device) in devices.iter().enumerate() {
        if device.context.as_slice() == context {
            return Some(number);
        }
    }
    None
}

/// Returns the number of the first device whose contextName a device before it has.
fn first_repeated(devices: &[Device]) -> Option<usize>
    ensures { MatchOption result (HaveOwnContexts devices.now) (IsFirstRepeated devices.now) }
{
    for (number, device) in devices.iter().enumerate() {
        if let Some(_) = number_of(&devices[..number], device.context.as_slice()) {
            return Some(number);
        }
    }
    None
}

impl Devices {
    /// Returns the devices of a gateway, in this order. The error is that a contextName would name two of them. It
    /// takes no memory.
    pub fn new(list: Vec<Device>) -> Result<Devices, RepeatedContext>
        ensures { MatchResult result
            (λ devices. (devices.list.items ≡ list.items) × HaveOwnContexts list.items)
            (λ e. IsFirstRepeated list.items e.number) }
    {
        if let Some(number) = first_repeated(&list) {
            return Err(RepeatedContext { number });
        }
        Ok(Devices { list })
    }

    /// Returns the devices, in their order.
    pub fn list(&self) -> &[Device]
        ensures { result.now ≡ self.now.list.items }
    {
        self.list.as_slice()
    }

    /// Returns the number of the device that this contextName names, counted from 0. None: it names none. No other
    /// device has this contextName (`only`).
    pub fn find(&self, context: &[u8]) -> Option<usize>
        ensures found { MatchOption result (IsUnknownContext self.now.list.items context.now)
            (IsDeviceOf self.now.list.items context.now) }
        ensures only { HaveOwnContexts self.now.list.items
            → IfSome result (λ number. (other : ℕ) → IsDeviceOf self.now.list.items context.now other
            → other ≡ number) }
    {
        number_of(&self.list, context)
    }
}
