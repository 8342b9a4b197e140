//! Why a configuration is refused, for callers in other languages, and an agent that has another one.

ghost use Rattle.std.specs.Prelude.{◌≡◌, IfOk};
ghost use Rattle.snmp_handles.specs.Agents.{Reconfigures};
ghost use Rattle.snmp_handles.specs.Configurations.{TellsConfig, IsTold, numbers_of as numbers_by, row_numbers};
ghost use Rattle.snmp_handles.specs.Configurations.{table_number as table_by, key_number as key_by};
ghost use Rattle.snmp_handles.specs.Configurations.{wrong_number as wrong_by};

use crate::agent::AgentHandle;
use crate::fault::CallFault;
use crate::parts::copy_to;
use snmp_msg::Refusal;
use snmpsec_config::{
    AccessConfig, Config, ConfigFault, ConfigKey, ConfigTable, KeyFault, LoadFault,
};
use std::alloc::{AllocError, Global};

/// How many numbers tell a fault.
const NUMBERS: usize = 4;

/// Tells why this text is refused as a configuration, as `snmpsec check-config` does: Ok where it isn't, and
/// no octet is written then.
///
/// Where it is refused, the error is BadConfiguration. Then the first four of the numbers are the table (0
/// none, 1 user, 2 context, 3 group, 4 access, 5 family), the row's position in it from 0, the fault (1 no
/// TOML, 2 a key at the top, 3 a key that the table doesn't list, 4 a key that is missing, 5 a value that
/// isn't what is wanted, 6 BadUser, 7 ShortPassword, 8 DuplicateUser, 9 BadRow, 10 Duplicate) and the key
/// that is missing or has that value (0 none, 1 name, 2 auth, 3 auth-password, 4 priv-password, 5 model, 6
/// group, 7 prefix, 8 level, 9 match, 10 read, 11 write, 12 notify, 13 view, 14 subtree, 15 include, 16
/// mask). The buffer has two lines: the refusal, and what is wrong and what is wanted.
///
/// The other errors are BadArgument, where there are fewer than four numbers; out of memory, which writes
/// nothing; and ShortBuffer, where the text is longer than the buffer: then it writes the numbers, and how
/// many octets the text has.
pub fn tell_config(
    alloc: Global,
    config: &[u8],
    numbers: &mut [usize],
    out: &mut [u8],
    written: &mut usize,
) -> Result<(), CallFault>
    ensures { TellsConfig config.now numbers.old numbers.new out.old
        out.new written.old written.new result }
{
    if numbers.len() < NUMBERS {
        return Err(CallFault::BadArgument);
    }
    let fault = match AccessConfig::read(alloc, config) {
        Ok(_) => {
            *written = 0;
            return Ok(());
        }
        Err(fault) => fault,
    };
    if fault.is_memory() {
        return Err(CallFault::Refused(Refusal::OutOfMemory));
    }
    let Ok(text) = fault_text(alloc, &fault) else {
        return Err(CallFault::Refused(Refusal::OutOfMemory));
    };
    numbers[..NUMBERS].copy_from_slice(&numbers_of(&fault));
    copy_to(&text, out, written)?;
    Err(CallFault::BadConfiguration)
}

/// The two lines that tell a fault.
fn fault_text(alloc: Global, fault: &ConfigFault) -> Result<Vec<u8>, AllocError>
    ensures { IfOk result (λ text. IsTold fault.now text.items) }
{
    let why = fault.why(alloc)?;
    let text = format!(in alloc; "{fault}\n{why}\n")?;
    Ok(text.into_bytes())
}

/// The four numbers of a fault.
fn numbers_of(fault: &ConfigFault) -> [usize; 4]
    ensures { result ≡ numbers_by fault.now }
{
    match fault {
        ConfigFault::Nested { .. } | ConfigFault::Toml { .. } | ConfigFault::OutOfMemory => {
            [0, 0, 1, 0]
        }
        ConfigFault::Top { .. } => [0, 0, 2, 0],
        ConfigFault::BadKey {
            table,
            position,
            fault,
        } => {
            let (number, key) = key_numbers(fault);
            [table_number(*table), *position, number, key]
        }
        ConfigFault::Row {
            table,
            position,
            wrong,
        } => [table_number(*table), *position, wrong_number(*wrong), 0],
    }
}

/// The number of a fault of a row's keys, and that of its key.
fn key_numbers(fault: &KeyFault) -> (usize, usize)
    ensures { result ≡ row_numbers fault.now }
{
    match fault {
        KeyFault::Unlisted { .. } => (3, 0),
        KeyFault::Missing { key } => (4, key_number(*key)),
        KeyFault::Value { key } => (5, key_number(*key)),
    }
}

fn table_number(table: ConfigTable) -> usize
    ensures { result ≡ table_by table }
{
    match table {
        ConfigTable::User => 1,
        ConfigTable::Context => 2,
        ConfigTable::Group => 3,
        ConfigTable::Access => 4,
        ConfigTable::Family => 5,
    }
}

fn key_number(key: ConfigKey) -> usize
    ensures { result ≡ key_by key }
{
    match key {
        ConfigKey::Name => 1,
        ConfigKey::Auth => 2,
        ConfigKey::AuthPassword => 3,
        ConfigKey::PrivPassword => 4,
        ConfigKey::Model => 5,
        ConfigKey::Group => 6,
        ConfigKey::Prefix => 7,
        ConfigKey::Level => 8,
        ConfigKey::Match => 9,
        ConfigKey::Read => 10,
        ConfigKey::Write => 11,
        ConfigKey::Notify => 12,
        ConfigKey::View => 13,
        ConfigKey::Subtree => 14,
        ConfigKey::Include => 15,
        ConfigKey::Mask => 16,
    }
}

fn wrong_number(wrong: LoadFault) -> usize
    ensures { result ≡ wrong_by wrong }
{
    match wrong {
        LoadFault::BadUser => 6,
        LoadFault::ShortPassword => 7,
        LoadFault::DuplicateUser => 8,
        LoadFault::BadRow => 9,
        LoadFault::Duplicate => 10,
    }
}

impl AgentHandle {
    /// Users and view-based access become those of this configuration, in TOML. The engine, its boots, all counters,
    /// what was accepted last and what is to be sent stay.
    ///
    /// The errors are BadConfiguration, or out of memory; nothing changes then.
    pub fn reconfigure(&mut self, config: &[u8]) -> Result<(), CallFault>
        ensures { Reconfigures self.old config.now result self.new }
    {
        match Config::read(self.alloc, config) {
            Ok(config) => {
                self.agent.reconfigure(config.users, config.access);
                Ok(())
            }
            Err(ConfigFault::OutOfMemory) => Err(CallFault::Refused(Refusal::OutOfMemory)),
            Err(_) => Err(CallFault::BadConfiguration),
        }
    }
}
