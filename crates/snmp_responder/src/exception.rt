//! Exceptions, which stand where a value would (RFC 3416, section 3).

ghost use Rattle.std.specs.Prelude.{◌≡◌};
ghost use Rattle.snmp_msg.specs.Variables.{variable_of};
ghost use Rattle.snmp_msg.specs.declared.value.Syntax.TheVariants.{NoSuchObject, EndOfMibView};
ghost use Rattle.snmp_responder.specs.Instrumentation.{IsException};

use snmp_ber::Oid;
use snmp_msg::Binding;

/// The tag of noSuchObject.
const NO_SUCH_OBJECT: u8 = 0x80;

/// The tag of endOfMibView.
const END_OF_MIB_VIEW: u8 = 0x82;

/// Returns the same name.
fn name_of(name: &Oid) -> Oid
    ensures { result ≡ name.now }
{
    match Oid::of(name.as_slice()) {
        Some(name) => name,
        None => unreachable!(),
    }
}

/// Returns the name with noSuchObject. It takes no memory.
pub fn no_such_object(name: &Oid) -> Binding<'static>
    ensures { IsException NoSuchObject name.now (variable_of result) }
{
    Binding {
        name: name_of(name),
        tag: NO_SUCH_OBJECT,
        content: &[],
    }
}

/// Returns the name with endOfMibView. It takes no memory.
pub fn end_of_mib_view(name: &Oid) -> Binding<'static>
    ensures { IsException EndOfMibView name.now (variable_of result) }
{
    Binding {
        name: name_of(name),
        tag: END_OF_MIB_VIEW,
        content: &[],
    }
}
