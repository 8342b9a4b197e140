//! How a datagram is represented in what is written.

ghost use Rattle.std.specs.Prelude.{Bool, ℕ, List, IfOk};
ghost use Rattle.capture_files.specs.Datagrams.{PrintsAs, PrintsLine};

use crate::log_lines::log_line;
use std::alloc::{AllocError, Global};

/// What is printed of a datagram.
#[derive(Debug, PartialEq, Eq, Drop)]
pub struct Printed {
    /// The octets of it.
    pub text: Vec<u8>,
    /// Whether they tell why the datagram is refused.
    pub refused: bool,
}

/// What makes a text of each datagram.
pub trait Printer {
    /// The datagram with this number, at this moment, with these octets, is printed as this text, which tells
    /// a refusal or doesn't.
    ghost prints: { Self → ℕ → ℕ → List ℕ → List ℕ → Bool → Type 0 };

    /// Shows the packet of the datagram that is printed next, before `print`: the type of its link, a number of
    /// LINKTYPE, and when it was captured, in microseconds after the whole second. The text is the same without it.
    fn see(&mut self, _link: u16, _micros: u32, _packet: &[u8])
        ensures { PrintsAs (prints self.new) (prints self.old) }
    {}

    /// What is printed of a datagram with this number, that was received at this moment, in seconds. The
    /// error is out of memory.
    fn print(
        &mut self,
        alloc: Global,
        number: u64,
        moment: u64,
        datagram: &[u8],
    ) -> Result<Printed, AllocError>
        ensures ok { IfOk result
            (λ printed. prints self.old number moment datagram.now
            printed.text.items printed.refused) }
        ensures keeps { PrintsAs (prints self.new) (prints self.old) };
}

/// A line of a log for each datagram, `MOMENT HEX`.
#[derive(Clone, Copy, Debug)]
pub struct Lines;

impl Printer for Lines {
    ghost prints = { λ lines. PrintsLine };

    fn print(
        &mut self,
        alloc: Global,
        _number: u64,
        moment: u64,
        datagram: &[u8],
    ) -> Result<Printed, AllocError> {
        let line = log_line(alloc, moment, datagram)?;
        Ok(Printed {
            text: line.into_bytes(),
            refused: false,
        })
    }
}
