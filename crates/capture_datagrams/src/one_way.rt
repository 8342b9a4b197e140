//! Datagrams that go one way.

ghost use Rattle.std.specs.Prelude.{◌≡◌, ◌⊎◌, [], false};

use capture_files::{Printed, Printer, Route, route_of};
use std::alloc::{AllocError, Global};

/// Prints what another printer makes of the datagrams from one port, and nothing of the others. Where no port is given,
/// or nobody is known to have sent a datagram, it prints all.
#[derive(Drop)]
pub struct OneWay<P> {
    printer: P,
    from: Option<u16>,
    route: Option<Route>,
}

impl<P> OneWay<P> {
    /// Prints what this printer makes of the datagrams from this port, or of all.
    pub fn new(printer: P, from: Option<u16>) -> OneWay<P>
        ensures printer { result.printer ≡ printer }
        ensures from { result.from ≡ from }
    {
        OneWay {
            printer,
            from,
            route: None,
        }
    }

    /// The printer.
    pub fn into_printer(self) -> P
        ensures { result ≡ self.printer }
    {
        self.printer
    }

    /// The next datagram is of another port.
    fn leaves_out(&self) -> bool {
        match (self.from, self.route) {
            (Some(port), Some(route)) => route.from.port() != port,
            _ => false,
        }
    }
}

impl<P: Printer> Printer for OneWay<P> {
    ghost prints = { λ one number moment datagram text refused.
        P.prints one.printer number moment datagram text refused
        ⊎ ((text ≡ []) × (refused ≡ false)) };

    fn see(&mut self, link: u16, micros: u32, packet: &[u8]) {
        self.route = route_of(link, packet);
        self.printer.see(link, micros, packet);
    }

    fn print(
        &mut self,
        alloc: Global,
        number: u64,
        moment: u64,
        datagram: &[u8],
    ) -> Result<Printed, AllocError> {
        if self.leaves_out() {
            return Ok(Printed {
                text: Vec::new(alloc),
                refused: false,
            });
        }
        self.printer.print(alloc, number, moment, datagram)
    }
}
