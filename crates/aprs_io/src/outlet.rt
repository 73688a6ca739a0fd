//! A writer with bytes on their way to it.
ghost use Rattle.std.specs.Prelude.{◌≡◌, []};
ghost use Rattle.aprs_io.specs.Device.{Sends};

use crate::held_bytes::{HeldBytes, MAX_HELD};
use crate::{Counted, WriteFault, send};
use std::io::Write;

/// Has a writer on loan, and holds bytes back that it sends a buffer full at a time. What it still
/// holds where it is dropped is lost: call `flush` before.
#[derive(Drop)]
pub struct Outlet<'a, W> {
    w: &'a mut Counted<W>,
    held: HeldBytes,
}

impl<'a, W: Write> Outlet<'a, W> {
    ghost use Rattle.aprs_io.specs.Outlet as Spec;

    /// An outlet that has this writer on loan, and has taken no bytes yet. Takes no memory.
    pub fn new(w: &'a mut Counted<W>) -> Outlet<'a, W>
        ensures same_reference { Spec.writer_loan_of result ≡ w.entry.ghost_name }
        ensures nothing { Spec.HasTaken W.contents w.old result [] }
    {
        Outlet {
            w,
            held: HeldBytes::new(),
        }
    }

    /// Takes `bytes` after those that it took before. It holds them back where there is room;
    /// otherwise it sends what it holds first, and then `bytes` too where they are longer than
    /// all the room. At a fault a prefix of what it held and then of `bytes` went out, the rest
    /// is lost, and it holds nothing. Takes no memory.
    pub fn put(&mut self, bytes: &[u8]) -> Result<(), WriteFault>
        ensures { Spec.Puts W.contents result self.old self.new bytes.now }
    {
        if self.held.len() + bytes.len() > MAX_HELD {
            self.flush()?;
            if bytes.len() > MAX_HELD {
                return send(self.w, bytes);
            }
        }
        self.held.push_all(bytes);
        Ok(())
    }

    /// Sends all bytes that it holds, and then holds none. At a fault a prefix of them went out,
    /// and the others are lost. Takes no memory.
    pub fn flush(&mut self) -> Result<(), WriteFault>
        ensures same_reference { Spec.writer_loan_of self.new ≡ Spec.writer_loan_of self.old }
        ensures sent { Sends W.contents result (Spec.writer_of self.old) (Spec.writer_of self.new)
            (Spec.held_of self.old) }
        ensures empty { Spec.held_of self.new ≡ [] }
    {
        let sent = send(self.w, self.held.as_slice());
        self.held.clear();
        sent
    }
}
