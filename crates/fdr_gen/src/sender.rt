//! What the words of a parameter have in common.

ghost use Rattle.std.specs.Prelude.{◌≡◌, IfOk, map};
ghost use Rattle.fdr_gen.specs.Trace.{sender_of, bus_word_of};

use fdr_bus::{field, is_odd};
use fdr_table::{NoMemory, Param};
use std::alloc::Global;
use std::marker::Model;

/// The bit of a bus word that makes its parity odd.
const PARITY_BIT: u32 = 0x8000_0000;

/// The bus, the label and the SDI of a parameter's words.
#[derive(Drop)]
pub(crate) struct Sender {
    bus: u8,
    label: u8,
    sdi: u8,
}

impl Model for Sender {
    ghost use Rattle.std.specs.Prelude.{◌<◌};
    ghost use Rattle.fdr_gen.specs.Trace.{Sender};

    ghost Value = { Sender };

    ghost view = { λ s. record { bus = s.bus; label = s.label; sdi = s.sdi } };

    ghost invariant = { λ s. s.sdi < 4 };
}

impl Sender {
    /// The sender of a parameter's words. Its SDI is 0 where the parameter asks for none.
    fn of(param: &Param) -> Sender
        ensures { result ≡ sender_of param.now }
    {
        Sender {
            bus: param.bus,
            label: param.label,
            sdi: param.sdi.unwrap_or(0),
        }
    }

    /// The bus that it sends on.
    pub(crate) fn bus(&self) -> u8
        ensures { result ≡ self.now.bus }
    {
        self.bus
    }

    /// The word of a drawn number.
    pub(crate) fn word(&self, number: u32) -> u32
        ensures { result ≡ bus_word_of self.now number }
    {
        let label = u32::from(self.label.reverse_bits());
        let fields = label + (u32::from(self.sdi) << 8) + (field(number, 11, 21) << 10);
        if is_odd(fields) {
            fields
        } else {
            fields + PARITY_BIT
        }
    }
}

/// The senders of the parameters, in their order.
pub(crate) fn senders_of(alloc: Global, params: &[Param]) -> Result<Vec<Sender>, NoMemory>
    ensures { IfOk result (λ v. v.items ≡ map sender_of params.now) }
{
    let mut senders = Vec::new(alloc);
    for param in params {
        if senders.push(Sender::of(param)).is_err() {
            return Err(NoMemory);
        }
    }
    Ok(senders)
}
