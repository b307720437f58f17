// The text of an axiom as a `String`, by the printer of axioms.
ghost use Rattle.std.specs.Prelude.{◌≡◌, [], length, Some, None, string_bytes, IfOk};
ghost use Rattle.dl_terms.specs.Occurring.{axiom_names};
ghost use Rattle.dl_text.specs.AxiomText.{axiom_text};
ghost use Rattle.dl_text.specs.NameText.{AreBelow};

use dl_io::{Failed, Sink};
use dl_names::Names;
use dl_terms::{Axiom, NoMemory};
use dl_text::print_axiom;
use std::alloc::Global;

/// A sink that gathers a text. A write fails where memory is refused, or where its piece is no UTF-8.
#[derive(Drop)]
struct TextSink {
    text: String,
    faults: u64,
}

impl TextSink {
    /// A sink that got nothing.
    fn new(alloc: Global) -> TextSink
        ensures { string_bytes result.text ≡ [] }
    {
        TextSink {
            text: String::new(alloc),
            faults: 0,
        }
    }
}

impl Sink for TextSink {
    ghost got = { λ sink. Some (string_bytes sink.text) };

    ghost faults = { λ sink. sink.faults };

    ghost lent = { λ _. None };

    fn write(&mut self, piece: &[u8]) -> Result<usize, Failed> {
        if let Ok(text) = std::str::from_utf8(piece) {
            if self.text.push_str(text).is_ok() {
                return Ok(piece.len());
            }
        }
        self.faults = self.faults.saturating_add(1);
        Err(Failed)
    }
}

/// The text of an axiom in the functional-style syntax, with its names in full. The numbers of its names are below
/// `names.len()`.
pub fn axiom_text(alloc: Global, stated: &Axiom, names: &Names) -> Result<String, NoMemory>
    requires { AreBelow (length names.now) (axiom_names stated.now) }
    ensures { IfOk result (λ text. string_bytes text ≡ axiom_text names.now stated.now) }
{
    let mut sink = TextSink::new(alloc);
    if print_axiom(&mut sink, stated, names).is_err() {
        return Err(NoMemory);
    }
    Ok(sink.text)
}
