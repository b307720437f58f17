// Pins: which version a stream reads.
ghost use Rattle.std.specs.Prelude.{◌≡◌, ◌==◌, not, filter, IfOk};
ghost use Rattle.dl_core.specs.Root.{pin_in};
ghost use Rattle.dl_core.specs.Next.{Numbering, next};
ghost use Rattle.dl_event.specs.declared.event.Event.TheVariants as event;

use crate::copies::copied_pins;
use crate::{Pin, Refusal, Reply, Root};
use dl_terms::{List, NoMemory};
use std::alloc::Global;

/// The root after a stream was pinned to the current version, and the reply. Where the stream has a pin, the root is
/// the same. It fails only for want of memory.
pub(crate) fn pinned(alloc: Global, root: &Root, stream: u32) -> Result<(Root, Reply), NoMemory>
    ensures { (numbering : Numbering) → IfOk result (λ after. after ≡ next numbering root.now stream event.Pin) }
{
    let version = root.book().version;
    if let Some(version) = pin_in(root.book().pins.as_slice(), stream) {
        return Ok((root.copy()?, Reply::Refused(Refusal::PinOpen { version })));
    }
    let mut pins = copied_pins(alloc, root.book().pins.as_slice())?;
    pins.push(Pin { stream, version })?;
    let root = root.with_pins(alloc, pins)?;
    Ok((root, Reply::Pinned { version }))
}

/// The root after a stream's pin was taken off, and the reply. Where the stream has none, the root is the same. It
/// fails only for want of memory.
pub(crate) fn unpinned(alloc: Global, root: &Root, stream: u32) -> Result<(Root, Reply), NoMemory>
    ensures { (numbering : Numbering) → IfOk result (λ after. after ≡ next numbering root.now stream event.Unpin) }
{
    let Some(version) = pin_in(root.book().pins.as_slice(), stream) else {
        return Ok((root.copy()?, Reply::Refused(Refusal::NoPin)));
    };
    let pins = pins_without(alloc, root.book().pins.as_slice(), stream)?;
    let root = root.with_pins(alloc, pins)?;
    Ok((root, Reply::Unpinned { version }))
}

/// The version that a stream is pinned to, or `None` where it has no pin. It takes no memory.
pub(crate) fn pin_in(pins: &[Pin], stream: u32) -> Option<u32>
    ensures { result ≡ pin_in pins.now stream }
{
    for pin in pins {
        if pin.stream == stream {
            return Some(pin.version);
        }
    }
    None
}

/// The pins of the other streams.
fn pins_without(alloc: Global, pins: &[Pin], stream: u32) -> Result<List<Pin>, NoMemory>
    ensures { IfOk result (λ others. others ≡ filter (λ p. not (p.stream == stream)) pins.now) }
{
    let mut others = List::new(alloc);
    for pin in pins {
        if pin.stream != stream {
            others.push(*pin)?;
        }
    }
    Ok(others)
}
