// The store of what is held of ontology and data, and its reader.
ghost use Rattle.std.specs.Prelude.{MatchResult};
ghost use Rattle.dl_run.specs.Answered.{shards};
ghost use Rattle.dl_run.specs.Numbered.{base_of, IsMade};
ghost use Rattle.dl_run.specs.Store.{IsReaderOf, IsStopOf};

use crate::base::NumberedBase;
use crate::stop::Stop;
use dl_core::{Event, RootReads, load, step};
use std::alloc::Global;

/// How many shards the store of the command `answer` has.
const SHARDS: u32 = 4;

/// The stream whose pin is asked at.
const STREAM: u32 = 1;

/// A reader of the store of what is held, whose stream has a pin at version 1; or the first limit that the load passes.
pub(crate) fn reader_of(alloc: Global, base: &NumberedBase) -> Result<RootReads, Stop>
    requires made { IsMade base.now }
    ensures { MatchResult result (IsReaderOf (base_of shards base.now).load) (IsStopOf (base_of shards base.now).load) }
{
    let root = load(
        alloc,
        base.axioms.as_slice(),
        &base.signature,
        base.facts.as_slice(),
        SHARDS,
    )?;
    let (root, _pinned) = step(alloc, &root, STREAM, &Event::Pin)?;
    Ok(RootReads::new(root, STREAM))
}
