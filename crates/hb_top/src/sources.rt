//! The bytes of a source, up to a limit.

ghost use Rattle.std.specs.Prelude.{◌≡◌, ◌≤◌, Err, IfOk, OnErr, codes, option_map};
ghost use Rattle.hb_io.specs.Causes.{Rose};
ghost use Rattle.hb_top.specs.Outcomes.{IsDue, IsTaken};
ghost use Rattle.hb_top.specs.declared.due.Ending.TheVariants.{TextRefused};

use crate::due::{Due, Ending, Stop};
use hb_io::{ReadFail, Source, read_all};
use std::alloc::Global;

/// The bytes to the end of the source. None where they are more than the limit.
pub fn bytes_of<S: Source>(
    alloc: Global,
    source: &mut S,
    limit: u32,
) -> Result<Option<Vec<u8>>, Stop>
    ensures taken { IfOk result (λ bytes. IsTaken limit (S.left source.old) (S.left source.new) (option_map (λ v. v.items) bytes)) }
    ensures fault { result ≡ Err Stop.Fault → Rose (S.faults source.old) (S.faults source.new) }
    ensures later { S.faults source.old ≤ S.faults source.new }
{
    match read_all(alloc, source, limit) {
        Ok(bytes) => Ok(Some(bytes)),
        Err(ReadFail::TooLong) => Ok(None),
        Err(ReadFail::Fault) => Err(Stop::Fault),
        Err(ReadFail::NoMemory) => Err(Stop::Memory),
    }
}

/// The line of bytes that are more than the limit.
pub fn too_long(alloc: Global) -> Result<Due, Stop>
    ensures due { IfOk result (λ due. IsDue due TextRefused (codes "text TooLong\n")) }
    ensures memory { OnErr result (result ≡ Err Stop.Memory) }
{
    Ok(Due::new(alloc, Ending::TextRefused, "text TooLong\n")?)
}
