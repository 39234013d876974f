// Refusals as answers, by kind, map and place (docs/FORMAT.md, "Refusals").
ghost use Rattle.std.specs.Prelude.{◌≡◌};
ghost use Rattle.pciv_format.specs.Refusals.{refuse};

use pciv_format::{Refusal, RefusalKind};

// Of a routine with any result.
pub fn refuse<T>(kind: RefusalKind, map: usize, place: usize) -> Result<T, Refusal>
    ensures { result ≡ refuse kind map place }
{
    Err(Refusal { kind, map, place })
}
