// The layout of trapped LD64B and ST64B* instructions.
ghost use Rattle.layouts.specs.Layouts.{layout_for};
ghost use Rattle.tables.specs.Tables.{ld64b};
ghost use Rattle.std.specs.Prelude.{◌≡◌};

use crate::{Layout, laid, rows};
use texts::rules as r;

// Class 0x0A.
pub(crate) fn decode_iss_ld64b(iss: u64) -> Layout
    ensures { result ≡ layout_for ld64b iss }
{
    laid([rows::ISS], [0], r::PLAIN)
}
