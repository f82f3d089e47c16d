// The layout of trapped accesses to SVE, Advanced SIMD or floating point.
ghost use Rattle.layouts.specs.Layouts.{layout_for};
ghost use Rattle.tables.specs.Tables.{sve};
ghost use Rattle.std.specs.Prelude.{◌≡◌};

use crate::{Layout, laid, rows};
use texts::rules as r;

// Class 0x07.
pub(crate) fn decode_iss_sve(iss: u64) -> Layout
    ensures { result ≡ layout_for sve iss }
{
    laid([rows::CV, rows::COND, rows::RES0_0_20], [2], r::PLAIN)
}
