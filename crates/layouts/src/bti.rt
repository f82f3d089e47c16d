// The layout of Branch Target exceptions.
ghost use Rattle.layouts.specs.Layouts.{layout_for};
ghost use Rattle.tables.specs.Tables.{bti};
ghost use Rattle.std.specs.Prelude.{◌≡◌};

use crate::{Layout, laid, rows};
use texts::rules as r;

// Class 0x0D.
pub(crate) fn decode_iss_bti(iss: u64) -> Layout
    ensures { result ≡ layout_for bti iss }
{
    laid([rows::RES0_2_25, rows::BTYPE], [0], r::PLAIN)
}
