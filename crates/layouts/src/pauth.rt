// The layout of Pointer Authentication failures.
ghost use Rattle.layouts.specs.Layouts.{layout_for};
ghost use Rattle.tables.specs.Tables.{pauth};
ghost use Rattle.std.specs.Prelude.{◌≡◌};

use crate::{Layout, laid, rows};
use texts::rules as r;

// Class 0x1C.
pub(crate) fn decode_iss_pauth(iss: u64) -> Layout
    ensures { result ≡ layout_for pauth iss }
{
    laid([rows::RES0_2_25, rows::I_OR_D, rows::A_OR_B], [0], r::PLAIN)
}
