// The layout of SVC, HVC and SMC instructions.
ghost use Rattle.layouts.specs.Layouts.{layout_for};
ghost use Rattle.tables.specs.Tables.{hvc};
ghost use Rattle.std.specs.Prelude.{◌≡◌};

use crate::{Layout, laid, rows};
use texts::rules as r;

// Classes 0x11, 0x15, 0x16, 0x17.
pub(crate) fn decode_iss_hvc(iss: u64) -> Layout
    ensures { result ≡ layout_for hvc iss }
{
    laid([rows::RES0_16_25, rows::IMM16], [0], r::PLAIN)
}
