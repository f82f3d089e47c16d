// The layout of trapped LDC and STC accesses.
ghost use Rattle.layouts.specs.Layouts.{layout_for};
ghost use Rattle.tables.specs.Tables.{ldc};
ghost use Rattle.std.specs.Prelude.{◌≡◌};

use crate::{Layout, laid, rows};
use texts::rules as r;

// Class 0x06.
pub(crate) fn decode_iss_ldc(iss: u64) -> Layout
    ensures { result ≡ layout_for ldc iss }
{
    laid(
        [
            rows::CV,
            rows::COND,
            rows::IMM8,
            rows::RES0_10_12,
            rows::RN_LDC,
            rows::OFFSET,
            rows::AM,
            rows::DIRECTION_LDC,
        ],
        [3, 6],
        r::PLAIN,
    )
}
