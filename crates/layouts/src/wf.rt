// The layout of trapped WF* instructions.
ghost use Rattle.layouts.specs.Layouts.{layout_for};
ghost use Rattle.tables.specs.Tables.{wf};
ghost use Rattle.std.specs.Prelude.{◌≡◌};

use crate::{Layout, laid, rows};
use texts::rules as r;

// Class 0x01.
pub(crate) fn decode_iss_wf(iss: u64) -> Layout
    ensures { result ≡ layout_for wf iss }
{
    laid(
        [
            rows::CV,
            rows::COND,
            rows::RES0_10_20,
            rows::RN,
            rows::RES0_3_5,
            rows::RV,
            rows::TI,
        ],
        [2, 4],
        r::PLAIN,
    )
}
