// The layout of trapped MSR, MRS and System instructions.
ghost use Rattle.layouts.specs.Layouts.{layout_for};
ghost use Rattle.tables.specs.Tables.{msr};
ghost use Rattle.std.specs.Prelude.{◌≡◌};

use crate::{Layout, laid, rows};
use texts::rules as r;

// Class 0x18.
pub(crate) fn decode_iss_msr(iss: u64) -> Layout
    ensures { result ≡ layout_for msr iss }
{
    laid(
        [
            rows::RES0_22_25,
            rows::OP0,
            rows::OP2,
            rows::OP1,
            rows::CRN,
            rows::RT,
            rows::CRM,
            rows::DIRECTION_MSR,
        ],
        [0],
        r::SYSTEM_REGISTER,
    )
}
