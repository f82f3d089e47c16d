// The layouts of trapped MCR, MRC, MCRR and MRRC accesses.
ghost use Rattle.layouts.specs.Layouts.{layout_for};
ghost use Rattle.tables.specs.Tables.{mcr, mcrr};
ghost use Rattle.std.specs.Prelude.{◌≡◌};

use crate::{Layout, laid, rows};
use texts::rules as r;

// Classes 0x03, 0x05.
pub(crate) fn decode_iss_mcr(iss: u64) -> Layout
    ensures { result ≡ layout_for mcr iss }
{
    laid(
        [
            rows::CV,
            rows::COND,
            rows::OPC2,
            rows::OPC1,
            rows::CRN,
            rows::RT,
            rows::CRM,
            rows::DIRECTION_MCR,
        ],
        [],
        r::PLAIN,
    )
}

// Classes 0x04, 0x0C.
pub(crate) fn decode_iss_mcrr(iss: u64) -> Layout
    ensures { result ≡ layout_for mcrr iss }
{
    laid(
        [
            rows::CV,
            rows::COND,
            rows::OPC2_MCRR,
            rows::RES0_15_16,
            rows::RT2,
            rows::RT,
            rows::CRM,
            rows::DIRECTION_MCR,
        ],
        [3],
        r::PLAIN,
    )
}
