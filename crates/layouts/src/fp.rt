// The layout of trapped floating-point exceptions.
ghost use Rattle.layouts.specs.Layouts.{layout_for};
ghost use Rattle.tables.specs.Tables.{fp};
ghost use Rattle.std.specs.Prelude.{◌≡◌};

use crate::{Layout, laid, rows};
use texts::rules as r;

// Classes 0x28, 0x2C.
pub(crate) fn decode_iss_fp(iss: u64) -> Layout
    ensures { result ≡ layout_for fp iss }
{
    laid(
        [
            rows::RES0_24_25,
            rows::TFV,
            rows::RES0_11_23,
            rows::VECITR,
            rows::IDF,
            rows::RES0_5_7,
            rows::IXF,
            rows::UFF,
            rows::OFF,
            rows::DZF,
            rows::IOF,
        ],
        [0, 2, 5],
        r::PLAIN,
    )
}
