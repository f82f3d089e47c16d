// The layouts of SError interrupts. Where two cases differ in a row, the second changes it.
ghost use Rattle.layouts.specs.Layouts.{layout_for};
ghost use Rattle.tables.specs.Tables.{serror};
ghost use Rattle.std.specs.Prelude.{◌≡◌};

use crate::{Layout, laid, rows};
use texts::rules as r;

// Class 0x2F.
pub(crate) fn decode_iss_serror(iss: u64) -> Layout
    ensures { result ≡ layout_for serror iss }
{
    if records::as_bit(iss, 24) {
        return laid([rows::IDS, rows::IMPDEF], [], r::PLAIN);
    }
    if records::field(iss, 0, 6) != 0x11 {
        return laid(
            [
                rows::IDS,
                rows::RES0_14_24,
                rows::RES0_13_14_DFSC,
                rows::AET,
                rows::EA_SERROR,
                rows::RES0_6_9,
                rows::DFSC_SERROR,
            ],
            [6, 3, 1, 2, 5],
            r::PLAIN,
        );
    }
    let mut rows = [
        rows::IDS,
        rows::RES0_19_24,
        rows::ELS,
        rows::WU,
        rows::VFV,
        rows::PFV,
        rows::IESB,
        rows::AET,
        rows::EA_SERROR,
        rows::RES0_8_9,
        rows::WNRV,
        rows::WNR,
        rows::DFSC_SERROR,
    ];
    if records::as_bit(iss, 7) {
        return laid(rows, [12, 7, 1, 9], r::PLAIN);
    }
    rows[11] = rows::WNR_NOT_VALID;
    laid(rows, [12, 7, 1, 9, 11], r::PLAIN)
}
