// The layouts of debug exceptions and of BKPT and BRK. Where two cases differ in a row, the second changes it.
ghost use Rattle.layouts.specs.Layouts.{layout_for};
ghost use Rattle.tables.specs.Tables.{breakpoint, brk, software_step, watchpoint};
ghost use Rattle.std.specs.Prelude.{◌≡◌};

use crate::{Layout, laid, rows};
use texts::rules as r;

// Classes 0x30, 0x31.
pub(crate) fn decode_iss_breakpoint_vector_catch(iss: u64) -> Layout
    ensures { result ≡ layout_for breakpoint iss }
{
    laid([rows::RES0_6_25, rows::IFSC_DEBUG], [0, 1], r::PLAIN)
}

// Classes 0x32, 0x33.
pub(crate) fn decode_iss_software_step(iss: u64) -> Layout
    ensures { result ≡ layout_for software_step iss }
{
    let mut rows = [
        rows::ISV_STEP,
        rows::RES0_7_24,
        rows::RES0_6_7_STEP,
        rows::IFSC_DEBUG,
    ];
    if records::as_bit(iss, 24) {
        rows[2] = rows::EX;
        return laid(rows, [1, 3], r::PLAIN);
    }
    laid(rows, [1, 2, 3], r::PLAIN)
}

// Classes 0x34, 0x35.
pub(crate) fn decode_iss_watchpoint(iss: u64) -> Layout
    ensures { result ≡ layout_for watchpoint iss }
{
    laid(
        [
            rows::RES0_15_25,
            rows::RES0_14_15,
            rows::VNCR,
            rows::RES0_9_13,
            rows::CM,
            rows::RES0_7_8,
            rows::WNR_WATCH,
            rows::DFSC_DEBUG,
        ],
        [0, 1, 3, 5, 7],
        r::PLAIN,
    )
}

// Classes 0x38, 0x3C.
pub(crate) fn decode_iss_breakpoint(iss: u64) -> Layout
    ensures { result ≡ layout_for brk iss }
{
    laid([rows::RES0_16_25, rows::COMMENT], [0], r::PLAIN)
}
