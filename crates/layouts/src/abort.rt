// The layouts of instruction and data aborts. Where two cases differ in a row, the second changes it.
ghost use Rattle.layouts.specs.Layouts.{layout_for};
ghost use Rattle.promise.specs.Member.{member};
ghost use Rattle.tables.specs.Shape.{externals};
ghost use Rattle.tables.specs.Tables.{data_abort, instruction_abort};
ghost use Rattle.std.specs.Prelude.{◌≡◌};

use crate::{Layout, laid, rows};
use texts::rules as r;

// The external statuses: 01's 0x10 and 0x13 to 0x17, and 0x12 by #102, as the Rust has them.
fn is_external_abort_fsc(status: u64) -> bool
    ensures { result ≡ member status externals }
{
    matches!(status, 0x10 | 0x12 | 0x13 | 0x14 | 0x15 | 0x16 | 0x17)
}

// Classes 0x20, 0x21.
pub(crate) fn decode_iss_instruction_abort(iss: u64) -> Layout
    ensures { result ≡ layout_for instruction_abort iss }
{
    let mut rows = [
        rows::RES0_15_25,
        rows::RES0_14_15,
        rows::RES0_13_14,
        rows::RES0_11_13_UNCHECKED,
        rows::FNV,
        rows::EA,
        rows::RES0_8_9,
        rows::S1PTW,
        rows::RES0_6_7,
        rows::IFSC,
    ];
    let status = records::field(iss, 0, 6);
    if !is_external_abort_fsc(status) {
        return laid(rows, [0, 6, 8, 9, 1, 2], r::PLAIN);
    }
    rows[1] = rows::PFV;
    if status != 0x10 {
        return laid(rows, [0, 6, 8, 9, 2], r::PLAIN);
    }
    rows[3] = rows::SET;
    laid(rows, [0, 6, 8, 9, 2, 3], r::PLAIN)
}

// Classes 0x24, 0x25.
pub(crate) fn decode_iss_data_abort(iss: u64) -> Layout
    ensures { result ≡ layout_for data_abort iss }
{
    let status = records::field(iss, 0, 6);
    if records::as_bit(iss, 24) {
        let mut rows = [
            rows::ISV,
            rows::SAS,
            rows::SSE,
            rows::SRT,
            rows::SF,
            rows::AR,
            rows::VNCR,
            rows::RES0_11_13_UNCHECKED,
            rows::FNV,
            rows::EA,
            rows::CM,
            rows::S1PTW,
            rows::WNR,
            rows::DFSC,
        ];
        if status != 0x10 {
            return laid(rows, [13], r::PLAIN);
        }
        rows[7] = rows::SET;
        return laid(rows, [13, 7], r::PLAIN);
    }
    if !is_external_abort_fsc(status) {
        return laid(
            [
                rows::ISV,
                rows::RES0_21_24,
                rows::RES0_16_21,
                rows::FNP,
                rows::RES0_14_15,
                rows::VNCR,
                rows::RES0_11_13_UNCHECKED,
                rows::FNV,
                rows::EA,
                rows::CM,
                rows::S1PTW,
                rows::WNR,
                rows::DFSC,
            ],
            [1, 2, 4, 12],
            r::PLAIN,
        );
    }
    let mut rows = [
        rows::ISV,
        rows::RES0_21_24,
        rows::RES0_18_21,
        rows::WU,
        rows::FNP,
        rows::PFV,
        rows::VNCR,
        rows::RES0_11_13_UNCHECKED,
        rows::FNV,
        rows::EA,
        rows::CM,
        rows::S1PTW,
        rows::WNR,
        rows::DFSC,
    ];
    if status != 0x10 {
        return laid(rows, [1, 2, 13], r::PLAIN);
    }
    rows[7] = rows::SET;
    if records::as_bit(iss, 10) {
        rows[4] = rows::FNP_NOT_VALID;
    }
    laid(rows, [1, 2, 13, 7], r::PLAIN)
}
