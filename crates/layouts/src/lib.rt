// The layouts of ISS: the rows of each and when they apply. A routine for each, in a file and under a name as the Rust
// has them; here a routine only gives the rows, and decodes nothing.
//
// Most tables have no row under a condition: their layouts are so by computing, with these definitions opened.
#![tactic(auto, unfolding(crate::specs::Layouts::layout_for, tables::specs::Applying::rows_for, tables::specs::Tables::res0, tables::specs::Tables::wf, tables::specs::Tables::mcr, tables::specs::Tables::mcrr, tables::specs::Tables::ldc, tables::specs::Tables::sve, tables::specs::Tables::ld64b, tables::specs::Tables::bti, tables::specs::Tables::pauth, tables::specs::Tables::hvc, tables::specs::Tables::brk, tables::specs::Tables::fp, tables::specs::Tables::breakpoint, tables::specs::Tables::watchpoint, tables::specs::Tables::msr, texts::specs::Pool::code, texts::specs::Pool::index_in, texts::specs::Names::names, records::specs::Kinds::kind_of))]

ghost use Rattle.layouts.specs.Promises.{LayoutOf};
ghost use Rattle.layouts.specs.Layouts.{laid, layout_for, layout_room};
ghost use Rattle.tables.specs.Tables.{res0};
ghost use Rattle.std.specs.Prelude.{◌++◌, ◌-◌, ◌≡◌, ◌≤◌, length, replicate};

use records::{Records, Row};
use texts::rules as r;

mod abort;
mod breakpoint;
mod bti;
mod fp;
mod hvc;
mod ld64b;
mod ldc;
mod mcr;
mod msr;
pub mod numbers;
mod pauth;
mod rows;
mod serror;
mod sve;
mod wf;

// The rows of ISS from high bits to low; the indices of those to check, in order; how many there are of each; the rule
// of ISS's own text.
// 101 bytes with no gap, so that a layout is copied as one block.
// Kept: document 01 names this form, at most 14 rows by value; nothing is allocated.
#[derive(Clone, Copy)]
pub struct Layout {
    pub rows: [Row; Records::ISS_MAX],
    pub checks: [u8; Records::ISS_MAX],
    pub count: u8,
    pub checked: u8,
    pub rule: u8,
}

// These items, and past them one and the same, up to the room of a layout.
fn padded<T: Copy, const N: usize>(given: [T; N], past: T) -> [T; Records::ISS_MAX]
    requires { N ≤ layout_room }
    ensures { result ≡ given ++ replicate (layout_room - length given) past }
{
    let mut all = [past; Records::ISS_MAX];
    // Kept as a loop (rule of the project): C's archive asks for memcpy and memset alone; `copy_from_slice` asks for
    // memmove and compares addresses.
    for i in 0..N {
        all[i] = given[i];
    }
    all
}

// The layout of these rows, from high bits to low, and of the indices of those to check, in order: padded and counted.
fn laid<const ROWS: usize, const CHECKS: usize>(
    rows: [Row; ROWS],
    checks: [u8; CHECKS],
    rule: u8,
) -> Layout
    requires { (ROWS ≤ layout_room) × (CHECKS ≤ layout_room) }
    ensures { result ≡ laid rows.entry checks.entry rule }
{
    Layout {
        rows: padded(rows, rows::PAD),
        checks: padded(checks, 0),
        count: ROWS as u8,
        checked: CHECKS as u8,
        rule,
    }
}

// Classes 0x00, 0x0E, 0x19, 0x22, 0x26.
fn decode_iss_res0(iss: u64) -> Layout
    ensures { result ≡ layout_for res0 iss }
{
    laid([rows::RES0_ISS], [0], r::PLAIN)
}

// The layout of a number, for this ISS; a number of no layout has the last one.
// Each arm returns, no plainer as one expression: where the arms come together the compiler carries each of the 101
// bytes of a layout by itself, which takes five times the instructions.
#[tactic(auto, unfolding(crate::specs::Layouts::table_of, tables::specs::Tables::layouts))]
pub fn layout_of(number: u8, iss: u64) -> Layout
    ensures { LayoutOf (number, iss) result }
{
    match number {
        numbers::RES0 => return decode_iss_res0(iss),
        numbers::WF => return wf::decode_iss_wf(iss),
        numbers::MCR => return mcr::decode_iss_mcr(iss),
        numbers::MCRR => return mcr::decode_iss_mcrr(iss),
        numbers::LDC => return ldc::decode_iss_ldc(iss),
        numbers::SVE => return sve::decode_iss_sve(iss),
        numbers::LD64B => return ld64b::decode_iss_ld64b(iss),
        numbers::BTI => return bti::decode_iss_bti(iss),
        numbers::PAUTH => return pauth::decode_iss_pauth(iss),
        numbers::HVC => return hvc::decode_iss_hvc(iss),
        numbers::BRK => return breakpoint::decode_iss_breakpoint(iss),
        numbers::FP => return fp::decode_iss_fp(iss),
        numbers::BREAKPOINT => return breakpoint::decode_iss_breakpoint_vector_catch(iss),
        numbers::SOFTWARE_STEP => return breakpoint::decode_iss_software_step(iss),
        numbers::WATCHPOINT => return breakpoint::decode_iss_watchpoint(iss),
        numbers::INSTRUCTION_ABORT => return abort::decode_iss_instruction_abort(iss),
        numbers::DATA_ABORT => return abort::decode_iss_data_abort(iss),
        numbers::SERROR => return serror::decode_iss_serror(iss),
        _ => return msr::decode_iss_msr(iss),
    }
}
