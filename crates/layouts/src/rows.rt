// The rows of all layouts, from high bits to low, each once; RES0_16_25 is bits 16 to 24.
use records::{Row, kinds as k};
use texts::{names as n, rules as r};

// What stands where a layout has no row.
pub(crate) const PAD: Row = Row {
    start: 0,
    width: 0,
    name: n::NONE,
    long: n::NONE,
    rule: r::PLAIN,
    kind: k::FREE,
};

pub(crate) const CV: Row = Row {
    start: 24,
    width: 1,
    name: n::CV,
    long: n::CV_LONG,
    rule: r::CV,
    kind: k::FREE,
};

pub(crate) const IDS: Row = Row {
    start: 24,
    width: 1,
    name: n::IDS,
    long: n::IDS_LONG,
    rule: r::IDS,
    kind: k::FREE,
};

pub(crate) const ISV: Row = Row {
    start: 24,
    width: 1,
    name: n::ISV,
    long: n::ISV_LONG,
    rule: r::ISV,
    kind: k::FREE,
};

pub(crate) const ISV_STEP: Row = Row {
    start: 24,
    width: 1,
    name: n::ISV,
    long: n::ISV_LONG,
    rule: r::STEP_VALID,
    kind: k::FREE,
};

pub(crate) const RES0_24_25: Row = Row {
    start: 24,
    width: 1,
    name: n::RES0,
    long: n::RES0_LONG,
    rule: r::PLAIN,
    kind: k::CHECKED,
};

pub(crate) const RES0_22_25: Row = Row {
    start: 22,
    width: 3,
    name: n::RES0,
    long: n::RES0_LONG,
    rule: r::PLAIN,
    kind: k::CHECKED,
};

pub(crate) const RES0_16_25: Row = Row {
    start: 16,
    width: 9,
    name: n::RES0,
    long: n::RES0_LONG,
    rule: r::PLAIN,
    kind: k::CHECKED,
};

pub(crate) const RES0_15_25: Row = Row {
    start: 15,
    width: 10,
    name: n::RES0,
    long: n::RES0_LONG,
    rule: r::PLAIN,
    kind: k::CHECKED,
};

pub(crate) const RES0_6_25: Row = Row {
    start: 6,
    width: 19,
    name: n::RES0,
    long: n::RES0_LONG,
    rule: r::PLAIN,
    kind: k::CHECKED,
};

pub(crate) const RES0_2_25: Row = Row {
    start: 2,
    width: 23,
    name: n::RES0,
    long: n::RES0_LONG,
    rule: r::PLAIN,
    kind: k::CHECKED,
};

pub(crate) const ISS: Row = Row {
    start: 0,
    width: 25,
    name: n::ISS,
    long: n::NONE,
    rule: r::LD64B_ISS,
    kind: k::LD64B_ISS,
};

pub(crate) const RES0_ISS: Row = Row {
    start: 0,
    width: 25,
    name: n::RES0,
    long: n::RES0_LONG,
    rule: r::ISS_RES0,
    kind: k::CHECKED,
};

pub(crate) const TFV: Row = Row {
    start: 23,
    width: 1,
    name: n::TFV,
    long: n::TFV_LONG,
    rule: r::TFV,
    kind: k::FREE,
};

pub(crate) const SAS: Row = Row {
    start: 22,
    width: 2,
    name: n::SAS,
    long: n::SAS_LONG,
    rule: r::SAS,
    kind: k::FREE,
};

pub(crate) const RES0_21_24: Row = Row {
    start: 21,
    width: 3,
    name: n::RES0,
    long: n::RES0_LONG,
    rule: r::PLAIN,
    kind: k::CHECKED,
};

pub(crate) const COND: Row = Row {
    start: 20,
    width: 4,
    name: n::COND,
    long: n::COND_LONG,
    rule: r::PLAIN,
    kind: k::FREE,
};

pub(crate) const RES0_19_24: Row = Row {
    start: 19,
    width: 5,
    name: n::RES0,
    long: n::RES0_LONG,
    rule: r::PLAIN,
    kind: k::CHECKED,
};

pub(crate) const RES0_14_24: Row = Row {
    start: 14,
    width: 10,
    name: n::RES0,
    long: n::RES0_LONG,
    rule: r::PLAIN,
    kind: k::CHECKED,
};

pub(crate) const RES0_7_24: Row = Row {
    start: 7,
    width: 17,
    name: n::RES0,
    long: n::RES0_LONG,
    rule: r::PLAIN,
    kind: k::CHECKED,
};

pub(crate) const IMPDEF: Row = Row {
    start: 0,
    width: 24,
    name: n::IMPDEF,
    long: n::IMPDEF_LONG,
    rule: r::PLAIN,
    kind: k::FREE,
};

pub(crate) const RES0_11_23: Row = Row {
    start: 11,
    width: 12,
    name: n::RES0,
    long: n::RES0_LONG,
    rule: r::PLAIN,
    kind: k::CHECKED,
};

pub(crate) const OP0: Row = Row {
    start: 20,
    width: 2,
    name: n::OP0,
    long: n::NONE,
    rule: r::PLAIN,
    kind: k::FREE,
};

pub(crate) const SSE: Row = Row {
    start: 21,
    width: 1,
    name: n::SSE,
    long: n::SSE_LONG,
    rule: r::PLAIN,
    kind: k::FREE,
};

pub(crate) const RES0_18_21: Row = Row {
    start: 18,
    width: 3,
    name: n::RES0,
    long: n::RES0_LONG,
    rule: r::PLAIN,
    kind: k::CHECKED,
};

pub(crate) const RES0_16_21: Row = Row {
    start: 16,
    width: 5,
    name: n::RES0,
    long: n::RES0_LONG,
    rule: r::PLAIN,
    kind: k::CHECKED,
};

pub(crate) const SRT: Row = Row {
    start: 16,
    width: 5,
    name: n::SRT,
    long: n::SRT_LONG,
    rule: r::PLAIN,
    kind: k::FREE,
};

pub(crate) const OP2: Row = Row {
    start: 17,
    width: 3,
    name: n::OP2,
    long: n::NONE,
    rule: r::PLAIN,
    kind: k::FREE,
};

pub(crate) const OPC2: Row = Row {
    start: 17,
    width: 3,
    name: n::OPC2,
    long: n::NONE,
    rule: r::PLAIN,
    kind: k::FREE,
};

pub(crate) const OPC2_MCRR: Row = Row {
    start: 16,
    width: 4,
    name: n::OPC2,
    long: n::NONE,
    rule: r::PLAIN,
    kind: k::FREE,
};

pub(crate) const IMM8: Row = Row {
    start: 12,
    width: 8,
    name: n::IMM8,
    long: n::IMM8_LONG,
    rule: r::PLAIN,
    kind: k::FREE,
};

pub(crate) const RES0_10_20: Row = Row {
    start: 10,
    width: 10,
    name: n::RES0,
    long: n::RES0_LONG,
    rule: r::PLAIN,
    kind: k::CHECKED,
};

pub(crate) const RES0_0_20: Row = Row {
    start: 0,
    width: 20,
    name: n::RES0,
    long: n::RES0_LONG,
    rule: r::PLAIN,
    kind: k::CHECKED,
};

pub(crate) const ELS: Row = Row {
    start: 18,
    width: 1,
    name: n::ELS,
    long: n::ELS_LONG,
    rule: r::ELS,
    kind: k::FREE,
};

pub(crate) const WU: Row = Row {
    start: 16,
    width: 2,
    name: n::WU,
    long: n::WU_LONG,
    rule: r::WU,
    kind: k::FREE,
};

pub(crate) const OP1: Row = Row {
    start: 14,
    width: 3,
    name: n::OP1,
    long: n::NONE,
    rule: r::PLAIN,
    kind: k::FREE,
};

pub(crate) const OPC1: Row = Row {
    start: 14,
    width: 3,
    name: n::OPC1,
    long: n::NONE,
    rule: r::PLAIN,
    kind: k::FREE,
};

pub(crate) const FNP: Row = Row {
    start: 15,
    width: 1,
    name: n::FNP,
    long: n::FNP_LONG,
    rule: r::FNP,
    kind: k::FREE,
};

pub(crate) const FNP_NOT_VALID: Row = Row {
    start: 15,
    width: 1,
    name: n::FNP,
    long: n::FNP_LONG,
    rule: r::FNP_NOT_VALID,
    kind: k::FREE,
};

pub(crate) const RES0_15_16: Row = Row {
    start: 15,
    width: 1,
    name: n::RES0,
    long: n::RES0_LONG,
    rule: r::PLAIN,
    kind: k::CHECKED,
};

pub(crate) const SF: Row = Row {
    start: 15,
    width: 1,
    name: n::SF,
    long: n::SF_LONG,
    rule: r::SF,
    kind: k::FREE,
};

pub(crate) const VFV: Row = Row {
    start: 15,
    width: 1,
    name: n::VFV,
    long: n::VFV_LONG,
    rule: r::VFV,
    kind: k::FREE,
};

pub(crate) const COMMENT: Row = Row {
    start: 0,
    width: 16,
    name: n::COMMENT,
    long: n::COMMENT_LONG,
    rule: r::PLAIN,
    kind: k::FREE,
};

pub(crate) const IMM16: Row = Row {
    start: 0,
    width: 16,
    name: n::IMM16,
    long: n::IMM16_LONG,
    rule: r::PLAIN,
    kind: k::FREE,
};

pub(crate) const AR: Row = Row {
    start: 14,
    width: 1,
    name: n::AR,
    long: n::AR_LONG,
    rule: r::AR,
    kind: k::FREE,
};

pub(crate) const PFV: Row = Row {
    start: 14,
    width: 1,
    name: n::PFV,
    long: n::PFV_LONG,
    rule: r::PFV,
    kind: k::FREE,
};

pub(crate) const RES0_14_15: Row = Row {
    start: 14,
    width: 1,
    name: n::RES0,
    long: n::RES0_LONG,
    rule: r::PLAIN,
    kind: k::CHECKED,
};

pub(crate) const RT2: Row = Row {
    start: 10,
    width: 5,
    name: n::RT2,
    long: n::NONE,
    rule: r::PLAIN,
    kind: k::FREE,
};

pub(crate) const IESB: Row = Row {
    start: 13,
    width: 1,
    name: n::IESB,
    long: n::IESB_LONG,
    rule: r::IESB,
    kind: k::FREE,
};

pub(crate) const RES0_13_14: Row = Row {
    start: 13,
    width: 1,
    name: n::RES0,
    long: n::RES0_LONG,
    rule: r::PLAIN,
    kind: k::CHECKED,
};

pub(crate) const RES0_13_14_DFSC: Row = Row {
    start: 13,
    width: 1,
    name: n::RES0,
    long: n::RES0_LONG_DFSC,
    rule: r::PLAIN,
    kind: k::CHECKED,
};

pub(crate) const VNCR: Row = Row {
    start: 13,
    width: 1,
    name: n::VNCR,
    long: n::NONE,
    rule: r::PLAIN,
    kind: k::FREE,
};

pub(crate) const CRN: Row = Row {
    start: 10,
    width: 4,
    name: n::CRN,
    long: n::NONE,
    rule: r::PLAIN,
    kind: k::FREE,
};

pub(crate) const RES0_11_13_UNCHECKED: Row = Row {
    start: 11,
    width: 2,
    name: n::RES0,
    long: n::RES0_LONG,
    rule: r::PLAIN,
    kind: k::UNCHECKED,
};

pub(crate) const SET: Row = Row {
    start: 11,
    width: 2,
    name: n::SET,
    long: n::SET_LONG,
    rule: r::SET_TYPE,
    kind: k::SET,
};

pub(crate) const AET: Row = Row {
    start: 10,
    width: 3,
    name: n::AET,
    long: n::AET_LONG,
    rule: r::AET,
    kind: k::AET,
};

pub(crate) const RES0_9_13: Row = Row {
    start: 9,
    width: 4,
    name: n::RES0,
    long: n::RES0_LONG,
    rule: r::PLAIN,
    kind: k::CHECKED,
};

pub(crate) const RES0_10_12: Row = Row {
    start: 10,
    width: 2,
    name: n::RES0,
    long: n::RES0_LONG,
    rule: r::PLAIN,
    kind: k::CHECKED,
};

pub(crate) const FNV: Row = Row {
    start: 10,
    width: 1,
    name: n::FNV,
    long: n::FNV_LONG,
    rule: r::FNV,
    kind: k::FREE,
};

pub(crate) const VECITR: Row = Row {
    start: 8,
    width: 3,
    name: n::VECITR,
    long: n::VECITR_LONG,
    rule: r::PLAIN,
    kind: k::FREE,
};

pub(crate) const EA: Row = Row {
    start: 9,
    width: 1,
    name: n::EA,
    long: n::EA_LONG,
    rule: r::PLAIN,
    kind: k::FREE,
};

pub(crate) const EA_SERROR: Row = Row {
    start: 9,
    width: 1,
    name: n::EA,
    long: n::EA_LONG_SERROR,
    rule: r::PLAIN,
    kind: k::FREE,
};

pub(crate) const RN: Row = Row {
    start: 5,
    width: 5,
    name: n::RN,
    long: n::RN_LONG,
    rule: r::PLAIN,
    kind: k::FREE,
};

pub(crate) const RN_LDC: Row = Row {
    start: 5,
    width: 5,
    name: n::RN_LDC,
    long: n::RN_LDC_LONG,
    rule: r::PLAIN,
    kind: k::FREE,
};

pub(crate) const RT: Row = Row {
    start: 5,
    width: 5,
    name: n::RT,
    long: n::NONE,
    rule: r::PLAIN,
    kind: k::FREE,
};

pub(crate) const CM: Row = Row {
    start: 8,
    width: 1,
    name: n::CM,
    long: n::CM_LONG,
    rule: r::PLAIN,
    kind: k::FREE,
};

pub(crate) const RES0_8_9: Row = Row {
    start: 8,
    width: 1,
    name: n::RES0,
    long: n::RES0_LONG,
    rule: r::PLAIN,
    kind: k::CHECKED,
};

pub(crate) const RES0_6_9: Row = Row {
    start: 6,
    width: 3,
    name: n::RES0,
    long: n::RES0_LONG,
    rule: r::PLAIN,
    kind: k::CHECKED,
};

pub(crate) const IDF: Row = Row {
    start: 7,
    width: 1,
    name: n::IDF,
    long: n::IDF_LONG,
    rule: r::IDF,
    kind: k::FREE,
};

pub(crate) const RES0_7_8: Row = Row {
    start: 7,
    width: 1,
    name: n::RES0,
    long: n::RES0_LONG,
    rule: r::PLAIN,
    kind: k::CHECKED,
};

pub(crate) const S1PTW: Row = Row {
    start: 7,
    width: 1,
    name: n::S1PTW,
    long: n::S1PTW_LONG,
    rule: r::PLAIN,
    kind: k::FREE,
};

pub(crate) const WNRV: Row = Row {
    start: 7,
    width: 1,
    name: n::WNRV,
    long: n::WNRV_LONG,
    rule: r::WNRV,
    kind: k::FREE,
};

pub(crate) const EX: Row = Row {
    start: 6,
    width: 1,
    name: n::EX,
    long: n::EX_LONG,
    rule: r::EX,
    kind: k::FREE,
};

pub(crate) const RES0_6_7: Row = Row {
    start: 6,
    width: 1,
    name: n::RES0,
    long: n::RES0_LONG,
    rule: r::PLAIN,
    kind: k::CHECKED,
};

pub(crate) const RES0_6_7_STEP: Row = Row {
    start: 6,
    width: 1,
    name: n::RES0,
    long: n::RES0_LONG_STEP,
    rule: r::PLAIN,
    kind: k::CHECKED,
};

pub(crate) const WNR: Row = Row {
    start: 6,
    width: 1,
    name: n::WNR,
    long: n::WNR_LONG,
    rule: r::WNR,
    kind: k::FREE,
};

pub(crate) const WNR_NOT_VALID: Row = Row {
    start: 6,
    width: 1,
    name: n::WNR,
    long: n::WNR_LONG,
    rule: r::WNR_NOT_VALID,
    kind: k::CHECKED,
};

pub(crate) const WNR_WATCH: Row = Row {
    start: 6,
    width: 1,
    name: n::WNR,
    long: n::WNR_LONG,
    rule: r::WATCH_WN_R,
    kind: k::FREE,
};

pub(crate) const RES0_5_7: Row = Row {
    start: 5,
    width: 2,
    name: n::RES0,
    long: n::RES0_LONG,
    rule: r::PLAIN,
    kind: k::CHECKED,
};

pub(crate) const DFSC: Row = Row {
    start: 0,
    width: 6,
    name: n::DFSC,
    long: n::DFSC_LONG,
    rule: r::FAULT_STATUS,
    kind: k::FSC,
};

pub(crate) const DFSC_DEBUG: Row = Row {
    start: 0,
    width: 6,
    name: n::DFSC,
    long: n::DFSC_LONG,
    rule: r::DEBUG_STATUS,
    kind: k::FSC,
};

pub(crate) const DFSC_SERROR: Row = Row {
    start: 0,
    width: 6,
    name: n::DFSC,
    long: n::DFSC_LONG,
    rule: r::SERROR_STATUS,
    kind: k::FSC,
};

pub(crate) const IFSC: Row = Row {
    start: 0,
    width: 6,
    name: n::IFSC,
    long: n::IFSC_LONG,
    rule: r::FAULT_STATUS,
    kind: k::FSC,
};

pub(crate) const IFSC_DEBUG: Row = Row {
    start: 0,
    width: 6,
    name: n::IFSC,
    long: n::IFSC_LONG,
    rule: r::DEBUG_STATUS,
    kind: k::FSC,
};

pub(crate) const IXF: Row = Row {
    start: 4,
    width: 1,
    name: n::IXF,
    long: n::IXF_LONG,
    rule: r::IXF,
    kind: k::FREE,
};

pub(crate) const OFFSET: Row = Row {
    start: 4,
    width: 1,
    name: n::OFFSET,
    long: n::OFFSET_LONG,
    rule: r::OFFSET_SIGN,
    kind: k::FREE,
};

pub(crate) const RES0_3_5: Row = Row {
    start: 3,
    width: 2,
    name: n::RES0,
    long: n::RES0_LONG,
    rule: r::PLAIN,
    kind: k::CHECKED,
};

pub(crate) const CRM: Row = Row {
    start: 1,
    width: 4,
    name: n::CRM,
    long: n::NONE,
    rule: r::PLAIN,
    kind: k::FREE,
};

pub(crate) const UFF: Row = Row {
    start: 3,
    width: 1,
    name: n::UFF,
    long: n::UFF_LONG,
    rule: r::UFF,
    kind: k::FREE,
};

pub(crate) const AM: Row = Row {
    start: 1,
    width: 3,
    name: n::AM,
    long: n::AM_LONG,
    rule: r::AM,
    kind: k::AM,
};

pub(crate) const OFF: Row = Row {
    start: 2,
    width: 1,
    name: n::OFF,
    long: n::OFF_LONG,
    rule: r::OFF,
    kind: k::FREE,
};

pub(crate) const RV: Row = Row {
    start: 2,
    width: 1,
    name: n::RV,
    long: n::RV_LONG,
    rule: r::RV,
    kind: k::FREE,
};

pub(crate) const DZF: Row = Row {
    start: 1,
    width: 1,
    name: n::DZF,
    long: n::DZF_LONG,
    rule: r::DZF,
    kind: k::FREE,
};

pub(crate) const I_OR_D: Row = Row {
    start: 1,
    width: 1,
    name: n::I_OR_D,
    long: n::I_OR_D_LONG,
    rule: r::I_OR_D,
    kind: k::FREE,
};

pub(crate) const BTYPE: Row = Row {
    start: 0,
    width: 2,
    name: n::BTYPE,
    long: n::BTYPE_LONG,
    rule: r::PLAIN,
    kind: k::FREE,
};

pub(crate) const TI: Row = Row {
    start: 0,
    width: 2,
    name: n::TI,
    long: n::TI_LONG,
    rule: r::TI,
    kind: k::FREE,
};

pub(crate) const A_OR_B: Row = Row {
    start: 0,
    width: 1,
    name: n::A_OR_B,
    long: n::A_OR_B_LONG,
    rule: r::A_OR_B,
    kind: k::FREE,
};

pub(crate) const DIRECTION_LDC: Row = Row {
    start: 0,
    width: 1,
    name: n::DIRECTION,
    long: n::DIRECTION_LONG,
    rule: r::LDC_READ,
    kind: k::FREE,
};

pub(crate) const DIRECTION_MCR: Row = Row {
    start: 0,
    width: 1,
    name: n::DIRECTION,
    long: n::DIRECTION_LONG,
    rule: r::MCR_READ,
    kind: k::FREE,
};

pub(crate) const DIRECTION_MSR: Row = Row {
    start: 0,
    width: 1,
    name: n::DIRECTION,
    long: n::DIRECTION_LONG,
    rule: r::MSR_READ,
    kind: k::FREE,
};

pub(crate) const IOF: Row = Row {
    start: 0,
    width: 1,
    name: n::IOF,
    long: n::IOF_LONG,
    rule: r::IOF,
    kind: k::FREE,
};
