// The names of fields, by their codes: their indices in specs/Names.antt. The long name of X is X_LONG; RES0, EA and ISS have other
// long names in some rows, or none.
pub const NONE: u8 = 0;

pub const RES0: u8 = 1;

pub const RES0_LONG: u8 = 2;

pub const RES0_LONG_STEP: u8 = 68;

pub const RES0_LONG_DFSC: u8 = 110;

pub const ISS2: u8 = 3;

pub const EC: u8 = 4;

pub const EC_LONG: u8 = 5;

pub const IL: u8 = 6;

pub const IL_LONG: u8 = 7;

pub const ISS: u8 = 8;

pub const ISS_LONG: u8 = 9;

pub const CV: u8 = 10;

pub const CV_LONG: u8 = 11;

pub const COND: u8 = 12;

pub const COND_LONG: u8 = 13;

pub const RN: u8 = 14;

pub const RN_LONG: u8 = 15;

pub const RV: u8 = 16;

pub const RV_LONG: u8 = 17;

pub const TI: u8 = 18;

pub const TI_LONG: u8 = 19;

pub const OPC2: u8 = 20;

pub const OPC1: u8 = 21;

pub const CRN: u8 = 22;

pub const RT: u8 = 23;

pub const CRM: u8 = 24;

pub const DIRECTION: u8 = 25;

pub const DIRECTION_LONG: u8 = 26;

pub const RT2: u8 = 27;

pub const IMM8: u8 = 28;

pub const IMM8_LONG: u8 = 29;

pub const RN_LDC: u8 = 30;

pub const RN_LDC_LONG: u8 = 31;

pub const OFFSET: u8 = 32;

pub const OFFSET_LONG: u8 = 33;

pub const AM: u8 = 34;

pub const AM_LONG: u8 = 35;

pub const BTYPE: u8 = 36;

pub const BTYPE_LONG: u8 = 37;

pub const I_OR_D: u8 = 38;

pub const I_OR_D_LONG: u8 = 39;

pub const A_OR_B: u8 = 40;

pub const A_OR_B_LONG: u8 = 41;

pub const IMM16: u8 = 42;

pub const IMM16_LONG: u8 = 43;

pub const COMMENT: u8 = 44;

pub const COMMENT_LONG: u8 = 45;

pub const TFV: u8 = 46;

pub const TFV_LONG: u8 = 47;

pub const VECITR: u8 = 48;

pub const VECITR_LONG: u8 = 49;

pub const IDF: u8 = 50;

pub const IDF_LONG: u8 = 51;

pub const IXF: u8 = 52;

pub const IXF_LONG: u8 = 53;

pub const UFF: u8 = 54;

pub const UFF_LONG: u8 = 55;

pub const OFF: u8 = 56;

pub const OFF_LONG: u8 = 57;

pub const DZF: u8 = 58;

pub const DZF_LONG: u8 = 59;

pub const IOF: u8 = 60;

pub const IOF_LONG: u8 = 61;

pub const IFSC: u8 = 62;

pub const IFSC_LONG: u8 = 63;

pub const ISV: u8 = 64;

pub const ISV_LONG: u8 = 65;

pub const EX: u8 = 66;

pub const EX_LONG: u8 = 67;

pub const VNCR: u8 = 69;

pub const CM: u8 = 70;

pub const CM_LONG: u8 = 71;

pub const WNR: u8 = 72;

pub const WNR_LONG: u8 = 73;

pub const DFSC: u8 = 74;

pub const DFSC_LONG: u8 = 75;

pub const PFV: u8 = 76;

pub const PFV_LONG: u8 = 77;

pub const SET: u8 = 78;

pub const SET_LONG: u8 = 79;

pub const FNV: u8 = 80;

pub const FNV_LONG: u8 = 81;

pub const EA: u8 = 82;

pub const EA_LONG: u8 = 83;

pub const EA_LONG_SERROR: u8 = 113;

pub const S1PTW: u8 = 84;

pub const S1PTW_LONG: u8 = 85;

pub const SAS: u8 = 86;

pub const SAS_LONG: u8 = 87;

pub const SSE: u8 = 88;

pub const SSE_LONG: u8 = 89;

pub const SRT: u8 = 90;

pub const SRT_LONG: u8 = 91;

pub const SF: u8 = 92;

pub const SF_LONG: u8 = 93;

pub const AR: u8 = 94;

pub const AR_LONG: u8 = 95;

pub const WU: u8 = 96;

pub const WU_LONG: u8 = 97;

pub const FNP: u8 = 98;

pub const FNP_LONG: u8 = 99;

pub const IDS: u8 = 100;

pub const IDS_LONG: u8 = 101;

pub const IMPDEF: u8 = 102;

pub const IMPDEF_LONG: u8 = 103;

pub const ELS: u8 = 104;

pub const ELS_LONG: u8 = 105;

pub const VFV: u8 = 106;

pub const VFV_LONG: u8 = 107;

pub const IESB: u8 = 108;

pub const IESB_LONG: u8 = 109;

pub const AET: u8 = 111;

pub const AET_LONG: u8 = 112;

pub const WNRV: u8 = 114;

pub const WNRV_LONG: u8 = 115;

pub const OP0: u8 = 116;

pub const OP2: u8 = 117;

pub const OP1: u8 = 118;
