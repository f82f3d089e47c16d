// The pool, where each text starts in it, and the first code of each rule of more than one bit. Written by tools/pool from the
// strings of specs/Names.antt, specs/Rules.antt and the registers; the prover shows that it is their bytes.

pub const LENGTH: usize = 8648;

pub const COUNT: usize = 597;

pub const START_COUNT: usize = 598;

pub static POOL: [u8; 8648] = *b"\
    RES0\
    Reserved\
    ISS2\
    EC\
    Exception Class\
    IL\
    Instruction Length\
    ISS\
    Instruction Specific Syndrome\
    CV\
    Condition code valid\
    COND\
    Condition code of the trapped instruction\
    RN\
    Register Number\
    RV\
    Register Valid\
    TI\
    Trapped Instruction\
    Opc2\
    Opc1\
    CRn\
    Rt\
    CRm\
    Direction\
    Direction of the trapped instruction\
    Rt2\
    imm8\
    Immediate value of the trapped instruction\
    Rn\
    General-purpose register number of the trapped instruction\
    Offset\
    Whether the offset is added or subtracted\
    AM\
    Addressing Mode\
    BTYPE\
    PSTATE.BTYPE value\
    IorD\
    Instruction key or Data key\
    AorB\
    A key or B key\
    imm16\
    Value of the immediate field\
    Comment\
    Instruction comment field or immediate field\
    TFV\
    Trapped Fault Valid\
    VECITR\
    RES1 or UNKNOWN\
    IDF\
    Input Denormal\
    IXF\
    Inexact\
    UFF\
    Underflow\
    OFF\
    Overflow\
    DZF\
    Divide by Zero\
    IOF\
    Invalid Operation\
    IFSC\
    Instruction Fault Status Code\
    ISV\
    Instruction Syndrome Valid\
    EX\
    Exclusive operation\
    Reserved because ISV is false\
    VNCR\
    CM\
    Cache Maintenance\
    WnR\
    Write not Read\
    DFSC\
    Data Fault Status Code\
    PFV\
    PFAR Valid\
    SET\
    Synchronous Error Type\
    FnV\
    FAR not Valid\
    EA\
    External abort type\
    S1PTW\
    Stage-1 translation table walk\
    SAS\
    Syndrome Access Size\
    SSE\
    Syndrome Sign Extend\
    SRT\
    Syndrome Register Transfer\
    SF\
    Sixty-Four\
    AR\
    Acquire/Release\
    WU\
    Write Update\
    FnP\
    FAR not Precise\
    IDS\
    Implementation Defined Syndrome\
    IMPDEF\
    Implementation defined\
    ELS\
    Meaning of ELR_ELx\
    VFV\
    FAR Valid\
    IESB\
    Implicit Error Synchronisation event\
    Reserved for this DFSC value\
    AET\
    Asynchronous Error Type\
    External Abort type\
    WnRV\
    WnR Valid\
    Op0\
    Op2\
    Op1\
    16-bit instruction trapped\
    32-bit instruction trapped\
    COND is not valid\
    COND is valid\
    RN is not valid\
    RN is valid\
    Write to system register (MCR)\
    Read from system register (MRC or VMRS)\
    Subtract offset\
    Add offset\
    Write to memory (STC)\
    Read from memory (LDC)\
    Instruction Key\
    Data Key\
    A Key\
    B Key\
    IDF, IXF, UFF, OFF, DZF and IOF do not hold valid information.\
    One or more floating-point exceptions occurred; IDF, IXF, UFF, OFF, DZF and IOF hold information about what.\
    Input denormal floating-point exception did not occur.\
    Input denormal floating-point exception occurred.\
    Inexact floating-point exception did not occur.\
    Inexact floating-point exception occurred.\
    Underflow floating-point exception did not occur.\
    Underflow floating-point exception occurred.\
    Overflow floating-point exception did not occur.\
    Overflow floating-point exception occurred.\
    Divide by Zero floating-point exception did not occur.\
    Divide by Zero floating-point exception occurred.\
    Invalid Operation floating-point exception did not occur.\
    Invalid Operation floating-point exception occurred.\
    EX bit is RES0\
    EX bit is valid\
    Some instruction other than a Load-Exclusive was stepped\
    A Load-Exclusive instruction was stepped\
    Watchpoint caused by reading from memory\
    Watchpoint caused by writing to memory\
    FAR is valid\
    FAR is not valid\
    PFAR is not valid\
    PFAR is valid\
    No instruction syndrome\
    Instruction syndrome valid\
    32-bit register\
    64-bit register\
    No acquire or release\
    Acquire or release\
    FAR is precise\
    FAR is not precise\
    FAR is not valid\
    FAR is not valid\
    Caused by reading\
    Caused by writing\
    The rest of the ISS is encoded according to the platform\
    The rest of the ISS is encoded in an implementation-defined format\
    Asynchronous, does not indicate the trigger for the exception\
    Synchronous, the exception was triggered by the instruction at ELR_ELx\
    FAR_ELx is not valid, it holds an unknown value\
    FAR_ELx contains a valid virtual address associated with the error\
    The SError interrupt was not synchronized by the implicit error synchronization event or not taken immediately.\
    The SError interrupt was synchronized by the implicit error synchronization event and taken immediately.\
    WnR is not valid and has been set to 0\
    WnR is valid\
    ISS is RES0\
    Unknown reason\
    Wrapped WF* instruction execution\
    Trapped MCR or MRC access with coproc=0b1111\
    Trapped MCRR or MRRC access with coproc=0b1111\
    Trapped MCR or MRC access with coproc=0b1110\
    Trapped LDC or STC access\
    Trapped access to SVE, Advanced SIMD or floating point\
    Trapped execution of an LD64B, ST64B, ST64BV, or ST64BV0 instruction\
    Trapped MRRC access with (coproc==0b1110)\
    Branch Target Exception\
    Illegal Execution state\
    SVC instruction execution in AArch32 state\
    SVC instruction execution in AArch64 state\
    HVC instruction execution in AArch64 state\
    SMC instruction execution in AArch64 state\
    Trapped MSR, MRS or System instruction execution in AArch64 state\
    Access to SVE functionality trapped as a result of CPACR_EL1.ZEN, CPTR_EL2.ZEN, CPTR_EL2.TZ, or CPTR_EL3.EZ\
    Exception from a Pointer Authentication instruction authentication failure\
    Instruction Abort from a lower Exception level\
    Instruction Abort taken without a change in Exception level\
    PC alignment fault exception\
    Data Abort from a lower Exception level\
    Data Abort taken without a change in Exception level\
    SP alignment fault exception\
    Trapped floating-point exception taken from AArch32 state\
    Trapped floating-point exception taken from AArch64 state\
    SError interrupt\
    Breakpoint exception from a lower Exception level\
    Breakpoint exception taken without a change in Exception level\
    Software Step exception from a lower Exception level\
    Software Step exception taken without a change in Exception level\
    Watchpoint exception from a lower Exception level\
    Watchpoint exception taken without a change in Exception level\
    BKPT instruction execution in AArch32 state\
    BRK instruction execution in AArch64 state\
    WFI trapped\
    WFE trapped\
    WFIT trapped\
    WFET trapped\
    Immediate unindexed\
    Immediate post-indexed\
    Immediate offset\
    Immediate pre-indexed\
    Reserved for trapped STR or T32 LDC\
    Reserved for trapped STC\
    ST64BV trapped\
    ST64BV0 trapped\
    LD64B or ST64B trapped\
    Debug exception\
    Address size fault, level 0\
    Address size fault, level 1\
    Address size fault, level 2\
    Address size fault, level 3\
    Translation fault, level 0\
    Translation fault, level 1\
    Translation fault, level 2\
    Translation fault, level 3\
    Access flag fault, level 0\
    Access flag fault, level 1\
    Access flag fault, level 2\
    Access flag fault, level 3\
    Permission fault, level 0\
    Permission fault, level 1\
    Permission fault, level 2\
    Permission fault, level 3\
    External abort\
    Tag check fault\
    External abort on table walk, level -2\
    External abort on table walk, level -1\
    External abort on table walk, level 0\
    External abort on table walk, level 1\
    External abort on table walk, level 2\
    External abort on table walk, level 3\
    Parity or ECC error\
    Parity or ECC error on table walk, level -1\
    Parity or ECC error on table walk, level 0\
    Parity or ECC error on table walk, level 1\
    Parity or ECC error on table walk, level 2\
    Parity or ECC error on table walk, level 3\
    Alignment fault\
    Granule protection fault on table walk, level -2\
    Granule protection fault on table walk, level -1\
    Granule protection fault on table walk, level 0\
    Granule protection fault on table walk, level 1\
    Granule protection fault on table walk, level 2\
    Granule protection fault on table walk, level 3\
    Granule protection fault\
    Address size fault, level -1\
    Translation fault, level -2\
    Translation fault, level -1\
    Address size fault, level -2\
    TLB conflict abort\
    Unsupported atomic hardware update\
    Lockdown\
    Unsupported exclusive or atomic access\
    Recoverable state (UER)\
    Uncontainable (UC)\
    Restartable state (UEO)\
    byte\
    halfword\
    word\
    doubleword\
    Not a store instruction or translation table update, or the location might have been updated\
    Reserved\
    Store instruction or translation table update that did not update the location\
    Store instruction or translation table update that updated the location\
    Uncontainable (UC)\
    Unrecoverable state (UEU)\
    Restartable state (UEO)\
    Recoverable state (UER)\
    Corrected (CE)\
    Uncategorized error\
    Asynchronous SError interrupt\
    Not valid (see WnRV)\
    Invalid ESR, res0 is \
    Invalid EC \
    Invalid DFSC or IFSC \
    Invalid SET \
    Invalid AET \
    Invalid AM \
    Invalid ISS \
    , bits \
    \x20for trapped LD64B or ST64B*\
    there is no digit\
    a character is no digit\
    the number does not fit 64 bits\
    the bytes end before the entry does\
    the entry's length is not 11\
    the entry's version is not 1\
    the block is longer than 65,536 bytes\
    something else stands behind the number\
    WU is 1, which is reserved\
    VNCR is not 0, and the core has no nested virtualisation\
    the sheet ends too early\
    the sheet's version is not 1\
    a phrase runs past the end of its sheet\
    a phrase's code is not above the one before it\
    Write\
    Read\
    DBGBVR0_EL1\
    MDSCR_EL1\
    OSLAR_EL1\
    OSLSR_EL1\
    MIDR_EL1\
    MPIDR_EL1\
    REVIDR_EL1\
    ID_AA64PFR0_EL1\
    ID_AA64PFR1_EL1\
    ID_AA64DFR0_EL1\
    ID_AA64ISAR0_EL1\
    ID_AA64ISAR1_EL1\
    ID_AA64MMFR0_EL1\
    ID_AA64MMFR1_EL1\
    ID_AA64MMFR2_EL1\
    SCTLR_EL1\
    ACTLR_EL1\
    CPACR_EL1\
    TTBR0_EL1\
    TTBR1_EL1\
    TCR_EL1\
    SPSR_EL1\
    ELR_EL1\
    ICC_PMR_EL1\
    AFSR0_EL1\
    AFSR1_EL1\
    ESR_EL1\
    FAR_EL1\
    PAR_EL1\
    MAIR_EL1\
    AMAIR_EL1\
    VBAR_EL1\
    ISR_EL1\
    ICC_DIR_EL1\
    ICC_SGI1R_EL1\
    ICC_IAR1_EL1\
    ICC_EOIR1_EL1\
    ICC_BPR1_EL1\
    ICC_CTLR_EL1\
    ICC_SRE_EL1\
    ICC_IGRPEN1_EL1\
    CONTEXTIDR_EL1\
    TPIDR_EL1\
    CNTKCTL_EL1\
    CCSIDR_EL1\
    CLIDR_EL1\
    CSSELR_EL1\
    CTR_EL0\
    DCZID_EL0\
    PMCR_EL0\
    PMCNTENSET_EL0\
    PMOVSCLR_EL0\
    PMCCNTR_EL0\
    PMUSERENR_EL0\
    TPIDR_EL0\
    TPIDRRO_EL0\
    CNTFRQ_EL0\
    CNTPCT_EL0\
    CNTVCT_EL0\
    CNTP_TVAL_EL0\
    CNTP_CTL_EL0\
    CNTP_CVAL_EL0\
    CNTV_CTL_EL0\
    CNTV_CVAL_EL0\
";

pub static STARTS: [u16; 598] = [
    0, 0, 4, 12, 16, 18, 33, 35, 53, 56, 85, 87, 107, 111, 152, 154, 169, 171, 185, 187, 206, 210,
    214, 217, 219, 222, 231, 267, 270, 274, 316, 318, 376, 382, 423, 425, 440, 445, 463, 467, 494,
    498, 512, 517, 545, 552, 596, 599, 618, 624, 639, 642, 656, 659, 666, 669, 678, 681, 689, 692,
    706, 709, 726, 730, 759, 762, 788, 790, 809, 838, 842, 844, 861, 864, 878, 882, 904, 907, 917,
    920, 942, 945, 958, 960, 979, 984, 1014, 1017, 1037, 1040, 1060, 1063, 1089, 1091, 1101, 1103,
    1118, 1120, 1132, 1135, 1150, 1153, 1184, 1190, 1212, 1215, 1233, 1236, 1245, 1249, 1285, 1313,
    1316, 1339, 1358, 1362, 1371, 1374, 1377, 1380, 1380, 1380, 1380, 1380, 1380, 1380, 1380, 1380,
    1380, 1406, 1432, 1449, 1462, 1477, 1488, 1518, 1557, 1572, 1582, 1603, 1625, 1640, 1648, 1653,
    1658, 1720, 1828, 1882, 1931, 1978, 2020, 2069, 2113, 2161, 2204, 2258, 2307, 2364, 2416, 2430,
    2445, 2501, 2541, 2581, 2619, 2631, 2647, 2664, 2677, 2700, 2726, 2741, 2756, 2777, 2795, 2809,
    2827, 2843, 2859, 2876, 2893, 2949, 3015, 3076, 3146, 3193, 3259, 3370, 3474, 3512, 3524, 3535,
    3549, 3582, 3582, 3626, 3672, 3716, 3741, 3795, 3795, 3795, 3863, 3863, 3904, 3927, 3950, 3950,
    3950, 3992, 3992, 3992, 3992, 4034, 4076, 4118, 4183, 4290, 4290, 4290, 4364, 4364, 4364, 4364,
    4410, 4469, 4497, 4497, 4536, 4588, 4616, 4616, 4673, 4673, 4673, 4673, 4730, 4730, 4730, 4746,
    4795, 4857, 4909, 4974, 5023, 5085, 5085, 5085, 5128, 5128, 5128, 5128, 5170, 5170, 5170, 5170,
    5181, 5192, 5204, 5216, 5235, 5257, 5273, 5294, 5329, 5329, 5353, 5353, 5367, 5382, 5404, 5404,
    5404, 5404, 5404, 5404, 5404, 5404, 5404, 5404, 5404, 5404, 5404, 5404, 5404, 5404, 5404, 5404,
    5404, 5404, 5404, 5404, 5404, 5404, 5404, 5404, 5404, 5404, 5404, 5404, 5404, 5404, 5404, 5404,
    5404, 5419, 5419, 5419, 5419, 5419, 5419, 5419, 5419, 5419, 5419, 5419, 5419, 5419, 5419, 5419,
    5419, 5419, 5419, 5419, 5419, 5419, 5419, 5419, 5419, 5419, 5419, 5419, 5419, 5419, 5419, 5446,
    5473, 5500, 5527, 5553, 5579, 5605, 5631, 5657, 5683, 5709, 5735, 5760, 5785, 5810, 5835, 5849,
    5864, 5902, 5940, 5977, 6014, 6051, 6088, 6107, 6107, 6107, 6150, 6192, 6234, 6276, 6318, 6318,
    6333, 6381, 6429, 6476, 6523, 6570, 6617, 6641, 6669, 6696, 6723, 6751, 6751, 6751, 6751, 6769,
    6803, 6803, 6803, 6811, 6849, 6849, 6849, 6849, 6849, 6849, 6849, 6849, 6849, 6849, 6849, 6872,
    6872, 6890, 6913, 6917, 6925, 6929, 6939, 7031, 7039, 7117, 7188, 7206, 7231, 7254, 7277, 7277,
    7277, 7291, 7291, 7310, 7310, 7310, 7310, 7310, 7310, 7310, 7310, 7310, 7310, 7310, 7310, 7310,
    7310, 7310, 7310, 7310, 7339, 7339, 7339, 7339, 7339, 7339, 7339, 7339, 7339, 7339, 7339, 7339,
    7339, 7339, 7339, 7339, 7339, 7339, 7339, 7339, 7339, 7339, 7339, 7339, 7339, 7339, 7339, 7339,
    7339, 7339, 7339, 7339, 7339, 7339, 7339, 7339, 7339, 7339, 7339, 7339, 7339, 7339, 7339, 7339,
    7339, 7339, 7339, 7359, 7359, 7380, 7391, 7412, 7424, 7436, 7447, 7459, 7459, 7466, 7466, 7466,
    7466, 7466, 7466, 7494, 7494, 7494, 7494, 7494, 7494, 7494, 7494, 7494, 7511, 7534, 7565, 7565,
    7565, 7565, 7600, 7628, 7656, 7656, 7656, 7656, 7693, 7693, 7693, 7732, 7758, 7814, 7838, 7866,
    7905, 7951, 7951, 7951, 7956, 7960, 7971, 7980, 7989, 7998, 8006, 8015, 8025, 8040, 8055, 8070,
    8086, 8102, 8118, 8134, 8150, 8159, 8168, 8177, 8186, 8195, 8202, 8210, 8217, 8228, 8237, 8246,
    8253, 8260, 8267, 8275, 8284, 8292, 8299, 8310, 8323, 8335, 8348, 8360, 8372, 8383, 8398, 8412,
    8421, 8432, 8442, 8451, 8461, 8468, 8477, 8485, 8499, 8511, 8522, 8535, 8544, 8555, 8565, 8575,
    8585, 8598, 8610, 8623, 8635, 8648,
];

// The rules of one bit have two codes each, from here on.
pub const BIT_FIRST: u16 = 128;

pub const ISS_RES0_FIRST: u16 = 190;

pub const CLASS_NAME_FIRST: u16 = 191;

pub const TI_FIRST: u16 = 255;

pub const AM_FIRST: u16 = 259;

pub const LD64B_ISS_FIRST: u16 = 267;

pub const DEBUG_STATUS_FIRST: u16 = 270;

pub const FAULT_STATUS_FIRST: u16 = 334;

pub const SET_TYPE_FIRST: u16 = 398;

pub const SAS_FIRST: u16 = 402;

pub const WU_FIRST: u16 = 406;

pub const AET_FIRST: u16 = 410;

pub const SERROR_STATUS_FIRST: u16 = 418;

pub const WNR_NOT_VALID_FIRST: u16 = 482;

pub const MESSAGE_FIRST: u16 = 483;

pub const MESSAGE_END_FIRST: u16 = 491;

pub const OWN_WORDS_FIRST: u16 = 499;

pub const MSR_READ_FIRST: u16 = 531;

pub const SYSTEM_REGISTER_FIRST: u16 = 533;
