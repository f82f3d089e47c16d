// The rows of a syndrome above its ISS, and ISS's own with the rule that the layout has for it.
use records::{Row, kinds as k};
use texts::{names as n, rules as r};

pub const RES0: Row = Row {
    start: 37,
    width: 27,
    name: n::RES0,
    long: n::RES0_LONG,
    rule: r::PLAIN,
    kind: k::CHECKED,
};

pub const ISS2: Row = Row {
    start: 32,
    width: 5,
    name: n::ISS2,
    long: n::NONE,
    rule: r::PLAIN,
    kind: k::FREE,
};

pub const EC: Row = Row {
    start: 26,
    width: 6,
    name: n::EC,
    long: n::EC_LONG,
    rule: r::CLASS_NAME,
    kind: k::EC,
};

pub const IL: Row = Row {
    start: 25,
    width: 1,
    name: n::IL,
    long: n::IL_LONG,
    rule: r::IL,
    kind: k::FREE,
};

// A layout puts its own rule in the place of this one.
pub const ISS: Row = Row {
    start: 0,
    width: 25,
    name: n::ISS,
    long: n::ISS_LONG,
    rule: r::PLAIN,
    kind: k::FREE,
};
