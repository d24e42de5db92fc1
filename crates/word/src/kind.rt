// The kinds of broken rules, by their numbers; written by scripts/table from specs/Kinds.antt. What each one means stands beside its definition.
#[derive(Clone, Copy)]
pub struct Kind {
    pub number: u8,
}

impl Kind {
    pub const TOO_LONG: u8 = 1;

    pub const NOT_JSON: u8 = 2;

    pub const UNPAIRED: u8 = 3;

    pub const TOO_DEEP: u8 = 4;

    pub const NAME_TWICE: u8 = 5;

    pub const MISSING: u8 = 6;

    pub const WRONG_TYPE: u8 = 7;

    pub const NUMBER_FORM: u8 = 8;

    pub const OUT_OF_RANGE: u8 = 9;

    pub const TOO_MANY: u8 = 10;

    pub const BAD_RING: u8 = 11;

    pub const ID_TWICE: u8 = 12;

    pub const DANGLING: u8 = 13;

    pub const CONDITION: u8 = 14;

    pub const SUM_DIFFERS: u8 = 15;
}
