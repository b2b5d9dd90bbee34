// The rules, models and scans on which the functions are called.
pub const POOL: [u8; 23] = [
    1, 2, 5, 5, 1, 1, 5, 5, 1, 16, 0, 31, 6, 5, 0, 4, 5, 1, 3, 5, 2, 7, 0,
];

pub const UNGUARDED: [u8; 3] = [6, 7, 0];

// The paper's second family with m = 10, which has over 1,000 equations.
pub const MANY: [u8; 37] = [
    1, 255, 0, 31, 1, 1, 5, 5, 6, 4, 5, 0, 7, 0, 5, 1, 5, 0, 5, 0, 5, 0, 5, 0, 5, 0, 5, 0, 5, 0, 5,
    0, 5, 0, 5, 0, 2,
];

// The same with m = 8: 256 equations.
pub const PAST_BYTES: [u8; 33] = [
    1, 255, 0, 31, 1, 1, 5, 5, 6, 4, 5, 0, 7, 0, 5, 1, 5, 0, 5, 0, 5, 0, 5, 0, 5, 0, 5, 0, 5, 0, 5,
    0, 2,
];

// The same with m = 5: 32 equations, as many as the rule page shows.
pub const FULL_PAGE: [u8; 27] = [
    1, 255, 0, 31, 1, 1, 5, 5, 6, 4, 5, 0, 7, 0, 5, 1, 5, 0, 5, 0, 5, 0, 5, 0, 5, 0, 2,
];

// Both "after any code, tt" and that formula: the first equation doesn't come again, so there are 33.
pub const OVER_PAGE: [u8; 31] = [
    1, 255, 0, 31, 1, 1, 5, 5, 4, 5, 0, 2, 6, 4, 5, 0, 7, 0, 5, 1, 5, 0, 5, 0, 5, 0, 5, 0, 5, 0, 2,
];

pub const BREAKS: [u8; 13] = [16, 3, 17, 0, 37, 1, 18, 1, 2, 17, 2, 5, 0];

pub const MEETS: [u8; 17] = [16, 3, 17, 0, 37, 1, 18, 1, 2, 17, 2, 128, 0, 17, 0, 5, 2];

pub const CUT: [u8; 4] = [16, 2, 17, 0];

pub const SCANS: [u8; 6] = [37, 5, 128, 5, 37, 5];

pub const FIVES: [u8; 6] = [5, 5, 5, 5, 5, 5];

// Both "after code 5, ff", its node 2, and "after code 37, ff", its node 4.
pub const EITHER: [u8; 15] = [1, 1, 5, 5, 1, 2, 5, 5, 4, 5, 0, 3, 5, 1, 3];

// Both "after code 5, after code 37, ff" and "after code 37, after code 37, ff": 4 equations, of which two drop alike.
pub const ALIKE: [u8; 19] = [1, 1, 5, 5, 1, 2, 5, 5, 4, 5, 0, 5, 1, 3, 5, 1, 5, 1, 3];

pub const NOTHING: [u8; 0] = [];

pub const CANCELLED: [u8; 1] = [37];

pub const SYNCED: [u8; 2] = [37, 128];

pub const VIOLATING: [u8; 2] = [37, 5];
