// The limits of document 01, as code says them. The contracts say them by the names of specs/Limits.
pub const MOST_FACTS: u64 = 64;

pub const MOST_ACTIONS: u64 = 255;

pub const MOST_TASKS: u64 = 256;

pub const MOST_METHODS: u64 = 512;

pub const MOST_SUBTASKS: u64 = 8;

pub const MOST_COST: u64 = 65535;

pub const MOST_BOUND: u64 = 64;

pub const MOST_TABLE_BYTES: usize = 32768;

pub const MOST_PLAN_BYTES: usize = 65536;

pub const MOST_SECTION_BYTES: usize = 2048;

pub const MOST_LIMIT: u64 = 256;

pub const MOST_BUDGET: u64 = 1000000;

pub const METHOD_WORDS: u64 = 1024;
