// The codes, limits and sizes of paper 01 that the code names, as in specs/Codes.antt and specs/State.antt. Codes are numbers and no enums, since lent words
// and bytes may hold any: conditions 5 and 8 decide of those outside the lists.
pub const CLOSED: u32 = 0;

pub const PRE_OPEN: u32 = 1;

pub const OPENED: u32 = 2;

pub const BREAK: u32 = 3;

pub const PRE_CLOSE: u32 = 4;

pub const OPEN_MARK: u32 = 1;

pub const CANCELLED_MARK: u32 = 2;

pub const MAIN_BOARD: u32 = 0;

pub const FOREIGN_BOARD: u32 = 1;

pub const BUY: u32 = 0;

pub const SELL: u32 = 1;

pub const LIMIT: u32 = 0;

pub const ATO: u32 = 1;

pub const ATC: u32 = 2;

pub const MP: u32 = 3;

pub const ONLINE: u32 = 1;

pub const DMA: u32 = 2;

pub const LAST_TIME: u32 = 86_399_999;

pub const MAX_CUSTOMERS: u32 = 256;

pub const MAX_SECURITIES: u32 = 1_024;

pub const MAX_VOLUME: u32 = 20_000_000;

pub const MAX_SHARES: u32 = 65_535;

pub const DESK_ROWS: usize = 32;

pub const MINUTE: u64 = 60_000;

// The words of the header that an event sets.
pub const CLOCK_PLACE: usize = 2;

pub const SESSION_PLACE: usize = 3;

// Sizes in words.
pub const HEADER_SIZE: usize = 4;

pub const SECURITY_SIZE: usize = 17;

pub const ROW_SIZE: usize = 9;

pub const COUNTERS_SIZE: usize = 3;

pub const ROWS_SIZE: usize = 288;

pub const DESK_SIZE: usize = 291;
