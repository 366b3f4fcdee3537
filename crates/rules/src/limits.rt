// The limits of a sheet, but for that of its bytes, which the first round has.

// The slots of a context.
pub const SLOTS: usize = 16;

// The second branches that may wait at one time.
pub const WAITING: usize = 16;

// The list types of a sheet.
pub const TYPES: usize = 32;

// The functions of a sheet.
pub const FUNCTIONS: usize = 32;
