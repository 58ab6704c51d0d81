/// The greatest number of bytes of a file that is read.
pub const FILE_LIMIT: usize = 1_048_576;
