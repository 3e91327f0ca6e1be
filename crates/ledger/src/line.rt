//! The month file, line by line.
use limits::MONTHS_ON_FILE;

/// How many lines the month file has for each member: thirteen components of each month on file.
pub const MEMBER_LINES: usize = MONTHS_ON_FILE * 13;

/// The units last read and the cents billed to date, of one month, component and member.
#[derive(Clone, Copy, PartialEq, Eq, Debug)]
pub struct Line {
    pub units: u32,
    pub cents: i64,
}
