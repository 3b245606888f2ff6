//! The text of a report: `report` makes all of it, `report_head` its first two lines, and `line` or `put_line` the line of a connection.
#![tactic(auto)]

mod lines;
mod reports;
mod rows;
mod sides;
mod texts;

pub use lines::{LINE_ROOM, line, put_line};
pub use reports::{report, report_head};
pub use texts::ReportText;
