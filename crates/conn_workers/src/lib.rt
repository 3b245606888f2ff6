//! What each connection of a capture contributes to each scenario: its written segments and its line of the report.
//!
//! `deliver` gives it for all scenarios (`specs/Recordings.antt`), and `deliver_row` for one, in shares (`specs/RowShares.antt`).
//! `report_texts` gives only the lines. The program calls the last two, and `run_summary`, which tells what a run has seen.
#![tactic(auto)]

mod crews;
mod deliveries;
mod jobs;
pub mod laws;
mod met_proxies;
mod recordings;
mod row_ranges;
mod row_shares;
mod scenario_texts;
mod summaries;
mod under_scenario;

pub use crews::Workers;
pub use deliveries::{Deliveries, Delivery, deliver};
pub use met_proxies::met_proxy;
pub use recordings::{Recording, Recordings, record, record_alone};
pub use row_shares::{RowShare, RowShares, deliver_row, deliver_row_alone};
pub use scenario_texts::{ShareTexts, report_texts, report_texts_alone};
pub use summaries::{RunSummary, SeenConn, conns_together, run_summary, seen_conns};
pub use under_scenario::UnderScenario;
