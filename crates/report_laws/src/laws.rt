//! Theorems about the definition of reports. The functions do nothing: the contract of each is the theorem.
ghost use Rattle.report_laws.specs.SeenHeads.{FrameSeesHead, ReportSeesHeads, SummarySeesHeads, ReportSeesLengths};

/// Two captures that differ only in payload bytes of TCP segments have the same report of each scenario, with any seed.
/// So a secret can be replaced by as many other bytes, and no report changes.
#[tactic(auto, using(crate::proofs::ZeroedReports::report_sees_lengths))]
pub fn report_sees_lengths()
    ensures { ReportSeesLengths }
{}

/// Two packets of equal length with the same head (`head_len` of `pcap_records`) are seen as the same frame, except for payload bytes.
/// Only headers and lengths are looked at. A head is a packet's first 48 bytes if it has no tag and no IPv4 options, else its first 98.
#[tactic(auto, using(crate::proofs::FrameHeads::frame_sees_head))]
pub fn frame_sees_head()
    ensures { FrameSeesHead }
{}

/// Reports and the summary of a run depend on a capture's ticks, on the number of bytes after its last whole record, and on its packets.
/// Of a packet only the stamp, the length and the head count.
/// So a capture of which only the heads are kept has the same reports and summary.
#[tactic(auto, using(crate::proofs::SeenHeads::report_sees_heads, crate::proofs::SeenHeads::summary_sees_heads))]
pub fn report_sees_heads()
    ensures report { ReportSeesHeads }
    ensures summary { SummarySeesHeads }
{}
