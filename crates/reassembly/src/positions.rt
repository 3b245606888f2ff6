//! The positions of members' payloads and FINs (RFC 9293 section 3.4).
ghost use Rattle.std.specs.Prelude.{◌≡◌, ◌≤◌, ◌<◌, ◌+◌, ◌^◌, length, find, position, option_map, IfSome};
ghost use Rattle.reassembly.specs.Positions.{sequence_space};
ghost use Rattle.reassembly.specs.Spans.{span_of, end_of, limit};
ghost use Rattle.reassembly.specs.MemberSpans.{IsInFile, member_position, member_span, members_before_reset, is_reset_member, is_server_answer};
ghost use Rattle.pcap_records.specs.CaptureView.{bytes_of};

use crate::patches::Patch;
use conn_table::Member;
use frame_headers::Flags;
use pcap_records::{FileBytes, Moment};

/// Position 0, shifted. A shifted position is 2^31 more than the position, so that it is not negative.
pub(crate) const ORIGIN: usize = 1 << 31;

/// The shifted position at which a member's payload begins.
pub(crate) fn shifted_start(base: u32, member: &Member) -> usize
    ensures exact { result ≡ member_position base member.now }
    ensures near { result < sequence_space }
{
    let opens = u32::from(member.flags.has(Flags::SYN));
    member
        .seq
        .wrapping_add(opens)
        .wrapping_sub(base)
        .wrapping_sub(1)
        .wrapping_add(ORIGIN as u32) as usize
}

/// The shifted position at which the payload ends, and at which a FIN of the member stands.
pub(crate) fn shifted_end(base: u32, member: &Member) -> usize
    ensures { result ≡ member_position base member.now + member.now.len }
{
    shifted_start(base, member) + len_of(member)
}

fn len_of(member: &Member) -> usize
    ensures exact { result ≡ member.now.len }
    ensures short { result < 2 ^ 16 }
{
    let len = member.len;
    usize::from(len)
}

/// The patch of a member's payload, without the bytes before position 0.
pub(crate) fn patch_of<'a>(base: u32, member: &Member, file: FileBytes<'a>) -> Patch<'a>
    requires { IsInFile (bytes_of file) member.now }
    ensures exact { span_of result ≡ member_span base (bytes_of file.entry) member.now }
    ensures near { end_of (span_of result) ≤ limit }
{
    let position = shifted_start(base, member);
    let start = member.start as usize;
    let payload = file.slice(start, len_of(member));
    let hidden = ORIGIN.saturating_sub(position).min(payload.len());
    Patch {
        from: position.saturating_sub(ORIGIN),
        at: member.at,
        bytes: &payload[hidden..],
    }
}

pub(crate) fn effective_members(members: &[Member]) -> &[Member]
    ensures { result.now ≡ members_before_reset members.entry.now }
{
    match first_reset(members) {
        Some(count) => &members[..count],
        None => members,
    }
}

fn first_reset(members: &[Member]) -> Option<usize>
    ensures exact { result ≡ position is_reset_member members.now }
    ensures within { IfSome result (λ count. count < length members.now) }
{
    members.iter().position(|m| m.flags.has(Flags::RST))
}

pub(crate) fn reset_at(members: &[Member]) -> Option<Moment>
    ensures { result ≡ option_map (λ m. m.at) (find is_reset_member members.now) }
{
    members
        .iter()
        .find(|m| m.flags.has(Flags::RST))
        .map(|m| m.at)
}

/// The sequence number of the server's first SYN with ACK.
pub(crate) fn server_base(members: &[Member]) -> Option<u32>
    ensures { result ≡ option_map (λ m. m.seq) (find is_server_answer members.now) }
{
    members
        .iter()
        .find(|m| !m.from_client && m.flags.has(Flags::SYN) && m.flags.has(Flags::ACK))
        .map(|m| m.seq)
}
