//! How many packets of a capture are of each class.
use frame_headers::Class;

/// The number of packets of each class, by the names of `frame_headers::Class`.
#[derive(Clone, Copy, Debug, PartialEq, Eq)]
pub struct Counts {
    pub segment: u32,
    pub short: u32,
    pub not_ipv4: u32,
    pub bad_ipv4: u32,
    pub fragment: u32,
    pub not_tcp: u32,
    pub cut: u32,
    pub bad_tcp: u32,
    pub same_ends: u32,
}

impl Counts {
    ghost use Rattle.std.specs.Prelude.{◌≡◌, ◌+◌, ◌<◌, ◌^◌, []};
    ghost use Rattle.frame_headers.specs.Class.{frame_class_of};
    ghost use Rattle.frame_headers.specs.Frame.{FrameClass};
    ghost use Rattle.conn_table.specs.Partials.{counts_sum};
    ghost use Rattle.conn_table.specs.ClassCounts.{counts_of, counts_with, count_at};

    #[tactic(auto, unfolding(crate::specs::ClassCounts::counts_of))]
    pub(crate) fn none() -> Self
        ensures { result ≡ counts_of [] }
    {
        Counts {
            segment: 0,
            short: 0,
            not_ipv4: 0,
            bad_ipv4: 0,
            fragment: 0,
            not_tcp: 0,
            cut: 0,
            bad_tcp: 0,
            same_ends: 0,
        }
    }

    pub(crate) fn add(&mut self, class: &Class<'_>)
        requires { count_at (frame_class_of class.now) self.old + 1 < 2 ^ 32 }
        ensures { self.new ≡ counts_with (frame_class_of class.now) self.old }
    {
        match class {
            Class::Segment(_) => self.segment += 1,
            Class::Short => self.short += 1,
            Class::NotIpv4 => self.not_ipv4 += 1,
            Class::BadIpv4 => self.bad_ipv4 += 1,
            Class::Fragment => self.fragment += 1,
            Class::NotTcp => self.not_tcp += 1,
            Class::Cut => self.cut += 1,
            Class::BadTcp => self.bad_tcp += 1,
            Class::SameEnds => self.same_ends += 1,
        }
    }

    pub(crate) fn plus(self, more: Counts) -> Self
        requires { (k : FrameClass) → count_at k self + count_at k more < 2 ^ 32 }
        ensures { result ≡ counts_sum self more }
    {
        Counts {
            segment: self.segment + more.segment,
            short: self.short + more.short,
            not_ipv4: self.not_ipv4 + more.not_ipv4,
            bad_ipv4: self.bad_ipv4 + more.bad_ipv4,
            fragment: self.fragment + more.fragment,
            not_tcp: self.not_tcp + more.not_tcp,
            cut: self.cut + more.cut,
            bad_tcp: self.bad_tcp + more.bad_tcp,
            same_ends: self.same_ends + more.same_ends,
        }
    }
}
