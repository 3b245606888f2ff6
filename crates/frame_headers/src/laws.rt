//! Theorems about the definitions of this crate. Each function does nothing: its contract is the theorem.
ghost use Rattle.frame_headers.specs.HeaderLaws.{HeadersAreSound, SegmentsFit, PayloadsAreInPlace};

/// Written headers have the length that is told, both checksums are filled, and the fields are read back.
pub fn headers_are_sound()
    ensures { HeadersAreSound }
{}

/// The fields of a captured segment fit their places in the headers of a written one, and its two peers differ.
pub fn segments_fit()
    ensures { SegmentsFit }
{}

/// The payload of a captured segment lies in its frame, after the three headers.
pub fn payloads_are_in_place()
    ensures { PayloadsAreInPlace }
{}
