//! Theorems about the definitions of this crate: the contracts of functions that do nothing, or name the theorems that they stand on.
ghost use Rattle.toxicap.specs.{RefusedByTexts, OutputsAreRead, OutputsAreIsolated, KilledRunsAreMended, FilesAreLoadedInOrder, ByteOrderDoesNotMatter};
ghost use Rattle.toxicap.specs.{ReportsSeeLengths};

use disks::laws::published_again;
use frame_headers::laws::{headers_are_sound, segments_fit};
use pcap_records::laws::{readings_split, written_is_read};
use report_laws::laws::report_sees_lengths;
pub use run_files::laws::{draft_paths_differ, dumps_read_back};
use segment_writer::laws::sorted_never_falls;
use std::io::{Read, Write};

/// Two captures with the same unit of time, records and rest are rehearsed alike, whichever order the bytes of their fields have.
#[tactic(auto, unfolding(crate::specs::Rehearsal::answer))]
pub fn byte_order_does_not_matter()
    ensures { ByteOrderDoesNotMatter }
{}

/// Each capture that a rehearsal gives is read back as a whole file without a rest, if it is no longer than a capture may be. Its records
/// are in order of time, and each holds a TCP segment with both checksums right. So the output of one rehearsal can be the input of another.
pub fn outputs_are_read()
    ensures { OutputsAreRead }
{
    readings_split();
    written_is_read();
    headers_are_sound();
    segments_fit();
    sorted_never_falls();
}

/// What a text calls for is refused only by a fault of the texts. No host is refused then, and no call of a reader, a writer or a shelf has
/// failed.
#[tactic(auto, using(crate::proofs::TextsTaken::of_called))]
pub fn refused_by_texts()
    ensures { RefusedByTexts }
{}

/// Named files are loaded in order, each at its own path; if some cannot be loaded, the fault of the first of them counts.
pub fn files_are_loaded_in_order()
    ensures { FilesAreLoadedInOrder }
{}

/// A run is killed at any moment, and run again. If it calls for the same outputs again and ends with status 0, each path then holds what a
/// whole run of status 0 leaves there.
pub fn killed_runs_are_mended<I: Read, O: Write>()
    ensures { KilledRunsAreMended I.remaining O.contents }
{
    published_again();
}

/// Two captures may differ only in bytes of the payloads of TCP segments. Then they have the same reports, whatever the scenarios and the
/// seed, or the same refusal. So as many other bytes in place of a secret change no report.
pub fn reports_see_lengths()
    ensures { ReportsSeeLengths }
{
    report_sees_lengths();
}

/// Two scenarios have the same number in their lists, for one capture and one seed. A connection that meets the same proxy under both has the
/// same line in both reports. If each connection between its two ends does, both output captures, as they are read, have the same records
/// between these ends, in the same order. What other connections meet changes neither.
pub fn outputs_are_isolated()
    ensures { OutputsAreIsolated }
{
    readings_split();
    written_is_read();
    headers_are_sound();
    segments_fit();
    sorted_never_falls();
}
