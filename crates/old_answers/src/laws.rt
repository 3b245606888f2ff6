//! The theorem about the definitions of this crate: the contract of the function.
ghost use Rattle.old_answers.specs.OldAnswers.{OldAnswersAreKept};

use pcap_records::laws::readings_split;

/// A capture with the magic number of files in microseconds, and without a frame whose bytes 12 and 13 are `81 00`, is answered as before.
/// It gets the same outputs, or the same refusal. `answer_before` is the outcome as it was defined then.
pub fn old_answers_are_kept()
    ensures { OldAnswersAreKept }
{
    readings_split();
}
