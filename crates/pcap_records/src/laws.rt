//! Theorems about the definitions of this crate. Each function does nothing: its contract is the theorem.
ghost use Rattle.pcap_records.specs.Instants.{CarriedIsWhole};
ghost use Rattle.pcap_records.specs.Writing.{WrittenIsRead};
ghost use Rattle.pcap_records.specs.Grammar.{ReadingsSplit, SplitsAreRead, RefusalsSplit, SplitsAreRefused};

/// Each reading has a split by the grammar.
pub fn readings_split()
    ensures { ReadingsSplit }
{}

/// The reading of a file that has a split is that of the split, so a file has at most one split.
pub fn splits_are_read()
    ensures { SplitsAreRead }
{}

/// A file that is refused at record k has k whole records and then a header that announces too much.
pub fn refusals_split()
    ensures { RefusalsSplit }
{}

/// A file of k whole records and then a header that announces too much is refused at record k.
pub fn splits_are_refused()
    ensures { SplitsAreRefused }
{}

/// Instants that are carried into a range are the instants of the whole file there.
pub fn carried_is_whole()
    ensures { CarriedIsWhole }
{}

/// If packets have records, the file that is written of them is read back as these packets.
pub fn written_is_read()
    ensures { WrittenIsRead }
{}
