//! Theorems about the definitions of this crate. Each function does nothing: its contract is the theorem.
ghost use Rattle.run_files.specs.{AreDecoded, ReadsBack, DraftPathsDiffer};

/// The hexadecimal digits of some bytes, all in lower or all in upper case, with any blanks, are a dump of these bytes.
pub fn dumps_read_back()
    ensures { ReadsBack }
{}

/// The bytes of a dump are those that hex decodes of its text without blanks.
pub fn dumps_decode()
    ensures { AreDecoded }
{}

/// Drafts at different places of a folder that has a path have different paths.
pub fn draft_paths_differ()
    ensures { DraftPathsDiffer }
{}
