//! Theorems about the definitions of this crate. The contract of each function, which does nothing, is the theorem.
ghost use Rattle.disks.specs.DraftPaths.{DraftsAreNamed};
ghost use Rattle.disks.specs.Histories.{PublishedAgain, PublishingLeavesWhole};

/// Whenever work is cut off, each path holds what it held before, or one whole file of those that were to be published.
pub fn publishing_leaves_whole()
    ensures { PublishingLeavesWhole }
{}

/// Files that cut-off work published, and that the whole work then publishes again, are as if the whole work were done once.
pub fn published_again()
    ensures { PublishedAgain }
{}

/// The path of a file in a folder is that of a draft exactly if its name is one of a draft.
pub fn drafts_are_named()
    ensures { DraftsAreNamed }
{}
