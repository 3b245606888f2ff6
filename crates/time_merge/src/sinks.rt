//! Where a capture is written.
ghost use Rattle.std.specs.Prelude.{◌≡◌};

/// Where a capture is written. After each record it is offered the bytes that it has not taken yet. What it leaves after the last record is
/// returned to the caller of [`write_capture`](crate::write_capture). Contracts see the bytes that it `took`, and the `place` where it keeps
/// them.
pub trait CaptureSink {
    ghost use Rattle.std.specs.Prelude.{◌≡◌, ℕ, List};
    ghost use Rattle.time_merge.specs.Sinks.{IsOffered};

    ghost took: { Self → List ℕ → Type 0 };

    ghost place: { Self → List ℕ };

    /// Takes all bytes of a batch, which has none then, or none of them.
    fn offer(&mut self, batch: &mut Vec<u8>)
        ensures taken { (had : List ℕ) → took self.old had → IsOffered (took self.new) had batch.old.items batch.new.items }
        ensures same { place self.new ≡ place self.old };
}

/// Takes nothing: what is written stays in the memory of the batch.
#[derive(Drop)]
pub(crate) struct InMemory;

impl CaptureSink for InMemory {
    ghost use Rattle.std.specs.Prelude.{◌≡◌, []};

    ghost took = { λ _ had. had ≡ [] };

    ghost place = { λ _. [] };

    fn offer(&mut self, _batch: &mut Vec<u8>) {}
}
