ghost use Rattle.std.specs.Prelude.{◌≡◌, ℕ, false};

/// Admits each fill, and is notified of its completion. Workers call it concurrently, from their own threads.
///
/// A gate states for which workers and regions it may refuse; it admits all others.
pub trait Gate {
    /// The workers and regions that the gate may refuse.
    ghost may_refuse: { Self → ℕ → ℕ → Type 0 };

    /// Whether `worker` may fill `region`, which it has claimed. A refusal stops the whole collection.
    fn before_fill(&self, worker: u32, region: u32) -> bool
        ensures { result ≡ false → may_refuse self.now worker region };

    /// Notifies the gate that `worker` has filled and completed `region`, and is about to settle it.
    fn after_complete(&self, worker: u32, region: u32);
}

/// A gate that refuses nothing.
#[derive(Debug, Clone, Copy)]
pub struct OpenGate;

impl Gate for OpenGate {
    ghost may_refuse = { λ _ _ _. ⊥ };

    fn before_fill(&self, _worker: u32, _region: u32) -> bool {
        true
    }

    fn after_complete(&self, _worker: u32, _region: u32) {}
}
