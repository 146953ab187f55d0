//! Steals of several threads.

ghost use Rattle.model_tests.specs.BatchRows.{BatchMisses, BatchedPoliciesFit, BatchesOfThreads, BatchesOfWeights};

/// The policies with a batch are resolved and meet what they owe.
pub fn batched_policies_fit()
    ensures { BatchedPoliciesFit }
{}

/// Six threads of one weight, under batches of several limits.
pub fn batches_of_threads()
    ensures { BatchesOfThreads }
{}

/// Threads of several weights.
pub fn batches_of_weights()
    ensures { BatchesOfWeights }
{}

/// Changes of the list of a steal.
pub fn batch_misses()
    ensures { BatchMisses }
{}
