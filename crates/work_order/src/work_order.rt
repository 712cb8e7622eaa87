ghost use Rattle.std.specs.Prelude.{◌≡◌, ◌<◌, ◌≤◌, ℕ, All, Contains, IfOk, length};
ghost use Rattle.summary.specs.NewAddresses.{new_top};
ghost use Rattle.work_order.specs.Chains.{IsLongestChain};
ghost use Rattle.work_order.specs.WorkOrder.{IsLeastEnough, speedup_of, workers_of};

use crate::chains::longest_chains;
use std::alloc::{AllocError, Global};
use std::fmt;
use summary::Plan;
use summary::laws::region_data::regions_to_fill;

/// The most workers of a collection.
const MOST_WORKERS: u64 = 64;

/// The parallelism that the order of work of a collection allows.
///
/// Work is counted in the words that a fill leaves in its region. A fill counts as a whole: a region that waits for another
/// begins when that one is filled.
#[derive(Debug, Clone, Copy, PartialEq, Eq)]
pub struct WorkOrder {
    /// The words of the longest chain of regions that wait for each other.
    pub chain: u64,
    /// The words of all regions to fill: the new top.
    pub words: u64,
    ghost some: { chain ≡ 0 → words ≡ 0 },
    ghost few: { words ≤ 68719476736 },
}

impl WorkOrder {
    /// Computes the longest chain of a plan. Allocates 8 bytes for each region to fill.
    pub fn of(alloc: Global, plan: &Plan) -> Result<WorkOrder, AllocError>
        ensures chain { IfOk result (λ order. IsLongestChain plan.now order.chain) }
        ensures words { IfOk result (λ order. order.words ≡ new_top plan.now) }
    {
        regions_to_fill();
        let chains = longest_chains(alloc, plan)?;
        let chain = largest(chains.as_slice());
        let words = plan.new_top();
        Ok(WorkOrder { chain, words })
    }

    /// The largest speed-up of many workers over one, in hundredths, rounded down.
    pub fn speedup(&self) -> u64
        ensures { result ≡ speedup_of self.now.words self.now.chain }
    {
        if self.chain == 0 {
            100
        } else {
            self.words * 100 / self.chain
        }
    }

    /// The least number of workers that could fill all regions in the time of the longest chain. More don't pay.
    pub fn workers(&self) -> u64
        ensures value { result ≡ workers_of self.now.words self.now.chain }
        ensures least { IsLeastEnough self.now.words self.now.chain result }
    {
        if self.chain == 0 {
            1
        } else {
            self.words.div_ceil(self.chain).max(1)
        }
    }
}

/// The largest of these numbers, or 0 if there are none.
fn largest(numbers: &[u64]) -> u64
    ensures bound { All (λ n. n ≤ result) numbers.now }
    ensures reached { (i : ℕ) → i < length numbers.now → Contains numbers.now result }
    ensures none { length numbers.now ≡ 0 → result ≡ 0 }
{
    match numbers.iter().copied().max() {
        Some(largest) => largest,
        None => 0,
    }
}

impl fmt::Display for WorkOrder {
    ghost use Rattle.std.specs.Prelude.{Some};
    ghost use Rattle.work_order.specs.WorkOrder.{order_text};

    ghost output = { λ order. Some (order_text order.words order.chain) };

    fn fmt<W: fmt::Write>(&self, f: &mut fmt::Formatter<W>) -> fmt::Result {
        let WorkOrder { chain, words } = *self;
        let speedup = self.speedup();
        let (whole, tenth, hundredth) = (speedup / 100, speedup / 10 % 10, speedup % 10);
        write!(
            f,
            "chain {chain} words {words} speedup {whole}.{tenth}{hundredth}"
        )?;
        write!(f, " workers {}", self.workers().min(MOST_WORKERS))
    }
}
