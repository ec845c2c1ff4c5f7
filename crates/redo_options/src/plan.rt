//! The plan of a run. It needs nothing from gathering, so its mutants are tried in seconds here. `redo_gather` re-exports it.
ghost use Rattle.std.specs.Prelude.{◌≡◌, ◌↔◌, Err, IfOk};
ghost use Rattle.redo_options.specs.Limits.{IsSenderCount, IsCapacity};
ghost use Rattle.redo_options.specs.Plan.{IsByteLimit};

use std::marker::Model;

// The maximum of each number of a plan.
const MAX_SENDERS: u32 = 64;

const MAX_CAPACITY: u32 = 65_536;

const MAX_BYTES: u64 = 1 << 40;

/// Why a plan is rejected: this number is out of range. If several are, the first in this order is reported.
#[derive(Clone, Copy, Debug, PartialEq, Eq)]
pub enum PlanFault {
    /// There are no senders, or more than 64.
    Senders,
    /// The mailbox's capacity is 0, or greater than 65,536.
    Capacity,
    /// The size limit of a stream is 0 bytes, or greater than 1,099,511,627,776.
    MaxBytes,
}

/// The number of senders that read the streams, the capacity of the mailbox and the size limit of a stream in bytes.
/// Each number is in range.
#[derive(Clone, Copy, Debug)]
pub struct Plan {
    senders: u32,
    capacity: u32,
    max_bytes: u64,
}

impl Model for Plan {
    ghost use Rattle.redo_options.specs.Plan.{PlanNumbers, IsPlan};

    ghost Value = { PlanNumbers };

    ghost view = { λ plan. record { senders = plan.senders; capacity = plan.capacity; max_bytes = plan.max_bytes } };

    ghost invariant = { λ plan. IsPlan (record { senders = plan.senders; capacity = plan.capacity; max_bytes = plan.max_bytes }) };

    ghost inverse = { λ numbers. record { senders = numbers.senders; capacity = numbers.capacity; max_bytes = numbers.max_bytes } };
}

impl Plan {
    /// Creates a plan with 1 to 64 senders, a capacity of 1 to 65,536 items and a size limit of 1 to
    /// 1,099,511,627,776 bytes for each stream.
    pub fn new(senders: u32, capacity: u32, max_bytes: u64) -> Result<Plan, PlanFault>
        ensures plan { IfOk result (λ plan. plan ≡ record { senders = senders; capacity = capacity; max_bytes = max_bytes }) }
        // The fault is the first number out of range, and there is none otherwise.
        ensures senders { (result ≡ Err PlanFault.Senders) ↔ (IsSenderCount senders → ⊥) }
        ensures capacity { (result ≡ Err PlanFault.Capacity) ↔ (IsSenderCount senders × (IsCapacity capacity → ⊥)) }
        ensures max_bytes { (result ≡ Err PlanFault.MaxBytes)
            ↔ (IsSenderCount senders × IsCapacity capacity × (IsByteLimit max_bytes → ⊥)) }
    {
        if senders < 1 || senders > MAX_SENDERS {
            return Err(PlanFault::Senders);
        }
        if capacity < 1 || capacity > MAX_CAPACITY {
            return Err(PlanFault::Capacity);
        }
        if max_bytes < 1 || max_bytes > MAX_BYTES {
            return Err(PlanFault::MaxBytes);
        }
        Ok(Plan {
            senders,
            capacity,
            max_bytes,
        })
    }

    /// Returns the number of senders.
    pub fn senders(&self) -> u32
        ensures value { result ≡ self.now.senders }
        ensures limits { IsSenderCount result }
    {
        self.senders
    }

    /// Returns the capacity of the mailbox: the number of items that it holds at most.
    pub fn capacity(&self) -> u32
        ensures value { result ≡ self.now.capacity }
        ensures limits { IsCapacity result }
    {
        self.capacity
    }

    /// Returns the number of bytes that a stream has at most.
    pub fn max_bytes(&self) -> u64
        ensures value { result ≡ self.now.max_bytes }
        ensures limits { IsByteLimit result }
    {
        self.max_bytes
    }
}
