//! Plans, and the limits of their numbers.
use redo_gather::{Plan, PlanFault};
use std::test::Fail;

/// Senders, capacities and limits.
static NUMBERS: &[(u32, u32, u64)] = &[
    (4, 64, 1),
    (1, 1, 1),
    (64, 65_536, 1_099_511_627_776),
    (2, 3, 1_073_741_824),
];

#[test]
fn plan_returns_its_numbers(rt: HostRuntime) -> Result<(), Fail> {
    for numbers in NUMBERS {
        let plan = Plan::new(numbers.0, numbers.1, numbers.2)?;
        let found = (plan.senders(), plan.capacity(), plan.max_bytes());
        assert_eq!(rt; found, *numbers);
    }
    Ok(())
}

/// Numbers out of range, and the fault.
static REFUSED: &[(u32, u32, u64, PlanFault)] = &[
    (0, 0, 0, PlanFault::Senders),
    (65, 1, 1, PlanFault::Senders),
    (1, 0, 1, PlanFault::Capacity),
    (64, 0, 0, PlanFault::Capacity),
    (1, 65_537, 1, PlanFault::Capacity),
    (1, 1, 0, PlanFault::MaxBytes),
    (1, 1, 1_099_511_627_777, PlanFault::MaxBytes),
];

#[test]
fn plan_rejects_first_number_out_of_range(rt: HostRuntime) {
    for (senders, capacity, max_bytes, fault) in REFUSED {
        assert_eq!(rt;
            Plan::new(*senders, *capacity, *max_bytes).err(),
            Some(*fault),
            "{senders} {capacity} {max_bytes}"
        );
    }
}
