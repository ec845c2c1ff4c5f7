//! A mailbox with two post ends.
ghost use Rattle.std.specs.Prelude.{◌≡◌, ◌≤◌, ◌^◌};

use redo_wire::{PostEnd, TakeEnd, open};
use std::alloc::{AllocError, Global};

#[derive(Drop)]
pub struct Two {
    pub mailbox: TakeEnd,
    pub first: PostEnd,
    pub second: PostEnd,
    ghost of_first: { first.mailbox ≡ mailbox.mailbox },
    ghost of_second: { second.mailbox ≡ mailbox.mailbox },
}

/// Opens a mailbox of this capacity with two post ends.
pub fn two_ended(alloc: Global, capacity: u32) -> Result<Two, AllocError>
    requires { (1 ≤ capacity) × (capacity ≤ 2 ^ 16) }
{
    let (mailbox, mut ends) = open(alloc, capacity, 2)?;
    let (Some(second), Some(first)) = (ends.pop(), ends.pop()) else {
        unreachable!()
    };
    Ok(Two {
        mailbox,
        first,
        second,
    })
}
