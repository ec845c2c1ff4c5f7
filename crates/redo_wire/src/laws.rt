//! Laws: theorems about the definitions alone. The contracts state them, and the bodies are empty.
ghost use Rattle.std.specs.Prelude.{◌≡◌, ◌↔◌, ℕ, ◌+◌, ◌<◌, List, [], ◌∷◌, ◌++◌, length};
ghost use Rattle.std.specs.List.{AllByRecursion};
ghost use Rattle.redo_wire.specs.declared.item.Item.{Item};
ghost use Rattle.redo_wire.specs.Machine.{IsPrefix, IsValid, IsSchedule, IsStep, IsLive, Meets, Opens, Posts, AddsEnd, State, Takes};
ghost use Rattle.redo_wire.specs.Mailbox.{AreDistinct, ArePrefixesOfMet, ArePending, AreMetFullyTaken, TakeEndState, MetEndsLeaveRoom};

/// A new mailbox is in a valid state, and each step keeps the state valid: when a sender puts an item at the back, and
/// when the front is taken. The other steps move no item. The state is valid after each step of every schedule.
pub fn steps_preserve_validity()
    ensures opens { (capacity senders : ℕ) (state : State) → Opens state → IsValid capacity senders state }
    ensures posts { (capacity senders sender : ℕ) (item : Item) (before after : State) → sender < senders →
        Posts capacity sender item before after → IsValid capacity senders before → IsValid capacity senders after }
    ensures takes { (capacity senders : ℕ) (item : Item) (before after : State) →
        Takes item before after → IsValid capacity senders before → IsValid capacity senders after }
    ensures schedules { (capacity senders : ℕ) (first : State) (states : List State) → Opens first →
        IsSchedule capacity senders first states → AllByRecursion (IsValid capacity senders) states }
{}

/// Items keep the order in which they were posted, by any sender: no step moves an item before another one, and only a
/// new item is added, at the back. No step takes back an item that was taken.
pub fn items_in_order()
    ensures order { (capacity senders : ℕ) (before after : State) → IsStep capacity senders before after →
        IsPrefix (before.taken ++ before.queued) (after.taken ++ after.queued) }
    ensures taken { (capacity senders : ℕ) (before after : State) → IsStep capacity senders before after →
        IsPrefix before.taken after.taken }
{}

/// The steps that a mailbox can take. An end can be split off while ends are left. An end that was made and
/// wasn't met can post an item of its sender if there is room. The front can be taken. A step can find nothing
/// if nothing is queued. An end that was made and wasn't met can be met.
pub fn steps_exist()
    ensures adds_end { (capacity senders : ℕ) (before : State) → before.made < senders → before.posted before.made ≡ [] →
        (after : State) × (after.made ≡ before.made + 1) × IsStep capacity senders before after }
    ensures posts { (capacity senders : ℕ) (item : Item) (before : State) → item.sender < senders → IsLive item.sender before →
        length before.queued < capacity → (after : State) × (after.queued ≡ before.queued ++ item ∷ []) ×
        (after.posted item.sender ≡ before.posted item.sender ++ item ∷ []) × IsStep capacity senders before after }
    ensures takes { (capacity senders : ℕ) (item : Item) (rest : List Item) (before : State) → before.queued ≡ item ∷ rest →
        (after : State) × (after.taken ≡ before.taken ++ item ∷ []) × (after.queued ≡ rest) × IsStep capacity senders before after }
    ensures empty { (capacity senders : ℕ) (before : State) → before.queued ≡ [] → IsStep capacity senders before before }
    ensures meets { (capacity senders sender : ℕ) (before : State) → IsLive sender before →
        (after : State) × (after.met ≡ sender ∷ before.met) × IsStep capacity senders before after }
{}

/// A step of each kind leads to one state only.
pub fn steps_are_deterministic()
    ensures adds_end { (senders : ℕ) (before one other : State) → AddsEnd senders before one → AddsEnd senders before other → one ≡ other }
    ensures posts { (capacity sender : ℕ) (item : Item) (before one other : State) →
        Posts capacity sender item before one → Posts capacity sender item before other → one ≡ other }
    ensures takes { (item found : Item) (before one other : State) → Takes item before one → Takes found before other → one ≡ other }
    ensures meets { (sender : ℕ) (before one other : State) → Meets sender before one → Meets sender before other → one ≡ other }
{}

/// A step that changes nothing finds an empty queue. The items that an end posted change only if the end was
/// made and wasn't met.
pub fn step_preconditions()
    ensures empty { (capacity senders : ℕ) (state : State) → IsStep capacity senders state state → state.queued ≡ [] }
    ensures posts { (capacity senders sender : ℕ) (before after : State) → IsStep capacity senders before after →
        ¬ IsLive sender before → after.posted sender ≡ before.posted sender }
{}

/// In a mailbox for one item, room is left exactly if all that the met ends posted was taken. One direction
/// requires that the items taken from each met end are a prefix of the items that it posted.
pub fn room_for_one()
    ensures met_all_taken { (end : TakeEndState) → end.mailbox.capacity ≡ 1 → MetEndsLeaveRoom end → ArePrefixesOfMet end →
        AreMetFullyTaken end }
    ensures leaves_room { (end : TakeEndState) → end.mailbox.capacity ≡ 1 → AreMetFullyTaken end → MetEndsLeaveRoom end }
{}

/// For every capacity: if exactly these items are left of the met ends, and no end was met twice, room is left
/// exactly if the items are fewer than the capacity.
pub fn room_for_any()
    ensures { (end : TakeEndState) (items : List Item) → AreDistinct end.met → ArePending items end →
        MetEndsLeaveRoom end ↔ (length items < end.mailbox.capacity) }
{}
