//! Laws: theorems about the definitions alone. The contracts state them, and the bodies are empty.
ghost use Rattle.std.specs.Prelude.{◌≡◌, ℕ, List, Option, Some, map};
ghost use Rattle.redo_device.specs.Feed.{Stream};
ghost use Rattle.redo_line.specs.declared.entry.Entry.{Entry};
ghost use Rattle.redo_line.specs.declared.stream_fault.StreamFault.{StreamFault};
ghost use Rattle.redo_line.specs.Source.{StreamInput, Source};
ghost use Rattle.redo_wire.specs.declared.item.Item.{Item};
ghost use Rattle.redo_wire.specs.Mailbox.{PostEndState};
ghost use Rattle.redo_gather.specs.Laws.{ExpectsInOrder, ExpectsLog, ExpectsFault, MayExpectAll, MayExpectPrefix, ExpectsNothing, ExpectsOne, ExpectsConcatenation};
ghost use Rattle.redo_gather.specs.Laws.{AreSingles, StandsForEach, SingleIsUnwrapped, PostsOwnItems, ItemCountIsBounded};
ghost use Rattle.redo_gather.specs.Sending.{NumberedSource};
ghost use Rattle.redo_gather.specs.Streams.{MatchKnown, HasLogsUnlessFault, FaultIsThatOfStreams, LogsAreThoseOfStreams, fully_known};

/// Either streams have logs, or there is a fault among them, never both.
pub fn logs_unless_fault()
    ensures { (max_bytes : ℕ) (targets : List (List ℕ)) (streams : List (StreamInput Stream)) →
        HasLogsUnlessFault max_bytes targets streams }
{}

/// If every reader's stream is known, these are the streams that the readers give. A property of the logs of the streams that the
/// readers give, or of the fault among them, is a property of these streams.
pub fn known_streams_decide()
    ensures streams { (streams others : List (StreamInput Stream)) → MatchKnown (map fully_known streams) others → others ≡ streams }
    ensures logs { (max_bytes : ℕ) (targets : List (List ℕ)) (streams : List (StreamInput Stream)) →
        LogsAreThoseOfStreams max_bytes targets streams }
    ensures fault { (max_bytes : ℕ) (targets : List (List ℕ)) (streams : List (StreamInput Stream)) →
        FaultIsThatOfStreams max_bytes targets streams }
{}

/// The items that a sender is expected to post for a stream, in order: its log; or the entries before its fault, and the fault; or,
/// if memory runs out, the first of these entries. All of these are allowed.
pub fn expected_for_stream()
    ensures order { (max_bytes : ℕ) (source : Source Stream) → ExpectsInOrder max_bytes source }
    ensures log { (max_bytes : ℕ) (source : Source Stream) → ExpectsLog max_bytes source }
    ensures fault { (max_bytes : ℕ) (source : Source Stream) → ExpectsFault max_bytes source }
    ensures all { (max_bytes : ℕ) (source : Source Stream) → MayExpectAll max_bytes source }
    ensures prefix { (max_bytes : ℕ) (source : Source Stream) → MayExpectPrefix max_bytes source }
{}

/// No items are expected for a share without streams. For a share of one stream, the stream's items are expected; for several
/// streams, the items of each, one stream after another.
pub fn expected_for_share()
    ensures nothing { (max_bytes sender : ℕ) → ExpectsNothing max_bytes sender }
    ensures one { (max_bytes sender : ℕ) → ExpectsOne max_bytes sender }
    ensures concatenation { (max_bytes sender : ℕ) → ExpectsConcatenation max_bytes sender }
{}

/// However entries are grouped into items, each item has the number of its sender. It has one entry or, as a batch, 2 to 1,024 entries
/// in order. There are at most as many items as entries, ends and faults, and at least a 1024th as many.
pub fn items_for_share()
    ensures singles { (sender stream : ℕ) (entries : List Entry) (fault : Option StreamFault) → AreSingles sender stream entries fault }
    ensures each { (sender stream : ℕ) (entries : List Entry) → StandsForEach sender stream entries }
    ensures alone { (item one : Item) → SingleIsUnwrapped item one }
    ensures own_items { (max_bytes : ℕ) (share : List NumberedSource) (before after : PostEndState) →
        PostsOwnItems max_bytes share before after }
    ensures at_most { (items : List Item) → ItemCountIsBounded items }
{}
