//! Some streams are good, and some are released.
ghost use Rattle.cm_good_streams.specs.Laws.{RetriedAreGood, InterleavedAreGood, RefusedAreGood, RetriedBytesAreGood, InterleavedBytesAreGood, RefusedBytesAreGood};
ghost use Rattle.cm_good_streams.specs.Laws.{RetriedBytesAreReleased, InterleavedBytesAreReleased, RefusedBytesAreHeld};

/// Good are: a stream whose first attempt failed and whose retry passed; one whose two sources,
/// test cases and attempts are interleaved; and one with a refused source beside an accepted one,
/// whose run doesn't say success.
pub fn some_streams_are_good()
    ensures retried { RetriedAreGood }
    ensures interleaved { InterleavedAreGood }
    ensures refused { RefusedAreGood }
{}

/// The same three, as lines of JSON, are good streams of bytes, with their counts.
pub fn some_bytes_are_good()
    ensures retried { RetriedBytesAreGood }
    ensures interleaved { InterleavedBytesAreGood }
    ensures refused { RefusedBytesAreGood }
{}

/// Of these lines, the first two are released streams of bytes, without unrun pickles: also the one
/// whose first attempt failed. The third isn't, whatever is asked or allowed.
pub fn some_streams_are_released()
    ensures retried { RetriedBytesAreReleased }
    ensures interleaved { InterleavedBytesAreReleased }
    ensures held { RefusedBytesAreHeld }
{}
