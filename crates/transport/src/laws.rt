//! Theorems about ends. Each is what a function here ensures.

ghost use Rattle.transport.specs.Laws.{ClippedOnce, PutExactly, FullOverList, FullOverLayer, FlushedEmpty, InOrder, NothingLost};

/// What is passed on from frame to frame stays as it is.
pub fn frames_pass_whole()
    ensures { ClippedOnce }
{}

/// When a put is accepted, and how a full layer faults.
pub fn puts_are_answered()
    ensures exactly { PutExactly }
    ensures list { FullOverList }
    ensures layer { FullOverLayer }
{}

/// Nothing that was accepted is lost or reordered, whatever is put, flushed and collected, through any stack of ends.
pub fn nothing_is_lost()
    ensures lost { NothingLost }
    ensures order { InOrder }
    ensures flushed { FlushedEmpty }
{}
