//! Laws of messages. Calling them does nothing; their contracts are proved.
ghost use Rattle.fuse_words.specs.Laws.{RequestsAreReadBack, RepliesHaveTheirLengths, EntriesAreAligned};

/// A request with its fields in the order of fuse.h is read as that request, whatever the contents of the fields that aren't read.
pub fn requests_are_read_back()
    ensures { RequestsAreReadBack }
{}

/// Each reply has the length in its header: 16 bytes plus the size of its struct.
pub fn replies_have_their_lengths()
    ensures { RepliesHaveTheirLengths }
{}

/// A directory entry takes a multiple of 8 bytes.
pub fn entries_are_aligned()
    ensures { EntriesAreAligned }
{}
