// The law on one client alone.

ghost use Rattle.protocol.specs.AloneLaws.{AloneIsTranscript};

/// Where one client alone is served from the empty history on, what is written to it is the transcript of its bytes. After a
/// write fault it is a beginning of one: the reply that was cut may have been `memory`.
pub fn alone_is_transcript()
    ensures { AloneIsTranscript }
{}
