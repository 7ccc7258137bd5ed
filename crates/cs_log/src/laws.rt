//! What a crash leaves of a log of frames.

ghost use Rattle.std.specs.Prelude.{◌≡◌, ◌⊎◌, ◌+◌, ◌<◌, List, [], ◌∷◌, ◌++◌, ℕ, length, take};
ghost use Rattle.std.specs.List.{AllByRecursion};
ghost use Rattle.cs_log.specs.Crash.{MayBeLeft};
ghost use Rattle.cs_log.specs.Frames.{AreFramesOf, Fits, frame, framed, IsTorn, placed};

/// Frames and a torn tail have these frames, each at its place.
pub fn frames_are_found()
    ensures { (payloads : List (List ℕ)) (tail : List ℕ) → AllByRecursion Fits payloads → IsTorn tail
        → AreFramesOf (framed payloads ++ tail) (placed 0 payloads) }
{}

/// A frame that is cut short is a torn tail.
pub fn a_part_of_a_frame_is_torn()
    ensures { (payload : List ℕ) (n : ℕ) → Fits payload → n < length (frame payload)
        → IsTorn (take n (frame payload)) }
{}

/// Where all is synced, a crash leaves all.
pub fn what_is_synced_is_left()
    ensures { (bytes left : List ℕ) → MayBeLeft (length bytes) bytes left → left ≡ bytes }
{}

/// Once a part of one more frame was appended to synced frames, a crash leaves the frames before it, or this one too.
pub fn a_crash_leaves_whole_entries()
    ensures { (payloads : List (List ℕ)) (payload left : List ℕ) (n : ℕ)
        → AllByRecursion Fits payloads → Fits payload
        → MayBeLeft (length (framed payloads)) (framed payloads ++ take n (frame payload)) left
        → AreFramesOf left (placed 0 payloads) ⊎ AreFramesOf left (placed 0 (payloads ++ payload ∷ [])) }
{}
