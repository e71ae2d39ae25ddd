//! Theorems about the definitions. Each `ensures` states one; the functions have no effect.

ghost use Rattle.std.specs.Prelude.{◌≡◌, ◌≢◌, ◌<◌, ◌+◌, ◌++◌, ℕ, List, length};
ghost use Rattle.http_messages.specs.declared.frame.Frame.{Frame};
ghost use Rattle.http_messages.specs.declared.frame.TheConstants.{MAX_HEAD};
ghost use Rattle.http_messages.specs.declared.request.Request.{Request};
ghost use Rattle.http_messages.specs.Frames.{IsFirstFrame};

/// The first frame of a byte string is unique.
pub fn one_first_frame()
    ensures { (greatest : ℕ) (bytes : List ℕ) (frame other : Frame) (rest other_rest : List ℕ)
        → IsFirstFrame greatest bytes frame rest → IsFirstFrame greatest bytes other other_rest
        → (frame ≡ other) × (rest ≡ other_rest) }
{}

/// Later bytes change neither a request nor a refusal. So nothing depends on how the bytes are
/// split.
pub fn later_bytes_change_nothing()
    ensures { (greatest : ℕ) (bytes more : List ℕ) (frame : Frame) (rest : List ℕ)
        → IsFirstFrame greatest bytes frame rest → frame ≢ Frame.More
        → IsFirstFrame greatest (bytes ++ more) frame (rest ++ more) }
{}

/// A request consumes at least one byte.
pub fn requests_take_bytes()
    ensures { (greatest : ℕ) (bytes : List ℕ) (request : Request) (rest : List ℕ)
        → IsFirstFrame greatest bytes (Frame.Request request) rest → length rest < length bytes }
{}

/// Only fewer bytes than a head and a body together can be incomplete.
pub fn few_bytes_need_more()
    ensures { (greatest : ℕ) (bytes rest : List ℕ) → IsFirstFrame greatest bytes Frame.More rest
        → length bytes < MAX_HEAD + greatest }
{}
