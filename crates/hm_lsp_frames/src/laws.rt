//! Laws about frames. Each is a function with an empty body, and its contract states the law.
ghost use Rattle.std.specs.Prelude.{◌≡◌, ℕ, List, ◌≤◌, ◌++◌, Some, length};
ghost use Rattle.hm_lsp_frames.specs.Frames.{Item, Reads, body, first_frame, framed, most_body};
ghost use Rattle.hm_lsp_frames.specs.Worked.{BodiesRow, MalformedRow};

/// A stream has just one reading, and a part of it can be read before the rest.
#[tactic(auto, using(crate::proofs::Readings::one_reading, crate::proofs::Readings::has_reading, crate::proofs::Readings::in_parts))]
pub fn readings()
    ensures one { (stream rest end : List ℕ) (items others : List Item) → Reads stream items rest → Reads stream others end → (items ≡ others) × (rest ≡ end) }
    ensures some { (stream : List ℕ) → (items : List Item) × (rest : List ℕ) × Reads stream items rest }
    ensures parts { (stream next rest end : List ℕ) (items others : List Item) → Reads stream items rest → Reads (rest ++ next) others end → Reads (stream ++ next) (items ++ others) end }
{}

/// A body that is written as a frame is read back, whatever follows.
#[tactic(auto, using(crate::proofs::Written::read_back))]
pub fn written_bodies()
    ensures { (bytes after : List ℕ) → length bytes ≤ most_body → first_frame (framed bytes ++ after) ≡ Some (body bytes, after) }
{}

/// Streams and their first frames.
#[tactic(auto, using(crate::proofs::WorkedFrames::worked_bodies, crate::proofs::WorkedFrames::worked_malformed))]
pub fn worked_frames()
    ensures bodies { BodiesRow }
    ensures headers { MalformedRow }
{}
