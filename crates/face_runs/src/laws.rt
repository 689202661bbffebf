//! What follows from the definitions alone: laws by which a reader can check the definitions.
//!
//! Each law is the contract of a function with no body.

ghost use Rattle.std.specs.Prelude.{ℕ, List, map};
ghost use Rattle.spec_map.specs.Map.{Pairs};
ghost use Rattle.spec_map.specs.Refusal.{MayRunOut};
ghost use Rattle.face_runs.specs.Calls.{by_numbers, answer_of, AreLegalReplies};
ghost use Rattle.face_runs.specs.Conversion.{Conversion};
ghost use Rattle.face_runs.specs.PayloadCalls.{AreLegalPayloadReplies};
ghost use Rattle.face_runs.specs.U64Calls.{face_call, number_answer, AreLegalU64Replies};
ghost use Rattle.face_runs.specs.inner.RefusedRanges.{AreLegalWithoutRefusedRanges, RefuseNoRange};

use crate::calls::{Call, Reply};
use crate::payload_calls::{PayloadCall, PayloadReply};
use crate::u64_calls::{U64Call, U64Reply};
use spec_map::payload::Payload;
use spec_map::traits::Word;

/// Without the ranges that found no memory for their pairs, a list of calls is a legal run of a map that refuses no
/// range.
pub fn refused_ranges_are_outside<K: Copy, V: Copy>()
    ensures replies { (c : Conversion K V ℕ) (r : MayRunOut) (m n : Pairs ℕ)
        (calls : List (Call K V)) (replies : List (Reply K V))
        → AreLegalReplies c r m calls replies n
        → AreLegalWithoutRefusedRanges c r m calls (map answer_of replies) n }
    ensures numbers { (number : V → ℕ) (of_number : ℕ → V) (r : MayRunOut) (m n : Pairs ℕ)
        (calls : List (U64Call V)) (replies : List (U64Reply V))
        → AreLegalU64Replies number of_number r m calls replies n
        → AreLegalWithoutRefusedRanges (by_numbers (λ key. key) (λ key. key) number of_number) r
        m (map face_call calls) (map number_answer replies) n }
{}

/// No range is refused in a run of calls of a map of payloads: none of these calls is a range.
pub fn payload_runs_refuse_no_range<K: Word, P: Payload>()
    ensures { (r : MayRunOut) (m n : Pairs P)
        (calls : List (PayloadCall K P)) (replies : List (PayloadReply K P))
        → (run : AreLegalPayloadReplies K.number K.of_number P.alike P.tells_same r m calls replies n)
        → RefuseNoRange run.operations }
{}
