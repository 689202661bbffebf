//! A map, and the lines that are served on it.
//!
//! Tested in `test_serve` and `tools/dev/try-commands`.

ghost use Rattle.std.specs.Prelude.{◌≡◌, ℕ, ◌++◌, ◌∷◌, List, [], Option, Some, IfOk, OnOk, OnErr, true};
ghost use Rattle.text_run.specs.inner.Answers.{AnswersPart};
ghost use Rattle.text_run.specs.inner.Session.{HasAnswered, HasServed, ServesAll, TakesLine, StopsAnswer, BreaksWithin, Breaks};

use crate::reply::{put_reply, reply_to};
use face_typed::typed_congee::Congee;
use node_table::allocator::Allocator;
use spec_map::error::OOMError;
use std::alloc::Global;
use std::io::Write;
use text_lines::line::LineBuffer;
use text_lines::pending::Pending;
use text_lines::watched::{Failed, Watched};

/// A map, the line that has begun, and the answers that have still to be written.
#[derive(Drop)]
pub struct Session<A: Allocator> {
    alloc: Global,
    map: Congee<u64, u64, A>,
    line: LineBuffer,
    pending: Pending,
}

impl<A: Allocator> Session<A> {
    /// Takes the memory of the empty map. A line takes none but what the map takes for it, and for what its
    /// answer lists.
    pub fn new(alloc: Global, allocator: A) -> Result<Self, OOMError>
        ensures { IfOk result (λ s. (o : Option (List ℕ))
            → HasAnswered s.map.pairs s.line s.pending o o []) }
    {
        Ok(Session {
            alloc,
            map: Congee::new(alloc, allocator)?,
            line: LineBuffer::new(),
            pending: Pending::new(),
        })
    }

    /// Writes the answers so far.
    pub fn send_to<W: Write>(&mut self, output: &mut Watched<W>) -> Result<(), Failed>
        ensures ok { (old : Option (List ℕ)) (bytes : List ℕ)
            → HasServed W.contents self.old output.old old bytes
            → OnOk result (HasAnswered self.new.map.pairs self.new.line []
            old (W.contents output.new.inner) bytes × (self.new.pending ≡ [])) }
        ensures err { (old : Option (List ℕ)) (bytes : List ℕ)
            → HasServed W.contents self.old output.old old bytes
            → OnErr result (Breaks bytes old (W.contents output.new.inner)) }
        ensures kept { OnOk result (output.new.failed ≡ output.old.failed) }
        ensures failed { OnErr result (output.new.failed ≡ true) }
    {
        self.pending.send_to(output)
    }

    /// Takes the next bytes of the input, and answers the lines that end in them.
    pub fn take_all<W: Write>(
        &mut self,
        bytes: &[u8],
        output: &mut Watched<W>,
    ) -> Result<(), Failed>
        ensures ok { (old : Option (List ℕ)) (before : List ℕ)
            → HasServed W.contents self.old output.old old before
            → OnOk result (HasServed W.contents self.new output.new old (before ++ bytes.now)) }
        ensures err { (old : Option (List ℕ)) (before : List ℕ)
            → HasServed W.contents self.old output.old old before
            → OnErr result (BreaksWithin before bytes.now old (W.contents output.new.inner)) }
        ensures kept { OnOk result (output.new.failed ≡ output.old.failed) }
        ensures failed { OnErr result (output.new.failed ≡ true) }
    {
        for byte in bytes {
            self.take(*byte, output)?;
        }
        Ok(())
    }

    fn take<W: Write>(&mut self, byte: u8, output: &mut Watched<W>) -> Result<(), Failed>
        ensures ok { (old : Option (List ℕ)) (before : List ℕ)
            → HasServed W.contents self.old output.old old before
            → OnOk result (HasServed W.contents self.new output.new old (before ++ byte ∷ [])) }
        ensures err { (old : Option (List ℕ)) (before : List ℕ)
            → HasServed W.contents self.old output.old old before
            → OnErr result (Breaks (before ++ byte ∷ []) old (W.contents output.new.inner)) }
        ensures kept { OnOk result (output.new.failed ≡ output.old.failed) }
        ensures failed { OnErr result (output.new.failed ≡ true) }
    {
        if byte == b'\n' {
            return self.answer(output);
        }
        self.line.push(byte);
        Ok(())
    }

    // Answers the line that has begun.
    fn answer<W: Write>(&mut self, output: &mut Watched<W>) -> Result<(), Failed>
        ensures ok { OnOk result (TakesLine self.old.map.pairs self.new.map.pairs
            self.old.line self.old.pending self.new.pending
            (W.contents output.old.inner) (W.contents output.new.inner)) }
        ensures line { OnOk result (self.new.line ≡ Some []) }
        ensures err { OnErr result (StopsAnswer self.old.map.pairs self.old.line self.old.pending
            (W.contents output.old.inner) (W.contents output.new.inner)) }
        ensures kept { OnOk result (output.new.failed ≡ output.old.failed) }
        ensures failed { OnErr result (output.new.failed ≡ true) }
    {
        let reply = reply_to(self.alloc, &mut self.map, &self.line);
        put_reply(&mut self.pending, output, &reply)?;
        self.line.clear();
        Ok(())
    }

    // Answers the last line, if it has no line feed.
    fn answer_last<W: Write>(&mut self, output: &mut Watched<W>) -> Result<(), Failed>
        ensures ok { (old : Option (List ℕ)) (bytes : List ℕ)
            → HasServed W.contents self.old output.old old bytes
            → OnOk result (ServesAll self.new.map.pairs self.new.pending
            old (W.contents output.new.inner) bytes) }
        ensures err { (old : Option (List ℕ)) (bytes : List ℕ)
            → HasServed W.contents self.old output.old old bytes
            → OnErr result (AnswersPart bytes old (W.contents output.new.inner)) }
        ensures kept { OnOk result (output.new.failed ≡ output.old.failed) }
        ensures failed { OnErr result (output.new.failed ≡ true) }
    {
        if self.line.is_empty() {
            return Ok(());
        }
        self.answer(output)
    }

    /// Answers the last line, if it has no line feed, and writes all that is left.
    pub fn finish<W: Write>(&mut self, output: &mut Watched<W>) -> Result<(), Failed>
        ensures ok { (old : Option (List ℕ)) (bytes : List ℕ)
            → HasServed W.contents self.old output.old old bytes
            → OnOk result (ServesAll self.new.map.pairs []
            old (W.contents output.new.inner) bytes) }
        ensures err { (old : Option (List ℕ)) (bytes : List ℕ)
            → HasServed W.contents self.old output.old old bytes
            → OnErr result (AnswersPart bytes old (W.contents output.new.inner)) }
        ensures kept { OnOk result (output.new.failed ≡ output.old.failed) }
        ensures failed { OnErr result (output.new.failed ≡ true) }
    {
        self.answer_last(output)?;
        self.pending.send_to(output)?;
        output.flush()
    }

    /// The map.
    pub fn into_map(self) -> Congee<u64, u64, A>
        ensures { result ≡ self.map }
    {
        let Session {
            alloc: _,
            map,
            line: _,
            pending: _,
        } = self;
        map
    }
}
