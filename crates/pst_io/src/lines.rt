// A source, line by line.
ghost use Rattle.std.specs.Prelude.{◌≡◌, ◌≢◌, ◌<◌, ◌≤◌, ◌↔◌, ◌+◌, ◌-◌, max, [], ◌∷◌, length, true, false, IfErr, OnErr, IsOk, OnOk, Ok, Err, IsTrue, is_err};
ghost use Rattle.pst_io.specs.Causes.{Rose};
ghost use Rattle.pst_io.specs.Text.{line_text, whole_lines};
ghost use Rattle.pst_io.specs.Input.{Hands, Gives, Reads, ReadsPast, IsOver, NeedsNoRead, IsCutOff, HandsTo, HandsPast, bytes_read, pending};
ghost use Rattle.pst_io.specs.Lines.{LinesState, IsOpen, GoesOn, not_begun, unread};
ghost use Rattle.std.specs.Io.KnownBytes.{IsAtEnd};

use crate::fault::LinesFault;
use crate::input::Input;
use crate::room::{MOST_INPUT, MOST_READ, MOST_SERVED};
use crate::traits::Source;
use std::alloc::Global;
use std::marker::Model;

/// Hands out the lines of a source one by one, as they are read.
///
/// A line ends at a line feed, and bytes after the last line feed are a line too. No more bytes are read than its
/// limit, [`MOST_INPUT`] where it is told no other, and one more to see whether the input is longer, at most
/// [`MOST_READ`] a read. It keeps the line that is ready, and of what is behind it at most one read.
#[derive(Drop)]
pub struct Lines {
    input: Input,
    line_end: usize,
    taken: usize,
    ready: bool,
    fed: bool,
    failed: bool,
}

impl Model for Lines {
    ghost use Rattle.std.specs.Prelude.{◌≤◌, length, take};
    ghost use Rattle.pst_io.specs.Lines.{LinesState};

    ghost Value = { LinesState };

    ghost use Rattle.pst_io.specs.Input.{skipped};

    ghost view = { λ s. record {
      input = skipped s.taken s.input;
      ready = s.ready;
      line = take s.line_end s.input.held;
      fed = s.fed;
      failed = s.failed;
    } };

    ghost invariant = { λ s. (s.line_end ≤ s.taken) × (s.taken ≤ length s.input.held) };
}

impl Lines {
    /// A reader that has read nothing, and may read [`MOST_INPUT`] bytes. It takes no memory before its first read.
    pub fn new(alloc: Global) -> Lines
        ensures { result ≡ not_begun }
    {
        Lines::up_to(alloc, MOST_INPUT)
    }

    /// A reader that has read nothing, and may read so many bytes. It takes no memory before its first read.
    pub fn up_to(alloc: Global, most: usize) -> Lines
        requires { most ≤ MOST_SERVED }
        ensures { result ≡ unread most }
    {
        Lines {
            input: Input::new(alloc, most),
            line_end: 0,
            taken: 0,
            ready: false,
            fed: false,
            failed: false,
        }
    }

    /// Goes on to the next line of the source, and says whether there is one.
    ///
    /// Each call has to be given the same source. A read is made only where no whole line is left, and
    /// none once the end of the input was seen. After an `Err` the reader has failed and is not asked again;
    /// every whole line that was read has then been handed out.
    ///
    /// # Errors
    /// Where a read failed, more came than may be read, or there was no memory.
    #[inline(always)]
    pub fn next<S: Source>(&mut self, source: &mut S) -> Result<bool, LinesFault>
        requires { IsOpen self.old (S.left source.old) }

        // What is handed out, as bytes and as a line.
        ensures text { result ≡ Ok true → Hands self.old.input (S.left source.old) self.new.input (S.left source.new) (line_text self.new.line self.new.fed) }
        ensures line { result ≡ Ok true → Gives self.old.input (S.left source.old) self.new.input (S.left source.new) (self.new.line ∷ []) }
        ensures no_feed { result ≡ Ok true → whole_lines self.new.line ≡ [] }
        ensures last { result ≡ Ok true → self.new.fed ≡ false → (self.new.line ≢ []) × IsOver self.new.input }

        // The end of the input.
        ensures end { result ≡ Ok false → Reads self.old.input (S.left source.old) self.new.input (S.left source.new) × IsOver self.new.input }
        ensures nothing { result ≡ Ok false → IsAtEnd (pending self.old.input (S.left source.old)) }

        // What stands after a fault.
        ensures cut_off { OnErr result (IsCutOff self.new.input) }
        ensures reads { IfErr result (λ fault. (fault ≡ LinesFault.TooLong → ⊥) → Reads self.old.input (S.left source.old) self.new.input (S.left source.new)) }
        ensures too_long { result ≡ Err LinesFault.TooLong → ReadsPast self.old.input (S.left source.old) self.new.input (S.left source.new) }
        ensures fault { result ≡ Err LinesFault.Failed → Rose (S.faults source.old) (S.faults source.new) }
        ensures failed { self.new.failed ≡ is_err result }

        // How far it reads: one read asks for at most `MOST_READ` bytes, and none is made where a whole line is held.
        // So less than one read is held behind the line that is handed out, or no more than was held before.
        ensures no_read { NeedsNoRead self.old.input → IsOk result × (source.new ≡ source.old) }
        ensures ahead { result ≡ Ok true → length self.new.input.held ≤ max (length self.old.input.held) (MOST_READ - 1) }
        ensures within { bytes_read self.new.input ≤ self.new.input.most }
        ensures limit { self.new.input.most ≡ self.old.input.most }

        ensures ready { IsTrue self.new.ready ↔ (result ≡ Ok true) }
        ensures open { OnOk result (IsOpen self.new (S.left source.new)) }
        ensures goes_on { result ≡ Ok true → self.old.input.handed < self.new.input.handed }
        ensures later { S.faults source.old ≤ S.faults source.new }
    {
        self.go_on(source)
    }

    // Goes on to the next line, as `next` does: what comes of it is said as one.
    #[inline(always)]
    fn go_on<S: Source>(&mut self, source: &mut S) -> Result<bool, LinesFault>
        requires { IsOpen self.old (S.left source.old) }
        ensures goes { GoesOn result self.old (S.left source.old) self.new (S.left source.new) }
        ensures no_read { NeedsNoRead self.old.input → IsOk result × (source.new ≡ source.old) }
        ensures within { bytes_read self.new.input ≤ self.new.input.most }
        ensures limit { self.new.input.most ≡ self.old.input.most }
        ensures later { S.faults source.old ≤ S.faults source.new }
        ensures fault { result ≡ Err LinesFault.Failed → Rose (S.faults source.old) (S.faults source.new) }
    {
        self.input.skip(self.taken);
        self.line_end = 0;
        self.taken = 0;
        self.ready = false;
        self.fed = false;
        match self.input.seek_feed(source) {
            Ok(Some(end)) => {
                self.line_end = end;
                self.taken = end + 1;
                self.ready = true;
                self.fed = true;
                Ok(true)
            }
            Ok(None) => {
                let rest = self.input.held().len();
                self.line_end = rest;
                self.taken = rest;
                self.ready = rest > 0;
                Ok(self.ready)
            }
            Err(fault) => {
                self.failed = true;
                Err(fault)
            }
        }
    }

    /// Hands out so many of the next bytes, or those up to the end of the input, to the end of a text, and says
    /// whether there were so many. What was read beyond them is handed out by the next call.
    ///
    /// No line is ready then. As for `next`, each call has to be given the same source, no read is made where
    /// enough is held, and the reader is not asked again after an `Err`: what was handed out before it stands in
    /// the text. No memory is taken by the count, but as bytes come.
    ///
    /// # Errors
    /// Where a read failed, more came than may be read, or there was no memory.
    pub fn hand<S: Source>(
        &mut self,
        source: &mut S,
        count: usize,
        text: &mut Vec<u8>,
    ) -> Result<bool, LinesFault>
        requires { IsOpen self.old (S.left source.old) }
        ensures hands { (result ≡ Err LinesFault.TooLong → ⊥) → HandsTo self.old.input (S.left source.old) self.new.input (S.left source.new) text.old.items text.new.items }
        ensures past { result ≡ Err LinesFault.TooLong → HandsPast self.old.input (S.left source.old) self.new.input (S.left source.new) text.old.items text.new.items }
        ensures whole { result ≡ Ok true → length text.new.items ≡ length text.old.items + count }
        ensures end { result ≡ Ok false → (length text.new.items < length text.old.items + count) × IsOver self.new.input }
        ensures near { OnOk result (length self.new.input.held ≤ max (length self.old.input.held) (MOST_READ - 1)) }
        ensures few { 0 < count → OnErr result (length text.new.items < length text.old.items + count) }
        ensures piece { length self.new.input.held ≤ max (length self.old.input.held) MOST_READ }
        ensures rest { IfErr result (λ fault. (fault ≡ LinesFault.Memory → ⊥) → self.new.input.held ≡ []) }
        ensures no_read { count ≤ length self.old.input.held → source.new ≡ source.old }
        ensures ready { self.new.ready ≡ false }
        ensures failed { self.new.failed ≡ is_err result }
        ensures within { bytes_read self.new.input ≤ self.new.input.most }
        ensures limit { self.new.input.most ≡ self.old.input.most }
        ensures open { OnOk result (IsOpen self.new (S.left source.new)) }
        ensures later { S.faults source.old ≤ S.faults source.new }
        ensures fault { result ≡ Err LinesFault.Failed → Rose (S.faults source.old) (S.faults source.new) }
    {
        self.input.skip(self.taken);
        self.line_end = 0;
        self.taken = 0;
        self.ready = false;
        self.fed = false;
        match self.input.hand(source, count, text) {
            Ok(whole) => Ok(whole),
            Err(fault) => {
                self.failed = true;
                Err(fault)
            }
        }
    }

    /// The line that is ready, without its line feed. It needs that the last `next` answered true.
    pub fn line(&self) -> &[u8]
        requires { IsTrue self.now.ready }
        ensures { result.now ≡ self.now.line }
    {
        &self.input.held()[..self.line_end]
    }

    /// Whether a line feed ended the line that is ready, and not the end of the input. It needs that
    /// the last `next` answered true.
    pub fn fed(&self) -> bool
        requires { IsTrue self.now.ready }
        ensures { result ≡ self.now.fed }
    {
        self.fed
    }

    /// Whether the reader has met a fault.
    pub fn failed(&self) -> bool
        ensures { result ≡ self.now.failed }
    {
        self.failed
    }
}
