// An input of which at most so many bytes are read, piece by piece, into a buffer that is kept.
ghost use Rattle.std.specs.Prelude.{◌≡◌, ◌<◌, ◌≤◌, ◌+◌, ◌-◌, ◌++◌, ◌⊎◌, ℕ, max, take, [], ◌∷◌, length, true, false, IfErr, IfOk, IfSome, IfNone, IsOk, OnOk, OnErr, Ok, Err, IsTrue};
ghost use Rattle.std.specs.Io.KnownBytes.{Consumes, IsAtEnd, Keeps};
ghost use Rattle.pst_io.specs.Causes.{HasCause, Rose};
ghost use Rattle.pst_io.specs.Text.{IsFirstFeed, whole_lines};
ghost use Rattle.pst_io.specs.Input.{InputState, Hands, Reads, ReadsPast, EndsWhereSeen, NeedsNoRead, IsCutOff, HandsTo, HandsPast, IsOver, bytes_read, skipped};

use crate::fault::LinesFault;
use crate::feed::find_feed;
use crate::room::{MOST_READ, MOST_SERVED, make_room, move_to_front};
use crate::traits::{Failed, Source};
use std::alloc::Global;
use std::marker::Model;

// The bytes that are held are those from `start` up to `end`.
#[derive(Drop)]
pub struct Input {
    buffer: Vec<u8>,
    start: usize,
    end: usize,
    handed: usize,
    ended: bool,
    most: usize,
}

impl Model for Input {
    ghost use Rattle.std.specs.Prelude.{◌≤◌, ◌+◌, ◌-◌, drop, take, vec_len};
    ghost use Rattle.pst_io.specs.declared.room.TheConstants.{MOST_SERVED};
    ghost use Rattle.pst_io.specs.Input.{InputState};

    ghost Value = { InputState };

    ghost view = { λ s. record {
      handed = s.handed;
      held = take (s.end - s.start) (drop s.start s.buffer.items);
      ended = s.ended;
      most = s.most;
    } };

    ghost invariant = { λ s. (s.start ≤ s.end) × (s.end ≤ vec_len s.buffer) × (vec_len s.buffer ≤ s.most) × (s.handed + (s.end - s.start) ≤ s.most) × (s.most ≤ MOST_SERVED) };
}

impl Input {
    pub fn new(alloc: Global, most: usize) -> Input
        requires { most ≤ MOST_SERVED }
        ensures { result ≡ record { handed = 0; held = []; ended = false; most = most } }
    {
        Input {
            buffer: Vec::new(alloc),
            start: 0,
            end: 0,
            handed: 0,
            ended: false,
            most,
        }
    }

    pub fn held(&self) -> &[u8]
        ensures held { result.now ≡ self.now.held }
        ensures within { bytes_read self.now ≤ self.now.most }
    {
        &self.buffer[self.start..self.end]
    }

    pub fn skip(&mut self, count: usize)
        requires { count ≤ length self.old.held }
        ensures skips { self.new ≡ skipped count self.old }
        ensures served { self.new.most ≤ MOST_SERVED }
    {
        self.start += count;
        self.handed += count;
    }

    // Reads once more. Where this fails, what is held stays.
    #[inline(never)]
    fn read_more<S: Source>(&mut self, source: &mut S) -> Result<(), LinesFault>
        requires { self.old.ended ≡ false }
        ensures reads { OnOk result (Hands self.old (S.left source.old) self.new (S.left source.new) []) }
        ensures more { OnOk result ((length self.old.held < length self.new.held) ⊎ IsTrue self.new.ended) }
        ensures piece { length self.new.held ≤ length self.old.held + MOST_READ }
        ensures seen { OnOk result (EndsWhereSeen self.new (S.left source.new)) }
        ensures within { bytes_read self.new ≤ self.new.most }
        ensures limit { self.new.most ≡ self.old.most }

        ensures later { S.faults source.old ≤ S.faults source.new }
        ensures failed { result ≡ Err LinesFault.Failed → Rose (S.faults source.old) (S.faults source.new) }
        ensures too_long { result ≡ Err LinesFault.TooLong → (bytes_read self.old ≡ self.old.most)
            × ((more : ℕ) × Consumes (S.left source.old) (S.left source.new) (more ∷ [])) }
        ensures kept { OnErr result (self.new ≡ self.old) }
        ensures none_read { IfErr result (λ fault. (fault ≡ LinesFault.TooLong → ⊥) → Keeps (S.left source.old) (S.left source.new)) }
    {
        if self.handed + (self.end - self.start) == self.most {
            if has_more(source)? {
                return Err(LinesFault::TooLong);
            }
            self.ended = true;
            return Ok(());
        }
        move_to_front(&mut self.buffer, self.start, self.end);
        self.end -= self.start;
        self.start = 0;
        make_room(&mut self.buffer, self.end, self.most)?;
        let room = (self.buffer.len() - self.end).min(self.most - self.handed - self.end);
        let stop = self.end + room.min(MOST_READ);
        let count = source.read(&mut self.buffer[self.end..stop])?;
        self.end += count;
        self.ended = count == 0;
        Ok(())
    }

    // Reads until a line feed is held, and gives its index, or until the input ends.
    #[inline(always)]
    pub fn seek_feed<S: Source>(&mut self, source: &mut S) -> Result<Option<usize>, LinesFault>
        requires { EndsWhereSeen self.old (S.left source.old) }
        ensures reads { (result ≡ Err LinesFault.TooLong → ⊥) → Reads self.old (S.left source.old) self.new (S.left source.new) }
        ensures past { result ≡ Err LinesFault.TooLong → ReadsPast self.old (S.left source.old) self.new (S.left source.new) }
        ensures found { IfOk result (λ found. IfSome found (λ i. IsFirstFeed i self.new.held)) }
        ensures ahead { IfOk result (λ found. IfSome found (λ i. length self.new.held ≤ max (length self.old.held) (i + MOST_READ))) }
        ensures end { IfOk result (λ found. IfNone found ((whole_lines self.new.held ≡ []) × IsTrue self.new.ended)) }
        ensures cut_off { OnErr result (IsCutOff self.new) }
        ensures seen { OnOk result (EndsWhereSeen self.new (S.left source.new)) }
        ensures no_read { NeedsNoRead self.old → IsOk result × (source.new ≡ source.old) }
        ensures within { bytes_read self.new ≤ self.new.most }
        ensures limit { self.new.most ≡ self.old.most }

        ensures later { S.faults source.old ≤ S.faults source.new }
        ensures failed { result ≡ Err LinesFault.Failed → Rose (S.faults source.old) (S.faults source.new) }
    {
        let mut searched = 0;
        'reading: loop {
            if let Some(i) = find_feed(self.held(), searched) {
                return Ok(Some(i));
            }
            if self.ended {
                return Ok(None);
            }
            searched = self.held().len();
            match self.read_more(source) {
                Ok(()) => {}
                Err(fault) => return Err(fault),
            }
        }
    }

    // Hands out so many of the bytes that are held, or all of them, to the end of a text, and says how many.
    fn hand_held(&mut self, most: usize, text: &mut Vec<u8>) -> Result<usize, LinesFault>
        ensures few { IfOk result (λ few. (few ≤ most) × (few ≤ length self.old.held)) }
        ensures all { IfOk result (λ few. (few ≡ most) ⊎ (few ≡ length self.old.held)) }
        ensures skips { IfOk result (λ few. self.new ≡ skipped few self.old) }
        ensures text { IfOk result (λ few. text.new.items ≡ text.old.items ++ take few self.old.held) }
        ensures kept { OnErr result ((self.new ≡ self.old) × (text.new.items ≡ text.old.items)) }
        ensures fault { IfErr result (λ fault. fault ≡ LinesFault.Memory) }
        ensures within { bytes_read self.new ≤ self.new.most }
        ensures limit { self.new.most ≡ self.old.most }
    {
        let few = self.held().len().min(most);
        text.extend_from_slice(&self.held()[..few])?;
        self.skip(few);
        Ok(few)
    }

    // Hands out so many of the next bytes, or those up to the end of the input, to the end of a text, and says whether there were so many.
    pub fn hand<S: Source>(
        &mut self,
        source: &mut S,
        count: usize,
        text: &mut Vec<u8>,
    ) -> Result<bool, LinesFault>
        requires { EndsWhereSeen self.old (S.left source.old) }
        ensures hands { (result ≡ Err LinesFault.TooLong → ⊥) → HandsTo self.old (S.left source.old) self.new (S.left source.new) text.old.items text.new.items }
        ensures past { result ≡ Err LinesFault.TooLong → HandsPast self.old (S.left source.old) self.new (S.left source.new) text.old.items text.new.items }
        ensures whole { result ≡ Ok true → length text.new.items ≡ length text.old.items + count }
        ensures end { result ≡ Ok false → (length text.new.items < length text.old.items + count) × IsOver self.new }
        ensures near { OnOk result (length self.new.held ≤ max (length self.old.held) (MOST_READ - 1)) }
        ensures few { 0 < count → OnErr result (length text.new.items < length text.old.items + count) }
        ensures piece { length self.new.held ≤ max (length self.old.held) MOST_READ }
        ensures rest { IfErr result (λ fault. (fault ≡ LinesFault.Memory → ⊥) → self.new.held ≡ []) }
        ensures no_read { count ≤ length self.old.held → source.new ≡ source.old }
        ensures seen { OnOk result (EndsWhereSeen self.new (S.left source.new)) }
        ensures within { bytes_read self.new ≤ self.new.most }
        ensures limit { self.new.most ≡ self.old.most }

        ensures later { S.faults source.old ≤ S.faults source.new }
        ensures failed { result ≡ Err LinesFault.Failed → Rose (S.faults source.old) (S.faults source.new) }
    {
        let mut left = count;
        'handing: loop {
            match self.hand_held(left, text) {
                Ok(few) => {
                    left -= few;
                }
                Err(fault) => return Err(fault),
            }
            if left == 0 {
                return Ok(true);
            }
            if self.ended {
                return Ok(false);
            }
            match self.read_more(source) {
                Ok(()) => {}
                Err(fault) => return Err(fault),
            }
        }
    }
}

// Whether another byte comes, by a read of one.
fn has_more<S: Source>(source: &mut S) -> Result<bool, Failed>
    ensures more { result ≡ Ok true → (more : ℕ) × Consumes (S.left source.old) (S.left source.new) (more ∷ []) }
    ensures end { result ≡ Ok false → Keeps (S.left source.old) (S.left source.new) × IsAtEnd (S.left source.new) }
    ensures kept { OnErr result (Keeps (S.left source.old) (S.left source.new)) }
    ensures cause { HasCause (S.faults source.old) (S.faults source.new) result }
{
    let mut beyond = [0u8; 1];
    let count = source.read(&mut beyond)?;
    Ok(count > 0)
}
