// What a source and a sink of bytes promise.
ghost use Rattle.std.specs.Prelude.{◌≡◌, ◌<◌, List, [], ℕ, length, IfOk, OnOk, OnErr};
ghost use Rattle.std.specs.Io.{ReadsAtMost, WritesAtMost};
ghost use Rattle.std.specs.Io.KnownBytes.{Appends, ReadConsumes, WriteAppends};
ghost use Rattle.std.specs.declared.option.Option.{Option};
ghost use Rattle.pst_io.specs.Causes.{HasCause};
ghost use Rattle.pst_io.specs.Taken.{AppendsProperPart};

/// A read or a write failed. It says no more: the count of faults of the source or sink has risen.
#[derive(Clone, Copy, PartialEq, Eq)]
pub struct Failed;

/// What gives bytes, a piece at a time, until its end.
pub trait Source {
    /// The bytes that are left, where the source tells them.
    ghost left: { Self → Option (List ℕ) };

    /// How often it has failed. This number never falls; one that stands at 2^64 - 1 may stay there.
    ghost faults: { Self → ℕ };

    /// Puts bytes at the front of the buffer, and says how many. None into a buffer that has room is the
    /// end of the input. `Failed` takes no byte away, and comes only where the count of faults rose.
    fn read(&mut self, buf: &mut [u8]) -> Result<usize, Failed>
        ensures bound { ReadsAtMost result buf.new }
        ensures bytes { ReadConsumes (left self.old) (left self.new) result buf.new }
        ensures cause { HasCause (faults self.old) (faults self.new) result };
}

/// What takes bytes, a piece at a time.
pub trait Sink {
    /// The bytes that it has taken, where the sink tells them.
    ghost taken: { Self → Option (List ℕ) };

    /// How often it has failed. This number never falls; one that stands at 2^64 - 1 may stay there.
    ghost faults: { Self → ℕ };

    /// Takes bytes from the front of the piece, and says how many: at least one of a piece that has any.
    /// `Failed` comes only where the count of faults rose, and then nothing of the piece was taken.
    fn write(&mut self, piece: &[u8]) -> Result<usize, Failed>
        ensures bound { WritesAtMost result piece.now }
        ensures some { 0 < length piece.now → IfOk result (λ count. 0 < count) }
        ensures bytes { WriteAppends (taken self.old) (taken self.new) result piece.now }
        ensures cause { HasCause (faults self.old) (faults self.new) result };
}

/// Writes the whole piece, by as many writes as are needed, and makes none for an empty piece.
///
/// After `Failed`, which comes only where the sink's count of faults rose, a proper prefix of the piece
/// was taken.
///
/// # Errors
/// Where the sink failed: a proper part of the piece was taken.
pub fn put<K: Sink>(sink: &mut K, piece: &[u8]) -> Result<(), Failed>
    ensures ok { OnOk result (Appends (K.taken sink.old) (K.taken sink.new) piece.now) }
    ensures err { OnErr result (AppendsProperPart (K.taken sink.old) (K.taken sink.new) piece.now) }
    ensures cause { HasCause (K.faults sink.old) (K.faults sink.new) result }
    ensures empty { piece.now ≡ [] → sink.new ≡ sink.old }
{
    let mut done = 0;
    while done < piece.len() {
        done += sink.write(&piece[done..])?;
    }
    Ok(())
}
