//! The two traits through which bytes come in and go out, each with a count of faults.
ghost use Rattle.std.specs.Prelude.{◌≡◌, ℕ, ◌<◌, ◌≤◌, List, [], length, take, Option};
ghost use Rattle.std.specs.Io.KnownBytes.{prepend_known, append_known, IsAtEnd};
ghost use Rattle.dom_io.specs.Counts.{CountRose, last_count};
ghost use Rattle.dom_io.specs.Tooks.{IfTook, OnFailed};

/// What a read or a write took.
#[derive(Clone, Copy, Debug, PartialEq, Eq)]
pub enum Took {
    /// So many bytes were taken.
    Some(usize),
    /// There was a fault, and nothing was taken.
    Failed,
}

/// Bytes from outside.
pub trait Source {
    // The bytes that are left, where they are told.
    ghost left: { Self → Option (List ℕ) };

    // How many faults there were.
    ghost faults: { Self → ℕ };

    /// Takes the first of the bytes that are left, and puts them at the head of the buffer. Some(0) for a
    /// buffer that is not empty is the end.
    fn read(&mut self, buf: &mut [u8]) -> Took
        ensures bound { IfTook result (λ count. count ≤ length buf.new) }
        ensures taken { IfTook result
            (λ count. left self.old ≡ prepend_known (take count buf.new) (left self.new)) }
        ensures end { IfTook result
            (λ count. count ≡ 0 → 0 < length buf.new → IsAtEnd (left self.new)) }

        ensures failed { OnFailed result (left self.new ≡ left self.old) }
        ensures cause { OnFailed result (CountRose (faults self.old) (faults self.new)) }
        ensures count { faults self.old ≤ faults self.new }
        ensures bounded { faults self.new ≤ last_count };
}

/// Bytes to outside.
pub trait Sink {
    // The bytes that it holds, where they are told.
    ghost held: { Self → Option (List ℕ) };

    // How many faults there were.
    ghost faults: { Self → ℕ };

    /// Adds the first bytes of the piece at the end of what is held. Taking none of a piece that is not
    /// empty is a fault.
    fn write(&mut self, piece: &[u8]) -> Took
        ensures bound { IfTook result (λ count. count ≤ length piece.now) }
        ensures added { IfTook result
            (λ count. held self.new ≡ append_known (held self.old) (take count piece.now)) }
        ensures progress { IfTook result (λ count. count ≡ 0 → piece.now ≡ []) }

        ensures failed { OnFailed result (held self.new ≡ held self.old) }
        ensures cause { OnFailed result (CountRose (faults self.old) (faults self.new)) }
        ensures count { faults self.old ≤ faults self.new }
        ensures bounded { faults self.new ≤ last_count };
}
