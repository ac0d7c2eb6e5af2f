// Records in bytes, one behind the other: how any record is loaded and stored.
ghost use Rattle.std.specs.Prelude.{◌≡◌, ℕ, ◌+◌, ◌*◌, ◌≤◌, List, length, drop};
ghost use Rattle.std.proofs.lemmas.List.Edits.{sets};
ghost use Rattle.octets.specs.Numbers.{parts, flat};

// A record that can be read from bytes, SIZE of them.
pub trait FromBytes: Copy {
    ghost SIZE: { ℕ };

    const SIZE: usize;

    ghost of: { List ℕ → Self };

    fn read(b: &[u8], at: usize) -> Self
        requires { at + SIZE ≤ length b.now }
        ensures { result ≡ of (drop at b.now) };
}

// A record that can be written to bytes, SIZE of them.
pub trait ToBytes: Copy {
    ghost SIZE: { ℕ };

    const SIZE: usize;

    ghost bytes: { Self → List ℕ };

    fn put(self, b: &mut [u8], at: usize)
        requires { at + SIZE ≤ length b.old }
        ensures { b.new ≡ sets b.old at (bytes self) };

    ghost long: { (x : Self) → length (bytes x) ≡ SIZE };
}

// Fills rows with the records at the bytes' front.
pub fn load<T: FromBytes>(b: &[u8], rows: &mut [T])
    requires { T.SIZE * length rows.old ≤ length b.now }
    ensures { rows.new ≡ parts T.of T.SIZE (length rows.old) b.now }
{
    for (i, x) in rows.iter_mut().enumerate() {
        *x = T::read(b, T::SIZE * i);
    }
}

// Writes the records to the bytes' front.
pub fn store<T: ToBytes>(b: &mut [u8], rows: &[T])
    requires { T.SIZE * length rows.now ≤ length b.old }
    ensures { b.new ≡ sets b.old 0 (flat T.bytes rows.now) }
{
    for (i, x) in rows.iter().enumerate() {
        x.put(b, T::SIZE * i);
    }
}
