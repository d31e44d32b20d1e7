// Numbers into the caller's bytes, each in a field of fixed width, low byte first.
ghost use Rattle.std.specs.Prelude.{◌≡◌, ℕ, ◌+◌, ◌*◌, ◌≤◌, ◌∷◌, length, map};
ghost use Rattle.wire.specs.Bytes.{bytes_of, over, row_of};

// A number that has a field of fixed width.
pub trait FixedWidth: Copy {
    ghost WIDTH: { ℕ };

    ghost value: { Self → ℕ };

    // How many bytes its field has.
    const WIDTH: usize;

    // Writes it into a field.
    fn put(self, field: &mut [u8])
        requires { length field.old ≡ WIDTH }
        ensures { field.new ≡ bytes_of WIDTH (value self) };
}

impl FixedWidth for u32 {
    ghost WIDTH = { 4 };

    ghost value = { λ n. n };

    const WIDTH: usize = 4;

    fn put(self, field: &mut [u8]) {
        field.copy_from_slice(&self.to_le_bytes());
    }
}

impl FixedWidth for u64 {
    ghost WIDTH = { 8 };

    ghost value = { λ n. n };

    const WIDTH: usize = 8;

    fn put(self, field: &mut [u8]) {
        field.copy_from_slice(&self.to_le_bytes());
    }
}

// Writes numbers one behind the other from a place on, and gives the place behind them.
pub fn put_numbers<N: FixedWidth>(out: &mut [u8], at: usize, numbers: &[N]) -> usize
    requires { at + N.WIDTH * length numbers.now ≤ length out.old }
    ensures end { result ≡ at + N.WIDTH * length numbers.now }
    ensures after { out.new ≡ over at (row_of N.WIDTH (map N.value numbers.now)) out.old }
{
    // Kept: a proof knows nothing of what a loop writes through `chunks_exact_mut`.
    let mut place = at;
    for number in numbers {
        let end = place + N::WIDTH;
        number.put(&mut out[place..end]);
        place = end;
    }
    place
}

// Writes numbers behind one byte, which says what they are or how many, and gives the place behind
// them.
pub fn put_row<N: FixedWidth>(out: &mut [u8], at: usize, first: u8, numbers: &[N]) -> usize
    requires { at + 1 + N.WIDTH * length numbers.now ≤ length out.old }
    ensures end { result ≡ at + 1 + N.WIDTH * length numbers.now }
    ensures after { out.new ≡ over at (first ∷ row_of N.WIDTH (map N.value numbers.now)) out.old }
{
    out[at] = first;
    put_numbers(out, at + 1, numbers)
}
