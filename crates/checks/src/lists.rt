// The list of a call, read out of the part of the bytes in which it stands.
ghost use Rattle.std.specs.Prelude.{◌≤◌};

use wire::{first_numbers, leg_count};

// The numbers of a list, at most N; what stands in the array beyond their count means nothing.
#[derive(Clone, Copy)]
pub struct Listed<const N: usize> {
    numbers: [u32; N],
    count: usize,
    ghost within: { count ≤ N },
}

impl<const N: usize> Listed<N> {
    ghost use Rattle.std.specs.Prelude.{◌≡◌, length};
    ghost use Rattle.checks.specs.Lists.{ListRead, items};

    // The numbers that a part lists; none where they are none, or more than N.
    pub fn read(part: &[u8]) -> Option<Listed<N>>
        ensures { ListRead N part.now result }
    {
        let count = leg_count(part);
        if count == 0 || count > N {
            return None;
        }
        let numbers = first_numbers(part);
        Some(Listed { numbers, count })
    }

    // The numbers, one after the other.
    pub fn as_slice(&self) -> &[u32]
        ensures value { result.now ≡ items self.now }
    {
        &self.numbers[..self.count]
    }

    // How many they are.
    pub fn len(&self) -> usize
        ensures value { result ≡ length (items self.now) }
    {
        self.count
    }
}
