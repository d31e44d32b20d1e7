// The chip in lent memory, tried on one block: what is written is read again, what power leaves of an
// act by the numbers of a tear, and which answers are recorded.
#![tactic(auto)]

ghost use Rattle.std.specs.Prelude.{◌*◌, ◌<◌};
ghost use Rattle.chips.specs.Recorded.{blocks_in};

#[cfg(test)]
mod tests {
    use chips::MemoryChip;
    use driver::Device;
    use flash::{Power, PowerFailed};
    use protocol::Answer;
    use std::alloc::Global;
    use std::test::Fail;

    // The bytes of a block: sixteen pages of 513.
    const BLOCK: usize = 8208;

    // How a page is, 0 blank, 1 written, 2 spoilt, and where it is written the first and the last byte.
    fn look(device: &MemoryChip, page: u32) -> (u8, u8, u8)
        requires { page < 16 * blocks_in device.now }
    {
        let mut bytes = [0; 512];
        let state = device.read(page, &mut bytes);
        (u8::from(state), bytes[0], bytes[511])
    }

    // How page 3 is after a write in which power fails, with this number for the page.
    fn torn_write(heap: Global, how: u8) -> (Result<(), PowerFailed>, u8) {
        let mut block = [0; BLOCK];
        let power = Power {
            acts: 1,
            tear: [how; 16],
        };
        let mut device = MemoryChip::new(&mut block, power, heap);
        let held = device.write(3, &[7; 512]);
        (held, look(&device, 3).0)
    }

    #[test]
    fn written_is_read(rt: HostRuntime) {
        let mut block = [0; BLOCK];
        let power = Power {
            acts: 0,
            tear: [0; 16],
        };
        let mut device = MemoryChip::new(&mut block, power, rt.alloc());
        assert!(rt; device.write(15, &[7; 512]).is_ok());
        assert!(rt; look(&device, 15) == (1, 7, 7));
        assert!(rt; look(&device, 14) == (0, 0, 0));
        assert!(rt; device.write(15, &[8; 512]).is_ok());
        assert!(rt; look(&device, 15) == (2, 0, 0));
        assert!(rt; device.erase(0).is_ok());
        assert!(rt; look(&device, 15) == (0, 0, 0));
    }

    #[test]
    fn torn_writes(rt: HostRuntime) {
        assert!(rt; torn_write(rt.alloc(), 0) == (Err(PowerFailed), 0));
        assert!(rt; torn_write(rt.alloc(), 1) == (Err(PowerFailed), 1));
        assert!(rt; torn_write(rt.alloc(), 2) == (Err(PowerFailed), 2));
    }

    // Four pages are written, and power fails in the fifth act, in which the block is erased: the first
    // is as before, the second is blank, the other two are spoilt.
    #[test]
    fn torn_erase(rt: HostRuntime) {
        let mut block = [0; BLOCK];
        let power = Power {
            acts: 5,
            tear: [0, 1, 2, 3, 0, 0, 0, 0, 0, 0, 0, 0, 0, 0, 0, 0],
        };
        let mut device = MemoryChip::new(&mut block, power, rt.alloc());
        assert!(rt; device.write(0, &[7; 512]).is_ok());
        assert!(rt; device.write(1, &[7; 512]).is_ok());
        assert!(rt; device.write(2, &[7; 512]).is_ok());
        assert!(rt; device.write(3, &[7; 512]).is_ok());
        assert!(rt; device.erase(0).is_err());
        assert!(rt; look(&device, 0) == (1, 7, 7));
        assert!(rt; look(&device, 1) == (0, 0, 0));
        assert!(rt; look(&device, 2) == (2, 0, 0));
        assert!(rt; look(&device, 3) == (2, 0, 0));
    }

    // Power fails in the second act, so that only the first answer is recorded.
    #[test]
    fn answers(rt: HostRuntime) -> Result<(), Fail> {
        let mut block = [0; BLOCK];
        let power = Power {
            acts: 2,
            tear: [0; 16],
        };
        let mut device = MemoryChip::new(&mut block, power, rt.alloc());
        assert!(rt; device.say(Answer::Sold, &[4, 2]).is_ok());
        assert!(rt; device.say(Answer::Number { value: 5 }, &[]).is_err());
        assert!(rt; device.power().acts == 0);
        let [one] = device.said() else {
            return Err(Fail::new("one answer"));
        };
        assert!(rt; one.answer == Answer::Sold);
        assert!(rt; one.list() == [4, 2].as_slice());
        Ok(())
    }
}
