//! Lines of an input of which a read fails, an input that is read whole, and the limits of both.

use crate::lists::listed;
use flow_edges::MAX_READ;
use flow_lines::{
    InputRefusal, LineRefusal, Lines, MAX_INPUT, MAX_LINE, MAX_WHOLE_INPUT, read_whole,
};
use flow_memory::{MemorySource, QuietSource};
use std::test::Fail;

#[test]
fn repeats_a_fault_without_reading(rt: HostRuntime) -> Result<(), Fail> {
    // Reads of two bytes: "ab", "\nc", "d\n", and the end.
    for (failing, given, left) in [(1, 0, 6), (2, 0, 4), (3, 1, 2), (4, 2, 0)] {
        let bytes = listed(rt.alloc(), b"ab\ncd\n")?;
        let mut source = MemorySource::new(bytes, 2, listed(rt.alloc(), &[failing])?);
        let mut lines = Lines::new(rt.alloc())?;
        for _ in 0..given {
            assert!(rt; lines.next_line(&mut source)?.is_some(), "at {failing}");
        }
        for _ in 0..2 {
            let refusal = lines.next_line(&mut source).err();
            assert_eq!(rt; refusal, Some(LineRefusal::Fault), "at {failing}");
            assert_eq!(rt; source.left().len(), left, "at {failing}");
        }
    }
    Ok(())
}

#[test]
fn an_input_is_read_whole(rt: HostRuntime) -> Result<(), Fail> {
    let alloc = rt.alloc();
    let read = read_whole(alloc, &mut QuietSource::new(listed(alloc, b"a\nb")?, 2))?;
    assert_eq!(rt; read.as_slice(), b"a\nb".as_slice());
    for (failing, left) in [(1, 3), (2, 1), (3, 0)] {
        let mut source = MemorySource::new(listed(alloc, b"a\nb")?, 2, listed(alloc, &[failing])?);
        assert!(rt; matches!(read_whole(alloc, &mut source), Err(InputRefusal::Fault)));
        assert_eq!(rt; source.left().len(), left, "at {failing}");
    }
    Ok(())
}

#[test]
fn limits_are_these_numbers(rt: HostRuntime) {
    assert_eq!(rt; MAX_READ, 65_536);
    assert_eq!(rt; MAX_LINE, 8_388_608);
    assert_eq!(rt; MAX_INPUT, 1_099_511_627_776);
    assert_eq!(rt; MAX_WHOLE_INPUT, 67_108_864);
}
