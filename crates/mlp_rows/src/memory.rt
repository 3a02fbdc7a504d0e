//! A sink that grows and a source over a slice.
use mlp_io::{Source, fill, put_all};
use mlp_stream::{GrowingSink, SliceSource};
use std::test::Fail;

#[test]
fn keeps_what_is_written_and_gives_what_lies_there(rt: HostRuntime) -> Result<(), Fail> {
    let mut kept = GrowingSink::new(rt.alloc());
    assert_eq!(rt; put_all(&mut kept, &[1, 2, 3]), Ok(()));
    assert_eq!(rt; put_all(&mut kept, &[4]), Ok(()));
    assert_eq!(rt; kept.bytes(), [1, 2, 3, 4].as_slice());
    let mut source = SliceSource::new(kept.bytes());
    let mut buf = [0; 3];
    assert_eq!(rt; fill(&mut source, &mut buf), Ok(3));
    assert_eq!(rt; buf, [1, 2, 3]);
    assert_eq!(rt; source.read(&mut buf), Ok(1));
    assert_eq!(rt; fill(&mut source, &mut buf), Ok(0));
    assert_eq!(rt; buf, [4, 2, 3]);
    Ok(())
}
