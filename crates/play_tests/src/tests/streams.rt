//! Plays, and reads and writes, over readers and writers that give and take little, and fail.

use super::documents::{FIRST_EVENT, FIRST_EVENT_TEXT};
use crate::failing::other_over_failing;
use crate::slow::{SlowReader, SlowWriter};
use command_line::{AppFault, read_all, write_text};
use pipeline_app::play;
use play_documents::DocFault;
use std::test::Fail;

#[test]
fn reads_byte_by_byte(rt: HostRuntime) -> Result<(), Fail> {
    let mut reader = SlowReader::new(b"abc", 4);
    assert_eq!(rt;
        read_all(rt.alloc(), &mut reader)?.as_slice(),
        b"abc".as_slice()
    );
    Ok(())
}

#[test]
fn stops_at_a_failing_read(rt: HostRuntime) {
    for reads in 0..4 {
        let mut reader = SlowReader::new(b"abc", reads);
        assert!(rt; matches!(read_all(rt.alloc(), &mut reader), Err(AppFault::Read)));
    }
}

#[test]
fn reads_no_more_than_a_document(rt: HostRuntime) -> Result<(), Fail> {
    let whole = vec![in rt.alloc(); 32u8; 1_048_576]?;
    let mut most = whole.as_slice();
    assert_eq!(rt; read_all(rt.alloc(), &mut most)?.len(), 1_048_576);
    let longer = vec![in rt.alloc(); 32u8; 1_048_577]?;
    let mut more = longer.as_slice();
    assert!(rt;
        matches!(
            read_all(rt.alloc(), &mut more),
            Err(AppFault::Document(DocFault::TooLong))
        )
    );
    Ok(())
}

#[test]
fn stops_at_a_failing_write(rt: HostRuntime) {
    for writes in 0..3 {
        let mut writer = SlowWriter::new(rt.alloc(), 1, writes);
        assert_eq!(rt; write_text(&mut writer, b"abc"), Err(AppFault::Write));
        assert_eq!(rt; writer.taken.as_slice(), &b"abc"[..writes]);
    }
}

#[test]
fn writes_byte_by_byte(rt: HostRuntime) {
    let mut writer = SlowWriter::new(rt.alloc(), 1, 3);
    assert_eq!(rt; write_text(&mut writer, b"abc"), Ok(()));
    assert_eq!(rt; writer.taken.as_slice(), b"abc".as_slice());
    let mut full = SlowWriter::new(rt.alloc(), 0, 3);
    assert_eq!(rt; write_text(&mut full, b"abc"), Err(AppFault::Write));
    assert!(rt; full.taken.is_empty());
}

#[test]
fn plays_over_failing_readers_and_writers(rt: HostRuntime) {
    let alloc = rt.alloc();
    let other = other_over_failing(alloc, FIRST_EVENT, FIRST_EVENT_TEXT, |reader, writer| {
        play(alloc, reader, writer)
    });
    assert_eq!(rt; other, None);
}
