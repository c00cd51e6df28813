//! Files of one piece and of more.
use crate::written::{NAME, found_words, write};
use cache_reads::{find, is_there, read_whole};
use disk_base::{DiskErr, MemDisk};
use res_base::List;
use std::alloc::Global;
use std::test::Fail;

/// A file of so many bytes, as it is read, and what is found of it.
fn read_back(alloc: Global, size: usize) -> Result<(List<u8>, String), DiskErr> {
    let mut disk = MemDisk::new(alloc);
    let bytes = vec![in alloc; b'a'; size]?;
    write(alloc, &mut disk, NAME, bytes.as_slice())?;
    let read = read_whole(alloc, &mut disk, NAME)?;
    let found = find(alloc, &mut disk, NAME)?;
    Ok((read, found_words(alloc, &found)?))
}

#[test]
fn a_file_of_many_pieces_is_read(rt: HostRuntime) -> Result<(), Fail> {
    let alloc = rt.alloc();
    for size in [0, 1, 65_535, 65_536, 65_537, 131_072, 200_000] {
        let (read, words) = read_back(alloc, size)?;
        assert!(rt; read.as_slice().len() == size, "{size} bytes");
        assert!(rt;
            read.as_slice().iter().all(|byte| *byte == b'a'),
            "{size} bytes"
        );
        let found = format!(in alloc; "broken: nothing wanted, {size} bytes, false")?;
        assert!(rt; words.as_str() == found.as_str(), "{size} bytes");
    }
    let mut empty = MemDisk::new(alloc);
    assert!(rt; !is_there(alloc, &mut empty, NAME)?);
    Ok(())
}
