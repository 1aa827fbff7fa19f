use extract::skin;
use std::test::Fail;

// What `skin` writes for small files and for what is no volume file.
#[test]
fn files_are_read(rt: HostRuntime) -> Result<(), Fail> {
    let files: [(&[u8], &[u8]); 12] = [
        (&[2, 1, 1, 1, 5, 4], b"OFF\n0 0 0\n"),
        (&[1, 1, 1, 1, 0, 0, 0], b"refused 9 8\n"),
        (&[1, 1, 1, 1, 255, 255, 254, 255], b"OFF\n0 0 0\n"),
        (&[], b"refused 9 4\n"),
        (&[2, 1, 1], b"refused 9 4\n"),
        (&[0, 1, 1, 1], b"refused 10 0\n"),
        (&[3, 0, 1, 1], b"refused 10 0\n"),
        (&[2, 0, 255, 1], b"refused 1 0\n"),
        (&[1, 254, 255, 0], b"refused 1 1\n"),
        (&[2, 1, 1, 0, 5, 5], b"refused 1 2\n"),
        (&[2, 1, 1, 1, 5, 5, 5], b"refused 9 6\n"),
        (&[2, 254, 254, 254, 5], b"refused 9 16387069\n"),
    ];
    for (input, output) in files {
        assert_eq!(rt; skin(rt.alloc(), input)?.as_slice(), output);
    }
    let long = vec![in rt.alloc(); 2u8; 4097]?;
    assert_eq!(rt;
        skin(rt.alloc(), &long)?.as_slice(),
        b"refused 12 4096\n".as_slice()
    );
    let mut wide = vec![in rt.alloc(); 1u8; 1032]?;
    wide[0] = 2;
    wide[1] = 1;
    wide[2] = 13;
    wide[3] = 79;
    assert_eq!(rt;
        skin(rt.alloc(), &wide)?.as_slice(),
        b"refused 12 1027\n".as_slice()
    );
    Ok(())
}

// Of all kind bytes only 1 and 2 are read.
#[test]
fn other_kinds_are_refused(rt: HostRuntime) -> Result<(), Fail> {
    for kind in 0..=255u8 {
        let output = skin(rt.alloc(), &[kind, 1, 1, 1, 5, 5])?;
        let other = output.as_slice() == b"refused 10 0\n".as_slice();
        assert_eq!(rt; other, kind != 1 && kind != 2);
    }
    Ok(())
}

// The first lines of the pages of blocks at levels at both ends of their range, all samples at the level.
#[test]
fn levels_at_the_ends(rt: HostRuntime) -> Result<(), Fail> {
    let one = b"OFF\n14 24 0\n";
    let files: [&[u8]; 4] = [
        &[1, 1, 1, 1, 0, 0, 0, 0],
        &[1, 1, 1, 1, 255, 255, 255, 255],
        &[2, 1, 1, 1, 0, 0],
        &[2, 1, 1, 1, 255, 255],
    ];
    for input in files {
        assert!(rt; skin(rt.alloc(), input)?.starts_with(one));
    }
    let block = [2, 2, 2, 2, 7, 7, 7, 7, 7, 7, 7, 7, 7];
    assert!(rt; skin(rt.alloc(), &block)?.starts_with(b"OFF\n74 144 0\n"));
    Ok(())
}
