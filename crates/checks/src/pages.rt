use grid::Triangle;
use mesh::Coordinates;
use page::{begin, write_page};
use refusal::Refusal;

const VERTICES: [Coordinates; 3] = [
    Coordinates {
        x: 5_000,
        y: 0,
        z: 10_001,
    },
    Coordinates {
        x: 2_550_000,
        y: 12_345,
        z: 9,
    },
    Coordinates {
        x: 100_000,
        y: 1,
        z: 999_999,
    },
];

const FACE: Triangle<u32> = Triangle { a: 0, b: 1, c: 2 };

const PAGE: &[u8] =
    b"OFF\n3 1 0\n0.5000 0.0000 1.0001\n255.0000 1.2345 0.0009\n10.0000 0.0001 99.9999\n3 0 1 2\n";

// The page fills a buffer of its length.
#[test]
fn a_full_buffer(rt: HostRuntime) {
    let mut buffer = [b'.'; 85];
    assert_eq!(rt; write_page(&mut buffer, &VERTICES, &[FACE]), Ok(85));
    assert_eq!(rt; &buffer[..], PAGE);
}

// With one byte less its last line is refused, and not begun.
#[test]
fn a_short_buffer(rt: HostRuntime) {
    let mut buffer = [b'.'; 84];
    assert_eq!(rt;
        write_page(&mut buffer, &VERTICES, &[FACE]),
        Err(Refusal::PageRoom(77))
    );
    assert_eq!(rt; buffer[76], b'\n');
    assert_eq!(rt; &buffer[77..], b".......".as_slice());
}

#[test]
fn numbers_outside(rt: HostRuntime) {
    let mut buffer = [b'.'; 90];
    let far = [Coordinates {
        x: 0,
        y: 2_550_001,
        z: 2_550_002,
    }];
    assert_eq!(rt;
        write_page(&mut buffer, &far, &[]),
        Err(Refusal::Outside(2_550_001))
    );
    assert_eq!(rt; &buffer[..11], b"OFF\n1 0 0\n.".as_slice());
    let face = Triangle { a: 2, b: 3, c: 4 };
    assert_eq!(rt;
        write_page(&mut buffer, &VERTICES, &[face]),
        Err(Refusal::Outside(3))
    );
}

// Announces some lines, and writes others.
fn unlike(buffer: &mut [u8], vertices: u64, faces: u64) -> Result<usize, Refusal> {
    let page = begin(buffer, vertices, faces)?;
    let page = page.vertex(buffer, VERTICES[0])?;
    let page = page.end_vertices()?;
    let page = page.face(buffer, Triangle { a: 0, b: 0, c: 0 })?;
    let page = page.finish()?;
    Ok(page.length())
}

#[test]
fn other_counts(rt: HostRuntime) {
    let mut buffer = [b'.'; 90];
    assert_eq!(rt; unlike(&mut buffer, 0, 1), Err(Refusal::LineCount(0)));
    assert_eq!(rt; unlike(&mut buffer, 2, 1), Err(Refusal::LineCount(1)));
    assert_eq!(rt; unlike(&mut buffer, 1, 0), Err(Refusal::LineCount(0)));
    assert_eq!(rt; unlike(&mut buffer, 1, 2), Err(Refusal::LineCount(1)));
    assert_eq!(rt; unlike(&mut buffer, 1, 1), Ok(39));
    assert_eq!(rt; unlike(&mut buffer[..9], 1, 1), Err(Refusal::PageRoom(0)));
}
