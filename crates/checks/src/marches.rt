use crate::tables::{Sizes, last_march, verdict};
use grid::{GridEdge, Shape, Triangle};
use keymap::Entry;
use mesh::{Counts, Verdict, Vertex};
use refusal::{Axis, Refusal};
use std::mem::size_of;
use std::test::Fail;
use surface::Counts as Added;

const ROOM: Sizes = Sizes {
    marks: 8,
    entries: 7,
    vertices: 7,
    triangles: 6,
};

// A march refuses for the shape, the cell, its mark and each of the four tables, and adds what it needs where there is just room.
#[test]
fn marches_refuse(rt: HostRuntime) -> Result<(), Fail> {
    let heap = rt.alloc();
    let one = Shape::new(1, 1, 1)?;
    let two = Shape::new(1, 2, 1)?;
    let added = Added {
        vertices: 7,
        triangles: 6,
    };
    assert_eq!(rt; last_march(heap, ROOM, one, one, &[0])?, Ok(added));
    assert_eq!(rt;
        last_march(heap, ROOM, one, two, &[0])?,
        Err(Refusal::OtherShape(Axis::Y))
    );
    assert_eq!(rt;
        last_march(heap, ROOM, one, one, &[8])?,
        Err(Refusal::Outside(8))
    );
    assert_eq!(rt;
        last_march(heap, ROOM, one, one, &[0, 0])?,
        Err(Refusal::Marched(0))
    );
    assert_eq!(rt;
        last_march(heap, Sizes { marks: 3, ..ROOM }, one, one, &[3])?,
        Err(Refusal::NoMark(3))
    );
    assert_eq!(rt;
        last_march(heap, Sizes { entries: 6, ..ROOM }, one, one, &[0])?,
        Err(Refusal::EntryRoom(0))
    );
    assert_eq!(rt;
        last_march(
            heap,
            Sizes {
                vertices: 6,
                ..ROOM
            },
            one,
            one,
            &[0],
        )?,
        Err(Refusal::VertexRoom(0))
    );
    assert_eq!(rt;
        last_march(
            heap,
            Sizes {
                triangles: 5,
                ..ROOM
            },
            one,
            one,
            &[0],
        )?,
        Err(Refusal::TriangleRoom(0))
    );
    Ok(())
}

// The records are small: 12 bytes an entry, 16 a vertex, 12 a triangle.
#[test]
fn records_are_small(rt: HostRuntime) {
    assert!(rt; size_of::<Option<Entry<GridEdge>>>() <= 12);
    assert!(rt; size_of::<Vertex>() <= 16);
    assert!(rt; size_of::<Triangle<u32>>() <= 12);
}

// The skins of the worked blocks, marched in falling order, are sound.
#[test]
fn blocks_close(rt: HostRuntime) -> Result<(), Fail> {
    let heap = rt.alloc();
    let mut ring = vec![in heap; Some(1u8); 9]?;
    ring[4] = None;
    let flat = Counts {
        vertices: 92,
        edges: 276,
        triangles: 184,
        euler: 0,
        parts: 1,
    };
    assert_eq!(rt;
        verdict(heap, Shape::new(3, 3, 1)?, &ring)?,
        Verdict::Sound(flat)
    );
    let mut hollow = vec![in heap; Some(1u8); 27]?;
    hollow[13] = Some(2);
    let shell = Counts {
        vertices: 196,
        edges: 576,
        triangles: 384,
        euler: 4,
        parts: 2,
    };
    assert_eq!(rt;
        verdict(heap, Shape::new(3, 3, 3)?, &hollow)?,
        Verdict::Sound(shell)
    );
    let pair = Counts {
        vertices: 26,
        edges: 72,
        triangles: 48,
        euler: 2,
        parts: 1,
    };
    assert_eq!(rt;
        verdict(heap, Shape::new(2, 1, 1)?, &[Some(1), Some(1)])?,
        Verdict::Sound(pair)
    );
    let none = Counts {
        vertices: 0,
        edges: 0,
        triangles: 0,
        euler: 0,
        parts: 0,
    };
    assert_eq!(rt;
        verdict(heap, Shape::new(1, 1, 1)?, &[None])?,
        Verdict::Sound(none)
    );
    Ok(())
}
