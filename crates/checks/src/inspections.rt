use grid::Triangle;
use keymap::Entry;
use mesh::{Counts, DirectedEdge, Verdict, VertexRecord, inspect};
use refusal::Refusal;

const USED: VertexRecord = VertexRecord {
    parent: 9,
    neighbour: 9,
    degree: 9,
};

fn triangle(a: u32, b: u32, c: u32) -> Triangle<u32> {
    Triangle { a, b, c }
}

// The surface of a tetrahedron.
fn tetrahedron(a: u32, b: u32, c: u32, d: u32) -> [Triangle<u32>; 4] {
    [
        triangle(a, b, c),
        triangle(a, c, d),
        triangle(a, d, b),
        triangle(b, d, c),
    ]
}

// The surfaces of two.
fn two(p: [Triangle<u32>; 4], q: [Triangle<u32>; 4]) -> [Triangle<u32>; 8] {
    [p[0], p[1], p[2], p[3], q[0], q[1], q[2], q[3]]
}

// The answer with tables of these lengths, at most 24 and 8.
fn with_room(
    vertex_count: u32,
    triangles: &[Triangle<u32>],
    entries: usize,
    places: usize,
) -> Result<Verdict, Refusal> {
    let mut edges = [Some(Entry {
        key: DirectedEdge { from: 0, to: 1 },
        number: 7,
    }); 24];
    let mut records = [USED; 8];
    inspect(
        vertex_count,
        triangles,
        &mut edges[0..entries.min(24)],
        &mut records[0..places.min(8)],
    )
}

fn inspected(vertex_count: u32, triangles: &[Triangle<u32>]) -> Result<Verdict, Refusal> {
    with_room(vertex_count, triangles, 24, 8)
}

#[test]
fn sound_meshes(rt: HostRuntime) {
    let one = tetrahedron(0, 1, 2, 3);
    assert_eq!(rt;
        inspected(4, &one),
        Ok(Verdict::Sound(Counts {
            vertices: 4,
            edges: 6,
            triangles: 4,
            euler: 2,
            parts: 1,
        }))
    );
    assert_eq!(rt;
        inspected(8, &two(one, tetrahedron(7, 4, 5, 6))),
        Ok(Verdict::Sound(Counts {
            vertices: 8,
            edges: 12,
            triangles: 8,
            euler: 4,
            parts: 2,
        }))
    );
    assert_eq!(rt;
        inspected(0, &one[0..0]),
        Ok(Verdict::Sound(Counts {
            vertices: 0,
            edges: 0,
            triangles: 0,
            euler: 0,
            parts: 0,
        }))
    );
}

#[test]
fn faults(rt: HostRuntime) {
    let one = tetrahedron(0, 1, 2, 3);
    assert_eq!(rt; inspected(3, &one), Ok(Verdict::Misnamed(1)));
    assert_eq!(rt;
        inspected(4, &[one[0], triangle(1, 2, 1)]),
        Ok(Verdict::Misnamed(1))
    );
    assert_eq!(rt;
        inspected(4, &[one[0], one[1], triangle(3, 1, 2)]),
        Ok(Verdict::Doubled(2))
    );
    assert_eq!(rt; inspected(4, &one[0..3]), Ok(Verdict::Unpaired(0)));
    assert_eq!(rt; inspected(5, &one), Ok(Verdict::Bare(4)));
    assert_eq!(rt;
        inspected(7, &two(one, tetrahedron(4, 5, 2, 6))),
        Ok(Verdict::Torn(2))
    );
}

#[test]
fn short_tables(rt: HostRuntime) {
    let one = tetrahedron(0, 1, 2, 3);
    assert_eq!(rt; with_room(4, &one, 11, 3), Err(Refusal::WorkRoom(12)));
    assert_eq!(rt; with_room(4, &one, 12, 3), Err(Refusal::WorkRoom(4)));
    assert!(rt; with_room(4, &one, 12, 4).is_ok());
}
