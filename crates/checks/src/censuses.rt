use census::{Census, take};
use grid::Shape;
use volume::{AtLevel, Density, TableVolume};

// The census at level 5 of a block of densities.
fn census(shape: Shape, entries: &[Option<u16>]) -> Census {
    let volume: TableVolume<Density> = TableVolume { shape, entries };
    take(&AtLevel::new(&volume, 5))
}

const ONE: Shape = Shape {
    nx: 1,
    ny: 1,
    nz: 1,
};

const BLOCK: Shape = Shape {
    nx: 2,
    ny: 2,
    nz: 2,
};

fn counts(points: u8, edges: u8, triangles: u8, tetrahedra: u8) -> Census {
    Census {
        points: u64::from(points),
        edges: u64::from(edges),
        triangles: u64::from(triangles),
        tetrahedra: u64::from(tetrahedra),
    }
}

#[test]
fn one_sample(rt: HostRuntime) {
    assert_eq!(rt; census(ONE, &[Some(5)]), counts(1, 0, 0, 0));
    assert_eq!(rt; census(ONE, &[Some(4)]), counts(0, 0, 0, 0), "outside");
    assert_eq!(rt; census(ONE, &[None]), counts(0, 0, 0, 0), "a missing entry");
    assert_eq!(rt; census(ONE, &[]), counts(0, 0, 0, 0), "an empty table");
}

#[test]
fn whole_block(rt: HostRuntime) {
    let whole = census(BLOCK, &[Some(9); 8]);
    assert_eq!(rt; whole, counts(8, 19, 18, 6));
    assert_eq!(rt; whole.euler(), 1);
}

#[test]
fn two_far_corners_missing(rt: HostRuntime) {
    let mut entries = [Some(9); 8];
    entries[0] = None;
    entries[7] = Some(0);
    let rest = census(BLOCK, &entries);
    assert_eq!(rt; rest, counts(6, 6, 0, 0));
    assert_eq!(rt; rest.euler(), 0);
}
