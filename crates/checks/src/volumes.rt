use grid::{Point, Shape};
use refusal::{Axis, Part, Refusal};
use std::test::Fail;
use volume::{
    Density, FileHeader, Fraction, Label, Phantom, Ratio, RatioParts, SampleKind, TableVolume,
    Volume, read_file,
};

#[test]
fn density_crossings(rt: HostRuntime) {
    assert_eq!(rt;
        Density { value: 10 }.crossing_to(&Density { value: 4 }, &7),
        Fraction { num: 3, den: 6 }
    );
    assert_eq!(rt;
        Density { value: 7 }.crossing_to(&Density { value: 4 }, &7),
        Fraction { num: 0, den: 3 }
    );
    assert_eq!(rt;
        Density { value: 5 }.crossing_to(&Density { value: 2 }, &3),
        Fraction { num: 2, den: 3 }
    );
}

#[test]
fn label_and_ratio_crossings(rt: HostRuntime) {
    assert_eq!(rt;
        Label { value: 5 }.crossing_to(&Label { value: 4 }, &5),
        Fraction { num: 1, den: 2 }
    );
    let half = Ratio { n: 1, d: 2 };
    assert_eq!(rt;
        Ratio { n: 3, d: 4 }.crossing_to(&Ratio { n: 1, d: 4 }, &half),
        Fraction { num: 8, den: 16 }
    );
}

#[test]
fn ratio_parts(rt: HostRuntime) {
    assert_eq!(rt; Ratio::new(4095, 4095), Ok(Ratio { n: 4095, d: 4095 }));
    assert_eq!(rt;
        Ratio::new(4096, 0),
        Err(Refusal::RatioPart(Part::Numerator))
    );
    assert_eq!(rt;
        Ratio::new(1, 0),
        Err(Refusal::RatioPart(Part::Denominator))
    );
    assert_eq!(rt;
        Ratio::new(1, 4096),
        Err(Refusal::RatioPart(Part::Denominator))
    );
    assert_eq!(rt; Ratio::load(&RatioParts { n: 0, d: 0 }), None);
}

#[test]
fn table_samples(rt: HostRuntime) {
    let entries = [Some(10), None, Some(20)];
    let volume: TableVolume<Density> = TableVolume {
        shape: Shape {
            nx: 2,
            ny: 2,
            nz: 1,
        },
        entries: &entries,
    };
    assert_eq!(rt;
        volume.sample_at(Point { x: 1, y: 1, z: 1 }),
        Some(Density { value: 10 })
    );
    assert_eq!(rt;
        volume.sample_at(Point { x: 2, y: 1, z: 1 }),
        None,
        "a missing entry"
    );
    assert_eq!(rt;
        volume.sample_at(Point { x: 1, y: 2, z: 1 }),
        Some(Density { value: 20 })
    );
    assert_eq!(rt;
        volume.sample_at(Point { x: 2, y: 2, z: 1 }),
        None,
        "beyond the table's end"
    );
    assert_eq!(rt;
        volume.sample_at(Point { x: 0, y: 1, z: 1 }),
        None,
        "on the border"
    );
}

#[test]
fn phantom_samples(rt: HostRuntime) {
    let ball = Phantom {
        shape: Shape {
            nx: 5,
            ny: 5,
            nz: 5,
        },
        cx: 2,
        cy: 2,
        cz: 255,
    };
    assert_eq!(rt;
        ball.sample_at(Point { x: 3, y: 3, z: 3 }),
        Some(Density { value: 1526 })
    );
    let ball = Phantom {
        shape: Shape {
            nx: 5,
            ny: 5,
            nz: 5,
        },
        cx: 2,
        cy: 2,
        cz: 2,
    };
    assert_eq!(rt;
        ball.sample_at(Point { x: 3, y: 3, z: 3 }),
        Some(Density { value: 65535 })
    );
    assert_eq!(rt; ball.sample_at(Point { x: 3, y: 3, z: 6 }), None);
}

fn refusal_of(bytes: &[u8]) -> Option<Refusal> {
    read_file(bytes, &mut [None; 1], &mut [None; 1]).err()
}

#[test]
fn file_refusals(rt: HostRuntime) {
    assert_eq!(rt; refusal_of(b"\x01\x01\x01"), Some(Refusal::FileLength(4)));
    assert_eq!(rt; refusal_of(b"\x03\x00\x01\x01"), Some(Refusal::FileKind));
    assert_eq!(rt;
        refusal_of(b"\x01\x01\xff\x00"),
        Some(Refusal::Side(Axis::Y))
    );
    assert_eq!(rt;
        refusal_of(b"\x02\x01\x01\x01\x05"),
        Some(Refusal::FileLength(6))
    );
    assert_eq!(rt;
        refusal_of(b"\x01\x01\x01\x01\x05\x00\x04\x00\x00"),
        Some(Refusal::FileLength(8))
    );
    assert_eq!(rt;
        refusal_of(b"\x02\x01\x02\x01\x05\x04\x04"),
        Some(Refusal::TableRoom(2))
    );
}

#[test]
fn file_samples(rt: HostRuntime) -> Result<(), Fail> {
    let mut densities = [Some(9); 2];
    let mut labels = [Some(9); 2];
    match read_file(b"\x02\x01\x01\x01\x05\x04", &mut densities, &mut labels)? {
        FileHeader::Labels { shape: _, level } => assert_eq!(rt; level, 5),
        FileHeader::Densities { .. } => return Err(Fail::new("a file of labels")),
    }
    assert_eq!(rt; labels, [Some(4), Some(9)]);
    match read_file(
        b"\x01\x01\x01\x01\x05\x01\x04\x02",
        &mut densities,
        &mut labels,
    )? {
        FileHeader::Densities { shape: _, level } => assert_eq!(rt; level, 261),
        FileHeader::Labels { .. } => return Err(Fail::new("a file of densities")),
    }
    assert_eq!(rt; densities, [Some(516), Some(9)]);
    Ok(())
}
