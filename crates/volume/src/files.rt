ghost use Rattle.std.specs.Prelude.{◌≡◌, ℕ, ◌+◌, ◌^◌, ◌<◌, ◌≤◌, map, length, Some, None, IfOk, MatchResult};
ghost use Rattle.std.proofs.lemmas.List.Edits.{sets};
ghost use Rattle.grid.specs.Shapes.{sides};
ghost use Rattle.volume.specs.Files.{sample_count, file_sides, length_due, body_refusal, file_refusal, run, Held};

use crate::file_kinds::FileKind;
use crate::numbers::FileNumber;
use grid::Shape;
use refusal::Refusal;

// What a volume file tells besides its samples.
#[derive(Clone, Copy)]
pub enum FileHeader {
    Densities { shape: Shape, level: u16 },
    Labels { shape: Shape, level: u8 },
}

// How many samples a block has.
fn sample_count(shape: Shape) -> usize
    ensures value { result ≡ sample_count (sides shape) }
    ensures few { result < 2 ^ 24 }
{
    usize::from(shape.nx) * (usize::from(shape.ny) * usize::from(shape.nz))
}

// The shape that a file whose samples take `width` bytes tells, if it is as long as is due and its samples fit `room` entries.
fn read_shape(bytes: &[u8], width: usize, room: usize) -> Result<Shape, Refusal>
    requires four { 4 ≤ length bytes.now }
    requires narrow { width ≤ 2 }
    ensures answer { MatchResult result (λ s. (body_refusal bytes.now width room ≡ None) × (sides s ≡ file_sides bytes.now)) (λ e. body_refusal bytes.now width room ≡ Some e) }
    ensures fits { IfOk result (λ s. (length bytes.now ≡ length_due width (sides s)) × (sample_count (sides s) ≤ room)) }
{
    let shape = Shape::new(
        u64::from(bytes[1]),
        u64::from(bytes[2]),
        u64::from(bytes[3]),
    )?;
    let count = sample_count(shape);
    let due = 4 + width * (1 + count);
    if bytes.len() != due {
        return Err(Refusal::FileLength(due as u64));
    }
    if room < count {
        return Err(Refusal::TableRoom(count as u64));
    }
    Ok(shape)
}

// Puts numbers at the start of a table.
fn fill<const WIDTH: usize, N: FileNumber<WIDTH>>(table: &mut [Option<N>], numbers: &[[u8; WIDTH]])
    requires { length numbers.now ≤ length table.old }
    ensures { table.new ≡ sets table.old 0 (map (λ b. Some (N.FileNumber.number b 0)) numbers.now) }
{
    for (i, bytes) in numbers.iter().enumerate() {
        table[i] = Some(N::from_bytes(bytes));
    }
}

// Reads a file whose numbers take WIDTH bytes: its shape and level, and its samples, which go to the start of the table.
fn read_numbers<const WIDTH: usize, N: FileNumber<WIDTH>>(
    bytes: &[u8],
    table: &mut [Option<N>],
) -> Result<(Shape, N), Refusal>
    requires four { 4 ≤ length bytes.now }
    requires some { 1 ≤ WIDTH }
    requires narrow { WIDTH ≤ 2 }
    ensures { MatchResult result (λ r. (body_refusal bytes.now WIDTH (length table.old) ≡ None) × (sides r.0 ≡ file_sides bytes.now) × (r.1 ≡ N.FileNumber.number bytes.now 4) × (table.new ≡ sets table.old 0 (run WIDTH N.FileNumber.number bytes.now (sample_count (file_sides bytes.now))))) (λ e. (body_refusal bytes.now WIDTH (length table.old) ≡ Some e) × (table.new ≡ table.old)) }
{
    let shape = read_shape(bytes, WIDTH, table.len())?;
    let (numbers, _) = bytes[4..].as_chunks::<WIDTH>();
    fill(table, &numbers[1..]);
    Ok((shape, N::from_bytes(&numbers[0])))
}

// Reads a volume file: its samples go to the start of the table of its kind.
pub fn read_file(
    bytes: &[u8],
    densities: &mut [Option<u16>],
    labels: &mut [Option<u8>],
) -> Result<FileHeader, Refusal>
    ensures { MatchResult result (λ h. (file_refusal bytes.now (length densities.old) (length labels.old) ≡ None) × Held h bytes.now densities.old densities.new labels.old labels.new) (λ e. (file_refusal bytes.now (length densities.old) (length labels.old) ≡ Some e) × ((densities.new ≡ densities.old) × (labels.new ≡ labels.old))) }
{
    if bytes.len() < 4 {
        return Err(Refusal::FileLength(4));
    }
    match FileKind::try_from(bytes[0])? {
        FileKind::Density => {
            let (shape, level) = read_numbers::<2, u16>(bytes, densities)?;
            Ok(FileHeader::Densities { shape, level })
        }
        FileKind::Label => {
            let (shape, level) = read_numbers::<1, u8>(bytes, labels)?;
            Ok(FileHeader::Labels { shape, level })
        }
    }
}
