ghost use Rattle.volume.specs.FileKinds.{Decodes};

use refusal::Refusal;

// Which kind of samples a volume file has.
#[derive(Clone, Copy)]
pub(crate) enum FileKind {
    Density,
    Label,
}

// The kind of a file's first byte.
impl TryFrom<u8> for FileKind {
    type Error = Refusal;

    ghost try_from_gives = { Decodes };

    fn try_from(code: u8) -> Result<FileKind, Refusal> {
        match code {
            1 => Ok(FileKind::Density),
            2 => Ok(FileKind::Label),
            _ => Err(Refusal::FileKind),
        }
    }
}
