use hd_volume::MARK;

/// The first eight bytes of an unload stream.
const STREAM_MARK: [u8; 8] = *b"HDUNLOAD";

/// What a file is, as far as its first bytes tell.
#[derive(Clone, Copy, PartialEq, Eq)]
pub enum Beginning {
    Volume,
    Stream,
    Text,
    Unknown,
}

impl Beginning {
    /// What a file is that begins with these bytes.
    pub fn of(bytes: &[u8]) -> Beginning {
        if bytes.starts_with(&MARK) {
            Beginning::Volume
        } else if bytes.starts_with(&STREAM_MARK) {
            Beginning::Stream
        } else if is_text(bytes) {
            Beginning::Text
        } else {
            Beginning::Unknown
        }
    }

    /// The words for it; `None` where it is unknown.
    pub fn words(self) -> Option<&'static str> {
        match self {
            Beginning::Volume => Some("a volume"),
            Beginning::Stream => Some("an unload stream"),
            Beginning::Text => Some("text"),
            Beginning::Unknown => None,
        }
    }
}

/// Whether bytes are those of a text.
fn is_text(bytes: &[u8]) -> bool {
    !bytes.is_empty()
        && bytes
            .iter()
            .all(|byte| matches!(byte, b' '..=b'~' | b'\t' | b'\n' | b'\r'))
}
