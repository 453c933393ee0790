/// The text without the mark of UTF-8 at its front.
pub fn without_mark(text: &[u8]) -> &[u8] {
    if text.starts_with(b"\xef\xbb\xbf") {
        text.get(3..).unwrap_or(&[])
    } else {
        text
    }
}
